//! The commands of a text, one after another.
ghost use Rattle.std.specs.Prelude.{◌≡◌, ◌≢◌, ◌+◌, ◌^◌, ◌≤◌, length, IfOk, IfErr, OnErr, IfSome, true, option_map, if◌then◌else◌, None, Some};
ghost use Rattle.std.specs.Str.Lines.{lines};
ghost use Rattle.command_text.specs.Tree.{command_view};
ghost use Rattle.session_file.specs.Kept.{HasLine, kept_in};
ghost use Rattle.command_text.specs.Line.{early_refusal};
ghost use Rattle.session_file.specs.declared.kept.TheConstants.{SESSION_LINE_LIMIT};
ghost use Rattle.session_file.specs.Lacks.{IsAtCommand};
ghost use Rattle.session_file.specs.Reading.{ExplainsReading, GivesNextCommand, StopsBy, may_go_on, read_counted, read_on, reading_after_end, reading_of, starting, stops};
ghost use Rattle.command_text.specs.declared.journal.TheConstants.{MOST_ENTRIES};
ghost use Rattle.session_file.specs.declared.counts.Counts.{Counts};
ghost use Rattle.session_file.specs.declared.fault.FileFault.TheVariants as faults;

use crate::FileFault;
use crate::counts::{Counts, Progress, counts_of};
use crate::kept::kept_in;
use crate::lines::{is_line, next_written, split_line};
use command_text::{Command, LineReader};
use std::alloc::Global;
use std::marker::Model;

/// A command that was read from a line of a text.
#[derive(Drop)]
pub struct Loaded {
    /// The number of the line, counted from 1.
    pub line: u64,
    pub command: Command,
}

/// The commands of a session's text that are left, and the first fault after them. A contract sees both.
#[derive(Drop)]
pub struct SessionReader<'a> {
    alloc: Global,
    reader: LineReader,
    progress: Progress,
    // The number of the next line.
    number: u64,
    text: &'a [u8],
}

impl<'a> Model for SessionReader<'a> {
    ghost use Rattle.std.specs.Prelude.{◌+◌, ◌^◌, ◌≤◌, length};
    ghost use Rattle.std.specs.Str.Lines.{lines};
    ghost use Rattle.session_file.specs.Fits.{Fits};
    ghost use Rattle.session_file.specs.Reading.{Reading, read_on};
    ghost use Rattle.std.specs.Prelude.{ℕ, List};
    ghost use Rattle.std.specs.Coded.{codes};
    ghost use Rattle.formula_shape.specs.ShapeCode.{shape_code};
    ghost use Rattle.ftl_parser.specs.declared.tree.Atom.{Atom};
    ghost use Rattle.ftl_parser.specs.declared.tree.Term.{Term};

    ghost Value = { Reading };

    ghost coded = { Prim.hlevel (codes, shape_code {A = Atom} {B = List ℕ × Term} (Prim.hlevel codes)) };

    ghost view = { λ r. read_on r.progress r.number (lines r.text.now) };

    ghost invariant = { λ r. (r.number + length r.text.now ≤ 2 ^ 63) × Fits r.progress };
}

impl<'a> SessionReader<'a> {
    /// Begins to read a text, by its first line, and in format 2 by the second. Takes no memory.
    #[tactic(auto, unfolding(crate::specs::Reading::reading_of))]
    pub fn new(alloc: Global, text: &'a [u8]) -> Result<SessionReader<'a>, FileFault>
        ensures ok { IfOk result (λ reader. reader ≡ reading_of text.now) }
        ensures fault { IfErr result (λ fault. reading_of text.now ≡ stops fault) }
        ensures memory { IfErr result (λ fault. fault ≢ faults.NoMemory) }
    {
        let Some((first, rest)) = split_line(text) else {
            return Err(FileFault::BadHeader);
        };
        if is_line(first, b"domino-session 1") {
            Ok(SessionReader::starting(alloc, None, 2, rest))
        } else if is_line(first, b"domino-session 2") {
            SessionReader::after_header(alloc, rest)
        } else {
            Err(FileFault::BadHeader)
        }
    }

    // Before lines of which the first has this number.
    fn starting(
        alloc: Global,
        said: Option<Counts>,
        number: u64,
        text: &'a [u8],
    ) -> SessionReader<'a>
        requires room { number + length text.now ≤ 2 ^ 63 }
        requires few { (counts : Counts) → said ≡ Some counts → counts.commands ≤ MOST_ENTRIES }
        ensures { result ≡ read_on (starting said) number (lines text.now) }
    {
        SessionReader {
            alloc,
            reader: LineReader::new(alloc),
            progress: Progress::new(said),
            number,
            text,
        }
    }

    // After the first line of format 2, by the second.
    fn after_header(alloc: Global, text: &'a [u8]) -> Result<SessionReader<'a>, FileFault>
        requires { length text.now + 2 ≤ 2 ^ 63 }
        ensures ok { IfOk result (λ reader. reader ≡ read_counted (lines text.now)) }
        ensures fault { IfErr result (λ fault. read_counted (lines text.now) ≡ stops fault) }
        ensures memory { IfErr result (λ fault. fault ≢ faults.NoMemory) }
    {
        match split_line(text) {
            Some((line, rest)) => match counts_of(line) {
                Some(said) => Ok(SessionReader::starting(alloc, Some(said), 3, rest)),
                None => Err(FileFault::BadLine(2)),
            },
            None => Err(FileFault::NoEnd),
        }
    }

    /// The first command that is left, None where the text has no more and is no longer faulty. After an
    /// `Err` the same is left as before. Want of memory is told only at a line where a command may stand, of
    /// which none of the first three refusals holds.
    #[tactic(auto, using(crate::proofs::ReadLemmas::read_steps))]
    pub fn next_command(&mut self) -> Result<Option<Loaded>, FileFault>
        ensures ok { IfOk result (GivesNextCommand self.old self.new) }
        ensures line { IfOk result (λ found. IfSome found (λ loaded. HasLine (command_view loaded.command))) }
        ensures fault { IfErr result (StopsBy self.old) }
        ensures memory { IfErr result (λ fault. fault ≡ faults.NoMemory → IsAtCommand self.old) }
        ensures err { OnErr result (self.new ≡ self.old) }
    {
        let Some((number, line, rest)) = next_written(self.number, self.text) else {
            return Err(FileFault::NoEnd);
        };
        if is_line(line, b"end") && self.progress.may_end() {
            return if rest.is_empty() {
                Ok(None)
            } else {
                Err(FileFault::BadLine(number + 1))
            };
        }
        let found = taken(self.alloc, &mut self.reader, &self.progress, line)?;
        let Some(command) = found else {
            return Err(FileFault::BadLine(number));
        };
        self.progress = self.progress.counted(&command);
        self.number = number + 1;
        self.text = rest;
        Ok(Some(Loaded {
            line: number,
            command,
        }))
    }
}

/// The command of a line, None where no command may stand there.
fn taken(
    alloc: Global,
    reader: &mut LineReader,
    progress: &Progress,
    line: &[u8],
) -> Result<Option<Command>, FileFault>
    ensures ok { IfOk result (λ found. option_map command_view found ≡ (if may_go_on progress.now then kept_in line.now else None)) }
    ensures room { IfOk result (λ found. IfSome found (λ _. may_go_on progress.now ≡ true)) }
    ensures err { IfErr result (λ fault. fault ≡ faults.NoMemory) }
    ensures late { OnErr result ((may_go_on progress.now ≡ true) × (early_refusal SESSION_LINE_LIMIT line.now ≡ None)) }
{
    if !progress.may_go_on() {
        return Ok(None);
    }
    kept_in(alloc, reader, line)
}
