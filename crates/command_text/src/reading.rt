//! Reading lines.
ghost use Rattle.std.specs.Prelude.{◌≡◌, None, length, OnOk, IfOk, IfErr};
ghost use Rattle.std.specs.List.{list_any};
ghost use Rattle.command_text.specs.Tree.{command_view};
ghost use Rattle.command_text.specs.Line.{is_comment, is_ascii, has_other_byte, IsRead, Explains};
ghost use Rattle.command_text.specs.GrammarLaws.{IsSpelled, IsFaultOf};
ghost use Rattle.command_text.specs.inner.LineParts.{IsBegun, TellsBadPlace};
ghost use Rattle.ftl_lexer.specs.Tokens.{bad_place};
ghost use Rattle.ftl_lexer.specs.Forms.{FitsLexer};

use crate::Command;
use crate::fault::CommandFault;
use crate::line::command;
use crate::refusal::Refusal;
use ftl_lexer::{LexFault, Tokens, bad_token};
use std::alloc::Global;

/// The most bytes of a line.
pub const LINE_LIMIT: usize = 4096;

#[inline]
fn is_ascii(byte: u8) -> bool
    ensures { result ≡ is_ascii byte }
{
    byte == b'\t' || (32 <= byte && byte <= 126)
}

/// Whether a line has a byte other than a tab and 0x20 to 0x7E. It looks at all of them, which a compiler does
/// many at a time, where a walk that ends at the first one goes byte by byte.
#[tactic(auto, using(std::proofs::lemmas::List::Folds::list_any_more))]
fn has_other_byte(line: &[u8]) -> bool
    ensures { result ≡ has_other_byte line.now }
{
    let mut found = false;
    'bytes: for byte in line {
        found |= !is_ascii(*byte);
    }
    found
}

/// Whether the first byte of a line that is neither a space nor a tab is `#`.
fn is_comment(line: &[u8]) -> bool
    ensures { result ≡ is_comment line.now }
{
    let mut rest = line;
    'blanks: while let Some((byte, later)) = rest.split_first() {
        if *byte != b' ' && *byte != b'\t' {
            return *byte == b'#';
        }
        rest = later;
    }
    false
}

/// The tokens of a line that isn't a comment, put in place of those of the line before.
fn cut(tokens: &mut Tokens, line: &[u8]) -> Result<(), CommandFault>
    requires { FitsLexer (length line.now) }
    ensures ok { OnOk result ((tokens.new ≡ line.now) × (bad_place line.now ≡ None)) }
    ensures cause { IfErr result (TellsBadPlace line.now) }
{
    match tokens.read(line) {
        Ok(()) => Ok(()),
        Err(LexFault::BadToken(_)) => Err(CommandFault::Refused(Refusal::BadToken)),
        Err(LexFault::NoMemory) => Err(CommandFault::NoMemory),
    }
}

/// Whether a line of at most `limit` bytes is a comment, or the first of the first three refusals that holds. If it isn't
/// one, its tokens are put in place of those of the line before.
#[tactic(auto, using(crate::proofs::reader::LineLemmas::begin_steps))]
fn begin(tokens: &mut Tokens, line: &[u8], limit: usize) -> Result<bool, CommandFault>
    requires { FitsLexer limit }
    ensures ok { IfOk result (IsBegun limit line.now tokens.new) }
    ensures cause { IfErr result (Explains limit line.now) }
{
    if line.len() > limit {
        return Err(CommandFault::Refused(Refusal::LineTooLong));
    }
    if has_other_byte(line) {
        return Err(CommandFault::Refused(Refusal::NotAscii));
    }
    if is_comment(line) {
        return Ok(true);
    }
    cut(tokens, line)?;
    Ok(false)
}

/// Reads lines one after another. A line that is no longer than the one that was cut into tokens last wants no
/// memory for its tokens.
#[derive(Drop)]
pub struct LineReader {
    alloc: Global,
    tokens: Tokens,
}

impl LineReader {
    /// A reader of lines. Takes no memory.
    pub fn new(alloc: Global) -> LineReader {
        LineReader {
            alloc,
            tokens: Tokens::new(alloc),
        }
    }

    /// Reads a line of at most `limit` bytes: the command that its tokens spell. Refuses it by the first
    /// of the refusals 1 to 6 that holds; the first three are told without memory. `spelled` and `refused`
    /// say it by the grammar alone, `ok` and `cause` by the reader that computes it.
    // Inline, so that the command isn't copied once more on its way out.
    #[inline(always)]
    #[tactic(auto, using(crate::proofs::grammar::DerivedLines::answers_spelled, crate::proofs::grammar::DerivedLines::fault_told))]
    pub fn read(&mut self, line: &[u8], limit: usize) -> Result<Command, CommandFault>
        requires { FitsLexer limit }
        ensures spelled { IfOk result (λ c. IsSpelled limit line.now (command_view c)) }
        ensures refused { IfErr result (IsFaultOf limit line.now) }
        ensures ok { IfOk result (λ c. IsRead limit line.now (command_view c)) }
        ensures cause { IfErr result (Explains limit line.now) }
    {
        let comment = begin(&mut self.tokens, line, limit)?;
        if comment {
            return Ok(Command::Nothing);
        }
        command(self.alloc, &self.tokens)
    }
}

/// Reads one line, as a `LineReader` does.
pub fn read(alloc: Global, line: &[u8], limit: usize) -> Result<Command, CommandFault>
    requires { FitsLexer limit }
    ensures spelled { IfOk result (λ c. IsSpelled limit line.now (command_view c)) }
    ensures refused { IfErr result (IsFaultOf limit line.now) }
    ensures ok { IfOk result (λ c. IsRead limit line.now (command_view c)) }
    ensures cause { IfErr result (Explains limit line.now) }
{
    LineReader::new(alloc).read(line, limit)
}
