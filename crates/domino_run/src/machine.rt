//! The database as a line machine.
ghost use Rattle.std.specs.Prelude.{◌≡◌, ◌++◌, false, IfErr, OnOk};
ghost use Rattle.outside.specs.declared.fault.OutFail.TheVariants.{NoMemory};
ghost use Rattle.command_text.specs.Refusals.{refusal_line};
ghost use Rattle.line_meaning.specs.Reply.{line_feed};

use command_text::{LINE_LIMIT, Refusal, lines_begin_with_their_words};
use line_loop::Handler;
use outside::{OutFail, Shelf};
use session::{ApplyFault, Next, Session};
use std::mem::forget;
use std::sync::ledger::Ledger;
use steps::Steps;

/// What is counted of a run. It has no bytes.
#[derive(Drop)]
pub struct Counters<L: Ledger, M: Ledger> {
    /// Looks at timelines, and at entries of the journal.
    pub reads: Steps<L>,
    /// Probes of crossings.
    pub probes: Steps<M>,
}

/// The database: it answers a line at a time, until a `quit`, and counts.
#[derive(Drop)]
pub struct Database<L: Ledger, M: Ledger> {
    session: Session,
    ended: bool,
    counters: Counters<L, M>,
}

impl<L: Ledger, M: Ledger> Database<L, M> {
    /// The database of a session.
    pub fn new(session: Session, counters: Counters<L, M>) -> Database<L, M>
        ensures session { result.session ≡ session }
        ensures ended { result.ended ≡ false }
        ensures counters { result.counters ≡ counters }
    {
        Database {
            session,
            ended: false,
            counters,
        }
    }

    /// The counters, as they stand. The program ends after it, and its memory with it: what the session holds isn't given
    /// back piece by piece, which would look at all of it once more.
    pub fn into_counters(self) -> Counters<L, M>
        ensures { result ≡ self.counters }
    {
        let Database {
            session,
            counters,
            ..
        } = self;
        forget(session);
        counters
    }
}

impl<F: Shelf, L: Ledger, M: Ledger> Handler<F> for Database<L, M> {
    ghost use Rattle.std.specs.Prelude.{Some};
    ghost use Rattle.domino_run.specs.Machine.{RunState, run_cost, run_machine, run_leaves, told_state};

    ghost State = { RunState };

    ghost machine = { run_machine };

    ghost state = { λ database shelf. told_state database.session database.ended (F.texts shelf) };

    ghost faults = { λ shelf. F.faults shelf };

    ghost leaves = { run_leaves };

    ghost spent = { λ database. database.counters.reads };

    ghost cost = { run_cost };

    ghost use Rattle.command_text.specs.declared.reading.TheConstants.{LINE_LIMIT};

    ghost LONGEST = { Some LINE_LIMIT };

    const LONGEST: Option<u32> = Some(LINE_LIMIT as u32);

    fn is_done(&self) -> bool {
        self.ended
    }

    // By the first word alone, so it may answer `true` of a line that is refused too.
    fn asks(&self, line: &[u8]) -> bool {
        lines_begin_with_their_words();
        let command = line.trim_ascii_start();
        let saves = command.starts_with(b"save");
        let imports = command.starts_with(b"import");
        let exports = command.starts_with(b"export");
        saves | imports | exports
    }

    fn answer(&mut self, line: &[u8], shelf: &mut F, out: &mut Vec<u8>) -> Result<(), OutFail> {
        let counters = &mut self.counters;
        match self.session.apply(line, shelf, out, &mut counters.reads, &mut counters.probes) {
            Ok(Next::Silent) => Ok(()),
            Ok(Next::Accepted) => Ok(()),
            Ok(Next::Refused(refusal)) => push_refusal(out, refusal),
            Ok(Next::Quit) => {
                self.ended = true;
                Ok(())
            }
            Err(ApplyFault::ShelfFault) => Err(OutFail::Failed),
            Err(ApplyFault::NoMemory) => Err(OutFail::NoMemory),
        }
    }

    fn long_lines_step_alike() {
        line_meaning::long_lines_step_alike();
    }
}

/// Writes the line of a refusal.
pub fn push_refusal(out: &mut Vec<u8>, refusal: Refusal) -> Result<(), OutFail>
    ensures ok { OnOk result (out.new.items ≡ out.old.items ++ (refusal_line refusal ++ line_feed)) }
    ensures err { IfErr result (λ fail. fail ≡ NoMemory) }
{
    out.extend_from_slice(refusal.line().bytes())?;
    out.extend_from_slice(b"\n")?;
    Ok(())
}
