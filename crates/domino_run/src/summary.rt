//! What is said of the generator's lines.
ghost use Rattle.std.specs.Prelude.{◌≡◌, ◌≤◌, ◌+◌, [], length, IfOk};
ghost use Rattle.outside.specs.Shelf.{texts_of};
ghost use Rattle.line_meaning.specs.Step.{base};
ghost use Rattle.generator.specs.Lines.{lines_of};
ghost use Rattle.generator.specs.declared.plan.TheConstants.{LINES};
ghost use Rattle.domino_run.specs.Looks.{looks_of_lines};
ghost use Rattle.domino_run.specs.Machine.{looks_of_line};
ghost use Rattle.domino_run.specs.Summary.{AnswersAs, first_state, summary, told_of_lines};

use crate::machine::{Counters, push_refusal};
use crate::tally::Tally;
use generator::{Generator, as_many_lines_by_each_number};
use outside::{OutFail, SureShelf};
use session::{ApplyFault, Next, Session};
use std::alloc::Global;
use std::sync::ledger::Ledger;

// The lines that are still to come, what answers them, and the last line with its reply. One value, so that it is let go
// in one place, whichever line's answer fails.
#[derive(Drop)]
struct Workload {
    session: Session,
    shelf: SureShelf,
    lines: Generator,
    line: Vec<u8>,
    reply: Vec<u8>,
}

/// Answers the lines of a number from an empty database on, with a shelf of their own, and tells what was
/// counted of them. The replies are kept no longer than it takes to count them.
pub fn summary<L: Ledger, M: Ledger>(
    alloc: Global,
    number: u32,
    counters: &mut Counters<L, M>,
) -> Result<Vec<u8>, OutFail>
    ensures text { IfOk result (λ text. text.items ≡ summary number) }
    ensures looks { counters.new.reads ≤ counters.old.reads + looks_of_lines first_state.0 (lines_of number) }
{
    as_many_lines_by_each_number();
    let session = Session::new(alloc);
    let shelf = SureShelf::new(alloc);
    let lines = Generator::new(number);
    let mut workload = Workload {
        session,
        shelf,
        lines,
        line: Vec::new(alloc),
        reply: Vec::new(alloc),
    };
    tell_lines(alloc, &mut workload, counters)
}

// Answers the lines that are still to come, and tells what was counted of them.
fn tell_lines<L: Ledger, M: Ledger>(
    alloc: Global,
    workload: &mut Workload,
    counters: &mut Counters<L, M>,
) -> Result<Vec<u8>, OutFail>
    requires { length workload.old.lines ≤ LINES }
    ensures text { IfOk result (λ text. text.items
        ≡ told_of_lines (base workload.old.session (texts_of workload.old.shelf)) workload.old.lines) }
    ensures looks { counters.new.reads ≤ counters.old.reads
        + looks_of_lines (base workload.old.session (texts_of workload.old.shelf)) workload.old.lines }
{
    let mut tally = Tally::new();
    'lines: while workload.lines.next_line(&mut workload.line)? {
        workload.reply.clear();
        let refused = answer(
            counters,
            &mut workload.session,
            &workload.line,
            &mut workload.shelf,
            &mut workload.reply,
        )?;
        tally.count(refused, &workload.reply);
    }
    let text = tally.text(alloc)?;
    Ok(text)
}

/// Answers one line, and says whether it was refused. The texts of the shelf are its own, so it never fails.
fn answer<L: Ledger, M: Ledger>(
    counters: &mut Counters<L, M>,
    session: &mut Session,
    line: &[u8],
    shelf: &mut SureShelf,
    reply: &mut Vec<u8>,
) -> Result<bool, OutFail>
    requires { reply.old.items ≡ [] }
    ensures answers { IfOk result (λ refused. AnswersAs (base session.old (texts_of shelf.old)) line.now
        (base session.new (texts_of shelf.new)) refused reply.new.items) }
    ensures looks { counters.new.reads ≤ counters.old.reads + looks_of_line (base session.old (texts_of shelf.old)) line.now }
{
    match session.apply(
        line,
        shelf,
        reply,
        &mut counters.reads,
        &mut counters.probes,
    ) {
        Ok(Next::Refused(refusal)) => {
            push_refusal(reply, refusal)?;
            Ok(true)
        }
        Ok(Next::Silent) => Ok(false),
        Ok(Next::Accepted) => Ok(false),
        Ok(Next::Quit) => Ok(false),
        Err(ApplyFault::NoMemory) => Err(OutFail::NoMemory),
        Err(ApplyFault::ShelfFault) => unreachable!(),
    }
}
