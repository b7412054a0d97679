//! The commands on indexes.
ghost use Rattle.std.specs.Prelude.{◌≡◌, ℕ, OnOk};
ghost use Rattle.command_text.specs.Shape.{IsPrintable};
ghost use Rattle.command_text.specs.Tree.{command_view};
ghost use Rattle.line_meaning.specs.declared.role.Role.TheVariants.{Indexing};
ghost use Rattle.line_meaning.specs.Role.{role_of};
ghost use Rattle.session.specs.Carried.{CarriesOut, moment};
ghost use Rattle.session.specs.State.{holds, IsIndexed, IsState};
ghost use Rattle.kept_indexes.specs.Making.{HasRoomForOk};

use crate::state::State;
use command_text::{Command, CommandFault};
use kept_indexes::Range;
use std::alloc::Global;
use std::sync::ledger::Ledger;
use steps::Steps;

/// Makes an index, or answers a range by one, and writes the lines of its reply. The journal and the database stay. After an
/// error `out` begins with its old contents, and nothing has changed but which objects are stale in an index.
pub(crate) fn on_indexes<L: Ledger>(
    alloc: Global,
    state: &mut State,
    command: &Command,
    reads: &mut Steps<L>,
    out: &mut Vec<u8>,
) -> Result<(), CommandFault>
    requires state { IsState state.old.journal state.old }
    requires indexed { IsIndexed state.old }
    requires printable { IsPrintable (command_view command.now) }
    requires role { role_of (command_view command.now) ≡ Indexing }
    ensures state { IsState state.new.journal state.new }
    ensures indexed { IsIndexed state.new }
    ensures database { state.new.database ≡ state.old.database }
    ensures carries { (probes : ℕ) → CarriesOut (command_view command.now)
        (moment (holds state.old) out.old.items reads.old probes)
        (moment (holds state.new) out.new.items reads.new probes) result }
    ensures room { OnOk result (HasRoomForOk out.new) }
{
    match command {
        Command::Index { class, attr, width } => {
            state
                .indexes
                .add(alloc, &state.database, class, attr, *width, out)
        }
        Command::Range {
            span,
            class,
            attr,
            least,
            greatest,
        } => {
            let range = Range {
                span: *span,
                class,
                attr,
                least: *least,
                greatest: *greatest,
            };
            state
                .indexes
                .range(alloc, &state.database, &state.journal, &range, reads, out)
        }
        _ => unreachable!(),
    }
}
