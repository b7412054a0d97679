//! The state of the database, one line at a time.
ghost use Rattle.std.specs.Prelude.{◌≡◌, ◌+◌, ◌≤◌, true, false, [], IfOk};
ghost use Rattle.command_text.specs.Journal.{clock, is_kept, spelled};
ghost use Rattle.command_text.specs.Tree.{command_view};
ghost use Rattle.line_meaning.specs.Journal.{world};
ghost use Rattle.line_meaning.specs.Looks.{is_query, looks_of, most_looks};
ghost use Rattle.line_meaning.specs.Role.{asks_shelf, is_import};
ghost use Rattle.line_meaning.specs.Step.{base, held};
ghost use Rattle.outside.specs.Shelf.{Texts};
ghost use Rattle.session.specs.Carried.{Carried, HasRoomFor, IsLegible, moment};
ghost use Rattle.session.specs.Filed.{IsAnswered, IsBySome};
ghost use Rattle.session.specs.Replayed.{Replays};
ghost use Rattle.session.specs.State.{holds, IsIndexed, IsState};
ghost use Rattle.session.specs.Answers.{Applies, HasFaultCause, IsUnread, Suffices};
ghost use Rattle.session.specs.Untold.{AppliesBySome};
ghost use Rattle.steps.specs.Counting.{StepsAtMost};

use crate::answer::{carry_out, end};
use crate::filing::file;
use crate::laws::read_commands_are_legible;
use crate::next::{ApplyFault, Next};
use crate::state::State;
use command_text::{Command, CommandFault, Journal, LINE_LIMIT, LineReader};
use line_meaning::{Role, role_of, steps_write_what_is_accepted};
use outside::Shelf;
use std::alloc::{AllocError, Global};
use std::marker::Model;
use std::sync::ledger::Ledger;
use steps::Steps;

/// The state of the database, seen as what it holds of the lines before: its journal, the commands that it
/// accepted, each with its tick, in order; and its indexes.
#[derive(Drop)]
pub struct Session {
    alloc: Global,
    reader: LineReader,
    state: State,
}

impl Model for Session {
    ghost use Rattle.std.specs.Prelude.{ℕ, List, [], refl};
    ghost use Rattle.std.specs.Coded.{codes, code_by};
    ghost use Rattle.formula_shape.specs.ShapeCode.{shape_code};
    ghost use Rattle.ftl_parser.specs.declared.tree.Atom.{Atom};
    ghost use Rattle.ftl_parser.specs.declared.tree.Term.{Term};
    ghost use Rattle.command_text.specs.Journal.{Accepted};
    ghost use Rattle.line_meaning.specs.Indexed.{IndexEntry};
    ghost use Rattle.line_meaning.specs.Step.{Held};
    ghost use Rattle.session.specs.State.{holds, IsIndexed, IsState};

    ghost Value = { Held };

    ghost coded = { code_by (List Accepted × List IndexEntry) (Prim.hlevel (codes, shape_code {A = Atom} {B = List ℕ × Term} (Prim.hlevel codes)))
        (λ h. (h.journal, h.indexes)) (λ p. record { journal = p.0; indexes = p.1 }) (λ _. refl) };

    ghost view = { λ a. holds a.state };

    ghost invariant = { λ a. IsState a.state.journal a.state × IsIndexed a.state };
}

impl Session {
    /// An empty database, whose clock is at 0. It takes no memory.
    pub fn new(alloc: Global) -> Session
        ensures { result ≡ held [] }
    {
        Session {
            alloc,
            reader: LineReader::new(alloc),
            state: State::new(alloc),
        }
    }

    /// The clock, in ticks since the beginning: at most 10^9.
    pub fn now(&self) -> u32
        ensures { result ≡ clock self.now.journal }
    {
        self.state.database.clock()
    }

    /// What was accepted, in order.
    pub fn journal(&self) -> &Journal
        ensures { result.now ≡ self.now.journal }
    {
        &self.state.journal
    }

    /// Answers one line, without its line feed. `Accepted` and `Quit` append the reply to `out`; `Silent`
    /// comes exactly of a blank line or a comment; `Refused` carries the first refusal that holds, and changes
    /// nothing. `ShelfFault` comes only where the shelf counted a fault, of a `save`, an `export` or an `import`
    /// that nothing refuses but its text: the text under the name that was to be written is unknown then, and
    /// all else as it was. Want of memory changes nothing, but that an `import` may have entered the first of
    /// its rows, and a `range` may have looked at stale objects, which are stale no more then. No other command calls the shelf. Steps of `reads` are taken at most as many as the bound of
    /// the line's command by the numbers of entries, of objects and of ticks; a refused line takes none, and
    /// none of `probes`.
    pub fn apply<F: Shelf, L: Ledger, M: Ledger>(
        &mut self,
        line: &[u8],
        shelf: &mut F,
        out: &mut Vec<u8>,
        reads: &mut Steps<L>,
        probes: &mut Steps<M>,
    ) -> Result<Next, ApplyFault>
        ensures applies { Applies (F.texts shelf.old) (F.texts shelf.new) line.now self.old self.new out.old.items out.new.items result }
        ensures cause { HasFaultCause (F.faults shelf.old) (F.faults shelf.new) result }
        ensures untouched { asks_shelf (spelled line.now) ≡ false → shelf.new ≡ shelf.old }
        ensures least { reads.old ≤ reads.new }
        ensures most { (texts : Texts) → Suffices (F.texts shelf.old) line.now texts → reads.new ≤ reads.old + looks_of (base self.old texts) (spelled line.now) }

        // Also where the shelf tells no texts: it is so by some that it may have, so that an `import` is one of some text.
        ensures some { AppliesBySome (F.texts shelf.old) line.now (moment self.old out.old.items reads.old probes.old)
            (moment self.new out.new.items reads.new probes.new) result }

        ensures unread { IfOk result (λ next. IsUnread next reads.old reads.new) }
        ensures unprobed { IfOk result (λ next. IsUnread next probes.old probes.new) }
        ensures plain { is_query (spelled line.now) ≡ false → probes.new ≡ probes.old }
    {
        let command = match self.reader.read(line, LINE_LIMIT) {
            Ok(command) => command,
            Err(CommandFault::Refused(refusal)) => return Ok(Next::Refused(refusal)),
            Err(CommandFault::NoMemory) => return Err(ApplyFault::NoMemory),
        };
        // Calls that do nothing, whose contracts say what carrying out requires: that the command which was read is
        // legible, and that the journal's writes are accepted ones.
        read_commands_are_legible();
        steps_write_what_is_accepted();
        let applied = apply_command(&mut self.state, &command, shelf, reads, probes, out);
        drop(command);
        applied
    }

    /// Carries out a command that a journal keeps, as `apply` does with its line, but without a reply: it is
    /// `Accepted`, or `Refused` by the first refusal that holds. A refusal and want of memory change nothing.
    pub fn replay<L: Ledger, M: Ledger>(
        &mut self,
        command: Command,
        reads: &mut Steps<L>,
        probes: &mut Steps<M>,
    ) -> Result<Next, AllocError>
        requires kept { is_kept (command_view command) ≡ true }
        requires legible { IsLegible (command_view command) }
        ensures replayed { Replays self.old (command_view command) self.new result }
        ensures reads { StepsAtMost reads.old reads.new (most_looks (held self.old.journal) (command_view command)) }
        ensures unread { IfOk result (λ next. IsUnread next reads.old reads.new) }
        ensures unprobed { IfOk result (λ next. IsUnread next probes.old probes.new) }
    {
        let mut lines = Vec::new(self.alloc);
        let carried = self.carry_out(&command, reads, probes, &mut lines);
        drop(command);
        drop(lines);
        carried
    }

    /// Carries out a command that was read and asks nothing of the shelf, and appends the lines of its reply to `out`. A refusal
    /// and want of memory change nothing.
    fn carry_out<L: Ledger, M: Ledger>(
        &mut self,
        command: &Command,
        reads: &mut Steps<L>,
        probes: &mut Steps<M>,
        out: &mut Vec<u8>,
    ) -> Result<Next, AllocError>
        requires legible { IsLegible (command_view command.now) }
        requires plain { asks_shelf (command_view command.now) ≡ false }
        ensures carried { Carried (command_view command.now)
            (moment self.old out.old.items reads.old probes.old) (moment self.new out.new.items reads.new probes.new) result }
        ensures room { IfOk result (λ next. HasRoomFor next out.new) }
    {
        let (alloc, state) = (self.alloc, &mut self.state);
        carry_out(alloc, state, command, reads, probes, out)
    }
}

/// Carries out a command that was read, and answers it.
fn apply_command<F: Shelf, L: Ledger, M: Ledger>(
    state: &mut State,
    command: &Command,
    shelf: &mut F,
    reads: &mut Steps<L>,
    probes: &mut Steps<M>,
    out: &mut Vec<u8>,
) -> Result<Next, ApplyFault>
    requires state { IsState state.old.journal state.old }
    requires indexed { IsIndexed state.old }
    requires legible { IsLegible (command_view command.now) }
    ensures state { IsState state.new.journal state.new }
    ensures indexed { IsIndexed state.new }
    ensures answered { IsAnswered (F.texts shelf.old) (F.texts shelf.new) (command_view command.now)
        (moment (holds state.old) out.old.items reads.old probes.old)
        (moment (holds state.new) out.new.items reads.new probes.new) result }
    ensures some { is_import (command_view command.now) ≡ true → IsBySome (F.texts shelf.old) (command_view command.now)
        (moment (holds state.old) out.old.items reads.old probes.old)
        (moment (holds state.new) out.new.items reads.new probes.new) result }
    ensures cause { HasFaultCause (F.faults shelf.old) (F.faults shelf.new) result }
    ensures untouched { asks_shelf (command_view command.now) ≡ false → shelf.new ≡ shelf.old }
{
    let alloc = *out.allocator();
    match role_of(command) {
        Role::Filing => file(state, command, shelf, reads, probes, out),
        _ => match carry_out(alloc, state, command, reads, probes, out) {
            Ok(next) => {
                end(next, out);
                Ok(next)
            }
            Err(AllocError) => Err(ApplyFault::NoMemory),
        },
    }
}
