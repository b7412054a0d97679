//! A database that several users share.
ghost use Rattle.std.specs.Prelude.{◌≡◌, [], true, false, IfOk, None, OnOk};
ghost use Rattle.command_text.specs.declared.fault.CommandFault.TheVariants.{NoMemory};
ghost use Rattle.command_text.specs.Tree.{command_view};
ghost use Rattle.line_meaning.specs.Role.{asks_shelf};
ghost use Rattle.line_meaning.specs.Step.{fault_of};
ghost use Rattle.database.specs.Keeping.{clock_of};
ghost use Rattle.kept_indexes.specs.Making.{HasRoomForOk};
ghost use Rattle.session.specs.Carried.{Carried, HasRoomFor, IsAccepted, IsLegible, IsOnData, IsToCarryOut, Spends, is_on_data, moment};
ghost use Rattle.session.specs.Entering.{IsPrinted};
ghost use Rattle.session.specs.Sharing.{Awaits, IsBare, IsRightOver, IsSameFor, LeavesDatabase, LeavesOthers, changes_data, desk_of, held_at, user_state};
ghost use Rattle.session.specs.State.{holds, IsIndexed, IsState};

use crate::answer::carry_out;
use crate::keeping::{accept, make_change};
use crate::next::Next;
use crate::state::{Changed, Printed, State};
use command_text::{Command, CommandFault, Journal};
use kept_indexes::Indexes;
use live_queries::Live;
use std::alloc::{AllocError, Global};
use std::mem::swap;
use std::sync::ledger::Ledger;
use steps::Steps;

/// What is one user's own beside a database that several share: the journal of what was accepted of this user's lines and of
/// the commands on data of the others, the registered queries with their rows, and the indexes.
#[derive(Drop)]
pub struct Desk {
    journal: Journal,
    live: Live,
    indexes: Indexes,
    // The canonical line of the last command that the journal was to keep.
    line: Vec<u8>,
}

impl Desk {
    /// A desk with this journal, without queries and indexes. It takes no memory.
    pub fn new(alloc: Global, journal: Journal) -> Desk
        ensures { IsBare journal result }
    {
        Desk {
            journal,
            live: Live::new(alloc),
            indexes: Indexes::new(alloc),
            line: Vec::new(alloc),
        }
    }

    /// What was accepted, in order.
    pub fn journal(&self) -> &Journal
        ensures { result.now ≡ self.now.journal }
    {
        &self.journal
    }

    /// Changes places with the desk of a state.
    fn change_places(&mut self, state: &mut State)
        ensures state { state.new ≡ user_state state.old.database self.old }
        ensures desk { self.new ≡ desk_of state.old }
    {
        swap(&mut self.journal, &mut state.journal);
        swap(&mut self.live, &mut state.live);
        swap(&mut self.indexes, &mut state.indexes);
        swap(&mut self.line, &mut state.line);
    }
}

/// A database that several users share, each with a desk.
#[derive(Drop)]
pub struct Shared {
    alloc: Global,
    // The desk of whoever's command is carried out, and an empty one between commands.
    state: State,
    // The last change of the database, which the others are yet to follow.
    changed: Option<Changed>,
}

impl Shared {
    /// An empty database, whose clock is at 0. It takes no memory.
    pub fn new(alloc: Global) -> Shared
        ensures { (desk : Desk) → IsBare [] desk → IsRightOver result desk }
    {
        Shared {
            alloc,
            state: State::new(alloc),
            changed: None,
        }
    }

    /// The clock, in ticks since the beginning: at most 10^9.
    pub fn now(&self) -> u32
        ensures { result ≡ clock_of self.now.state.database }
    {
        self.state.database.clock()
    }

    /// Carries out a command of the user of a desk that was read and asks nothing of the shelf, and appends the lines of its
    /// reply to `out` without the `ok` that ends them, for which there is room in `out` then. `Refused` carries the first
    /// refusal that holds; it and want of memory change nothing. Where the database changes, the others are to follow next.
    pub fn carry_out<L: Ledger, M: Ledger>(
        &mut self,
        desk: &mut Desk,
        command: &Command,
        reads: &mut Steps<L>,
        probes: &mut Steps<M>,
        out: &mut Vec<u8>,
    ) -> Result<Next, AllocError>
        requires right { IsRightOver self.old desk.old }
        requires legible { IsLegible (command_view command.now) }
        requires plain { asks_shelf (command_view command.now) ≡ false }
        ensures right { IsRightOver self.new desk.new }
        ensures carried { Carried (command_view command.now)
            (moment (held_at desk.old) out.old.items reads.old probes.old)
            (moment (held_at desk.new) out.new.items reads.new probes.new) result }
        ensures others { IfOk result (λ next. LeavesOthers next (command_view command.now) self.old self.new) }
        ensures room { IfOk result (λ next. HasRoomFor next out.new) }
    {
        desk.change_places(&mut self.state);
        let carried = self.carry_out_here(command, reads, probes, out);
        desk.change_places(&mut self.state);
        carried
    }

    /// The same for whoever's desk is at the database.
    fn carry_out_here<L: Ledger, M: Ledger>(
        &mut self,
        command: &Command,
        reads: &mut Steps<L>,
        probes: &mut Steps<M>,
        out: &mut Vec<u8>,
    ) -> Result<Next, AllocError>
        requires state { IsState self.old.state.journal self.old.state }
        requires indexed { IsIndexed self.old.state }
        requires command { IsToCarryOut (command_view command.now) }
        ensures state { IsState self.new.state.journal self.new.state }
        ensures indexed { IsIndexed self.new.state }
        ensures carried { Carried (command_view command.now)
            (moment (holds self.old.state) out.old.items reads.old probes.old)
            (moment (holds self.new.state) out.new.items reads.new probes.new) result }
        ensures leaves { IfOk result (λ next. LeavesDatabase (changes_data next (command_view command.now)) (command_view command.now) self.old self.new) }
        ensures room { IfOk result (λ next. HasRoomFor next out.new) }
    {
        if is_on_data(command) {
            self.change(command, reads, probes, out)
        } else {
            carry_out(self.alloc, &mut self.state, command, reads, probes, out)
        }
    }

    /// The same of a command that changes the database.
    fn change<L: Ledger, M: Ledger>(
        &mut self,
        command: &Command,
        reads: &mut Steps<L>,
        probes: &mut Steps<M>,
        out: &mut Vec<u8>,
    ) -> Result<Next, AllocError>
        requires state { IsState self.old.state.journal self.old.state }
        requires indexed { IsIndexed self.old.state }
        requires legible { IsLegible (command_view command.now) }
        requires data { IsOnData (command_view command.now) }
        ensures state { IsState self.new.state.journal self.new.state }
        ensures indexed { IsIndexed self.new.state }
        ensures carried { Carried (command_view command.now)
            (moment (holds self.old.state) out.old.items reads.old probes.old)
            (moment (holds self.new.state) out.new.items reads.new probes.new) result }
        ensures leaves { IfOk result (λ next. LeavesDatabase (changes_data next (command_view command.now)) (command_view command.now) self.old self.new) }
        ensures room { IfOk result (λ next. HasRoomFor next out.new) }
    {
        let before = out.len();
        match make_change(self.alloc, &mut self.state, command, reads, probes, out) {
            Ok(changed) => {
                self.changed = Some(changed);
                Ok(Next::Accepted)
            }
            Err(CommandFault::Refused(refusal)) => {
                out.truncate(before);
                Ok(Next::Refused(refusal))
            }
            Err(CommandFault::NoMemory) => {
                out.truncate(before);
                Err(AllocError)
            }
        }
    }

    /// Carries out for the user of a desk what another user's command has changed of the database, and
    /// appends the lines of what that changes for this user's queries to `out`. After an error the desk isn't right any more.
    pub fn follow<L: Ledger, M: Ledger>(
        &mut self,
        desk: &mut Desk,
        printed: &Printed,
        reads: &mut Steps<L>,
        probes: &mut Steps<M>,
        out: &mut Vec<u8>,
    ) -> Result<(), AllocError>
        requires behind { Awaits (command_view printed.now.command.now) self.old desk.old }
        requires data { is_on_data (command_view printed.now.command.now) ≡ true }
        requires legible { IsLegible (command_view printed.now.command.now) }
        requires line { IsPrinted printed.now }
        requires accepted { fault_of (held_at desk.old) (command_view printed.now.command.now) ≡ None }
        ensures right { OnOk result (IsRightOver self.new desk.new) }
        ensures accepted { OnOk result (IsAccepted (command_view printed.now.command.now) (held_at desk.old) (held_at desk.new) out.old.items out.new.items) }
        ensures others { IsSameFor self.old self.new }
        ensures spends { Spends (command_view printed.now.command.now)
            (moment (held_at desk.old) out.old.items reads.old probes.old)
            (moment (held_at desk.new) out.new.items reads.new probes.new) }
        ensures room { OnOk result (HasRoomForOk out.new) }
    {
        let Some(changed) = &self.changed else {
            unreachable!()
        };
        desk.change_places(&mut self.state);
        let accepted = accept(&mut self.state, printed, changed, reads, probes, out);
        desk.change_places(&mut self.state);
        match accepted {
            Ok(()) => Ok(()),
            Err(fault) => Err(want_of_memory(fault)),
        }
    }
}

/// The fault of a command that nothing refuses.
fn want_of_memory(fault: CommandFault) -> AllocError
    requires { fault ≡ NoMemory }
{
    match fault {
        CommandFault::NoMemory => AllocError,
        CommandFault::Refused(_) => unreachable!(),
    }
}

/// Whether a command changes the objects, the regions or the clock.
fn is_on_data(command: &Command) -> bool
    ensures { result ≡ is_on_data (command_view command.now) }
{
    match command {
        Command::Class { .. } | Command::Region { .. } | Command::Insert { .. } => true,
        Command::Update { .. } | Command::Remove { .. } | Command::Tick { .. } => true,
        _ => false,
    }
}
