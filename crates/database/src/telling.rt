//! The commands that change nothing.
ghost use Rattle.std.specs.Prelude.{◌≡◌, false};
ghost use Rattle.command_text.specs.Tree.{command_view};
ghost use Rattle.line_meaning.specs.Looks.{is_query, looks_asked};
ghost use Rattle.database.specs.Keeping.{IsTimely, TellsAcceptedWrites, world_of_database};
ghost use Rattle.database.specs.Telling.{IsToTell, RefusesFreely, TakesAtMost, Tells, tally};

use crate::asking::{Asked, ask};
use crate::blurred::{Doubted, tell_blurred};
use crate::database::Database;
use crate::listing::push_listing;
use crate::near::{Sought, tell_nearest};
use command_text::{Command, CommandFault};
use std::alloc::Global;
use std::sync::ledger::Ledger;
use steps::Steps;

impl Database {
    /// Answers a command that changes nothing, but for what is told of registered queries and the `ok`: its lines are
    /// added to `out`, or it is refused. Want of memory is told only where no refusal holds. After an error `out`
    /// still begins with its old contents. A query takes at most as many steps of `reads` as its bound by the numbers of
    /// objects and of ticks, also of a `must` or a `may`, a `nearest` one for its object and one for each of its class, and
    /// every other command takes none. Nothing that is refused takes a step.
    pub fn tell<L: Ledger, M: Ledger>(
        &self,
        alloc: Global,
        command: &Command,
        reads: &mut Steps<L>,
        probes: &mut Steps<M>,
        out: &mut Vec<u8>,
    ) -> Result<(), CommandFault>
        requires command { IsToTell (command_view command.now) }
        requires timely { IsTimely self.now }
        requires accepted { TellsAcceptedWrites self.now }
        ensures told { Tells self.now (command_view command.now) out.old.items out.new.items result }
        ensures takes { TakesAtMost (looks_asked (world_of_database self.now) (command_view command.now))
            (tally out.old.items reads.old probes.old) (tally out.new.items reads.new probes.new) }
        ensures free { RefusesFreely (tally out.old.items reads.old probes.old) (tally out.new.items reads.new probes.new) result }
        ensures plain { is_query (command_view command.now) ≡ false → probes.new ≡ probes.old }
    {
        match command {
            Command::List => {
                push_listing(self, out)?;
                Ok(())
            }
            Command::Ask { span, query } => {
                let asked = Asked { span: *span, query };
                ask(alloc, self, &asked, reads, probes, out)
            }
            Command::Nearest {
                span,
                k,
                object,
                class,
            } => {
                let sought = Sought {
                    span: *span,
                    k: *k,
                    object,
                    class,
                };
                tell_nearest(alloc, self, &sought, reads, probes, out)
            }
            Command::Must { error, span, query } => {
                let asked = Doubted {
                    sure: true,
                    error: *error,
                    span: *span,
                    query,
                };
                tell_blurred(alloc, self, &asked, reads, probes, out)
            }
            Command::May { error, span, query } => {
                let asked = Doubted {
                    sure: false,
                    error: *error,
                    span: *span,
                    query,
                };
                tell_blurred(alloc, self, &asked, reads, probes, out)
            }
            _ => unreachable!(),
        }
    }
}
