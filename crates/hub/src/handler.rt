//! The hub as a line machine.
ghost use Rattle.std.specs.Prelude.{◌≡◌, Some};

use crate::hub::{Hub, Serving};
use line_loop::Handler;
use outside::OutFail;
use std::alloc::AllocError;
use std::sync::ledger::Ledger;
use steps::Steps;

/// No context: the users' lines ask nothing of the outside.
#[derive(Clone, Copy, Debug)]
pub struct NoContext;

/// A hub that answers a line at a time, and counts. Want of memory spends the hub.
#[derive(Drop)]
pub struct Users<L: Ledger, M: Ledger> {
    hub: Serving,
    reads: Steps<L>,
    probes: Steps<M>,
}

impl<L: Ledger, M: Ledger> Users<L, M> {
    /// The users of a hub.
    pub fn new(hub: Hub, reads: Steps<L>, probes: Steps<M>) -> Users<L, M>
        ensures hub { result.hub ≡ Some hub }
        ensures reads { result.reads ≡ reads }
        ensures probes { result.probes ≡ probes }
    {
        Users {
            hub: Serving::of(hub),
            reads,
            probes,
        }
    }
}

impl<L: Ledger, M: Ledger> Handler<NoContext> for Users<L, M> {
    ghost use Rattle.std.specs.Prelude.{None};
    ghost use Rattle.feeds_meaning.specs.Hub.{Hub, machine};
    ghost use Rattle.hub.specs.Machine.{cost, leaves};

    ghost State = { Hub };

    ghost machine = { machine };

    ghost state = { λ users _. users.hub };

    ghost faults = { λ _. 0 };

    ghost leaves = { leaves };

    ghost spent = { λ _. 0 };

    ghost cost = { cost };

    ghost LONGEST = { None };

    const LONGEST: Option<u32> = None;

    fn is_done(&self) -> bool {
        false
    }

    fn asks(&self, _line: &[u8]) -> bool {
        false
    }

    fn answer(
        &mut self,
        line: &[u8],
        _context: &mut NoContext,
        out: &mut Vec<u8>,
    ) -> Result<(), OutFail> {
        match self
            .hub
            .answer(line, out, &mut self.reads, &mut self.probes)
        {
            Ok(()) => Ok(()),
            Err(AllocError) => Err(OutFail::NoMemory),
        }
    }

    fn long_lines_step_alike() {}
}
