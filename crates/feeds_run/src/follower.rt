//! A replica as a line machine.
ghost use Rattle.std.specs.Prelude.{◌≡◌};

use line_loop::Handler;
use outside::OutFail;
use replica::Replica;

/// A replica that hears a line at a time, until one hasn't its form.
#[derive(Drop)]
pub(crate) struct Follower {
    replica: Replica,
}

impl Follower {
    /// A replica that goes on to hear lines.
    pub(crate) fn new(replica: Replica) -> Follower
        ensures { result.replica ≡ replica }
    {
        Follower { replica }
    }

    /// The replica after the lines that it heard.
    pub(crate) fn into_replica(self) -> Replica
        ensures { result ≡ self.replica }
    {
        self.replica
    }
}

// The unit is no context: lines that are heard ask nothing of the outside.
impl Handler<()> for Follower {
    ghost use Rattle.std.specs.Prelude.{None, Some};
    ghost use Rattle.replica.specs.Feed.{Hearing};
    ghost use Rattle.feeds_run.specs.Following.{following_cost, following_leaves, following_machine};

    ghost State = { Hearing };

    ghost machine = { following_machine };

    ghost state = { λ follower _. Some follower.replica };

    ghost faults = { λ _. 0 };

    ghost leaves = { following_leaves };

    ghost spent = { λ _. 0 };

    ghost cost = { following_cost };

    ghost LONGEST = { None };

    const LONGEST: Option<u32> = None;

    fn is_done(&self) -> bool {
        self.replica.is_done()
    }

    fn asks(&self, _line: &[u8]) -> bool {
        false
    }

    fn answer(
        &mut self,
        line: &[u8],
        _context: &mut (),
        _out: &mut Vec<u8>,
    ) -> Result<(), OutFail> {
        self.replica.hear(line)?;
        Ok(())
    }

    fn long_lines_step_alike() {}
}
