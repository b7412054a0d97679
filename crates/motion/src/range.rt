//! The least and the greatest value of a dynamic attribute over ticks.
ghost use Rattle.std.specs.Prelude.{◌≡◌, ◌≤◌, ◌<◌};
ghost use Rattle.tick_set.specs.Ticks.{IsTick};
ghost use Rattle.motion.specs.Dynamic.{turns_at};
ghost use Rattle.motion.specs.Pieces.{IsFirstOrEnd};
ghost use Rattle.motion.specs.Range.{IsRange};

use crate::vector::Vector;
use fixed_point::Fix;

impl Vector {
    /// The least and the greatest value over the ticks from `lo`, which isn't before the update, to `hi`, in
    /// thousandths. They are among the values at these two ticks and at those between at which a leg ends.
    pub fn range(&self, lo: u32, hi: u32) -> (Fix, Fix)
        requires after { self.now.updatetime ≤ lo }
        requires order { lo ≤ hi }
        requires tick { IsTick hi }
        ensures { IsRange self.now lo hi result.0 result.1 }
    {
        let first = self.at(lo);
        let mut least = first;
        let mut greatest = first;
        let mut at = lo;
        'legs: while at < hi {
            at = self.turn_before(at, hi);
            let value = self.at(at);
            least = least.lesser(value);
            greatest = greatest.greater(value);
        }
        (least, greatest)
    }

    /// The first tick past `at`, which isn't before the update, and before `end` at which a leg ends, else `end`.
    pub(crate) fn turn_before(&self, at: u32, end: u32) -> u32
        requires after { self.now.updatetime ≤ at }
        requires tick { IsTick at }
        requires order { at < end }
        ensures { IsFirstOrEnd (turns_at self.now) at end result }
    {
        self.next_end(at).map_or(end, |tick| tick.min(end))
    }
}
