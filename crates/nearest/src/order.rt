//! The difference of two separations, which is convex where it opens upwards.
ghost use Rattle.std.specs.Prelude.{◌≡◌, ◌*◌, ◌^◌, ◌≤◌, ℕ, ◌-ℤ◌, unsigned_abs};

use crate::parabola::parabola_at;
use crate::roots::Roots;
use crate::squares::Separation;
use convex::Convex;
use exact::minus;

/// One separation less another, whose quadratic part is no greater: a parabola that opens upwards, or a line.
#[derive(Clone, Copy)]
pub struct Difference {
    pub quadratic: u64,
    pub linear: i128,
    pub constant: i128,
    pub ghost quadratic_size: { quadratic ≤ 8 * 10 ^ 12 },
    pub ghost linear_size: { unsigned_abs linear ≤ 4 * 10 ^ 22 },
    pub ghost constant_size: { unsigned_abs constant ≤ 18 * 10 ^ 30 },
}

impl Difference {
    ghost use Rattle.nearest.specs.Order.{difference_after, separation_after};

    /// The first less the second, by the ticks since the first one of both.
    pub fn of(first: &Separation, second: &Separation) -> Difference
        requires { second.now.quadratic ≤ first.now.quadratic }
        ensures { (k : ℕ) → difference_after result k ≡ separation_after first.now k -ℤ separation_after second.now k }
    {
        Difference {
            quadratic: first.quadratic - second.quadratic,
            linear: minus(first.linear, second.linear),
            constant: minus(first.constant, second.constant),
        }
    }

    /// About where it is at a limit.
    #[inline]
    pub fn roots(&self, limit: i128) -> Roots
        requires { unsigned_abs limit ≤ 1 }
    {
        Roots::of(self.quadratic, self.linear, minus(self.constant, limit))
    }
}

impl Convex for Difference {
    ghost use Rattle.convex.specs.Parabola.{parabola};
    ghost use Rattle.convex.proofs.CallerLemmas.{parabola_bends};
    ghost use Rattle.tick_set.specs.declared.spans.TheConstants.{LAST_TICK};

    ghost value = { λ d. parabola d.quadratic d.linear d.constant };

    ghost reach = { λ _. LAST_TICK };

    fn at(&self, k: u32) -> i128 {
        parabola_at(self.quadratic, self.linear, self.constant, k)
    }

    ghost bends = { λ d. parabola_bends d.quadratic d.linear d.constant };
}
