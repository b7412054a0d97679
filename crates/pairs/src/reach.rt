//! How far coordinates reach.
ghost use Rattle.std.specs.Prelude.{◌≡◌, ℤ, ◌-ℤ◌, int_lt, IsTrue};
ghost use Rattle.atoms.specs.Routes.{IsPast};

use fixed_point::Fix;
use geometry::apart;

/// Two coordinates between which others are.
#[derive(Clone, Copy)]
pub struct Reach {
    pub least: Fix,
    pub greatest: Fix,
}

impl Reach {
    ghost use Rattle.pairs.specs.Reach.{IsReached};

    /// From one coordinate to another.
    pub(crate) fn between(a: Fix, b: Fix) -> Reach
        ensures first { IsReached result a }
        ensures second { IsReached result b }
    {
        if a.raw() <= b.raw() {
            return Reach {
                least: a,
                greatest: b,
            };
        }
        Reach {
            least: b,
            greatest: a,
        }
    }

    /// Whether each coordinate in the one is further than `c` from each in the other.
    #[inline]
    pub(crate) fn is_past(&self, other: &Reach, c: Fix) -> bool
        ensures { IsTrue result → (m n : ℤ) → IsReached self.now m → IsReached other.now n → IsPast c (n -ℤ m) }
    {
        if is_wider(apart(other.least, self.greatest), c) {
            return true;
        }
        is_wider(apart(self.least, other.greatest), c)
    }
}

#[inline]
fn is_wider(gap: i64, c: Fix) -> bool
    ensures { result ≡ int_lt c gap }
{
    c.raw() < gap
}
