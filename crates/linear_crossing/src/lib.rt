//! Exact first and last ticks for functions of the tick that are linear, and for the squared distance of two
//! linear motions. Everything is whole numbers: nothing is rounded, and no window is walked. One call alone,
//! `Quad::reach`, gives a guess by floating point, on which nothing exact stands.
#![tactic(auto)]

mod linear;
mod quad;

ghost use Rattle.std.specs.Prelude.{◌≡◌, ◌*◌, ◌^◌};

pub use linear::{Pair, RISE_LIMIT, START_LIMIT, solve};
pub use quad::{COORDINATE_LIMIT, Line, Quad};

/// The limits, in numbers.
pub fn limits_in_numbers()
    ensures coordinate { COORDINATE_LIMIT ≡ 1001 * 10 ^ 12 }
    ensures rise { RISE_LIMIT ≡ 8 * 10 ^ 24 }
    ensures start { START_LIMIT ≡ 12 * 10 ^ 36 }
{}
