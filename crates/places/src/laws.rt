//! The laws of patches, as calls without a body.
ghost use Rattle.std.specs.Prelude.{◌≡◌, ℤ, ◌≤ℤ◌};
ghost use Rattle.places.specs.Patches.{unit};

use crate::boxes::BLOCK;

/// A cover is for 32 patches.
pub fn limits_in_numbers()
    ensures { BLOCK ≡ 32 }
{}

/// A greater number has no lesser unit, so where two boxes of thousandths meet, their patches do.
pub fn units_keep_the_order()
    ensures { (a b : ℤ) → a ≤ℤ b → unit a ≤ℤ unit b }
{}
