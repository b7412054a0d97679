//! How much time an index covers.
ghost use Rattle.std.specs.Prelude.{◌≡◌, ◌*◌};

/// How many slices of time an index has.
pub const SLICES: u32 = 64;

/// How many ticks a slice has.
pub const SLICE_TICKS: u32 = 1_000;

/// The limits, in numbers.
pub fn limits_in_numbers()
    ensures slices { SLICES ≡ 64 }
    ensures ticks { SLICE_TICKS ≡ 1000 }
    ensures all { SLICES * SLICE_TICKS ≡ 64000 }
{}
