//! The limits of spans, of indexes, of the bindings of a `must` or a `may`, and of all registered queries together.
ghost use Rattle.std.specs.Prelude.{◌≡◌, ◌*◌, ◌^◌};

/// The longest span of a query with an assignment, in ticks.
pub const ASSIGNED_SPAN_LIMIT: u32 = 10_000;

/// The least number of names of a circle that has a limit of its own.
pub const CIRCLE_NAMES: usize = 3;

/// The longest span of a query with a circle of [`CIRCLE_NAMES`] names or more, in ticks.
pub const CIRCLE_SPAN_LIMIT: u32 = 100_000;

/// The longest span of a `nearest`, in ticks.
pub const NEAREST_SPAN_LIMIT: u32 = 1_000_000;

/// The longest span of a `must` or a `may`, in ticks.
pub const BLURRED_SPAN_LIMIT: u32 = 10_000;

/// The most bindings that there may come to be of the query of a `must` or a `may`.
pub const BLURRED_BINDING_LIMIT: u32 = 10_000;

/// The most bindings that there may come to be of all registered queries together.
pub const ALL_BINDINGS_LIMIT: u32 = 4_000_000;

/// The most indexes of a session, those that have ended among them.
pub const INDEX_LIMIT: usize = 16;

/// The limits, in numbers.
pub fn limits_in_numbers()
    ensures assigned { ASSIGNED_SPAN_LIMIT ≡ 10 ^ 4 }
    ensures names { CIRCLE_NAMES ≡ 3 }
    ensures circle { CIRCLE_SPAN_LIMIT ≡ 10 ^ 5 }
    ensures nearest { NEAREST_SPAN_LIMIT ≡ 10 ^ 6 }
    ensures blurred { BLURRED_SPAN_LIMIT ≡ 10 ^ 4 }
    ensures blurred_bindings { BLURRED_BINDING_LIMIT ≡ 10 ^ 4 }
    ensures indexes { INDEX_LIMIT ≡ 16 }
    ensures bindings { ALL_BINDINGS_LIMIT ≡ 4 * 10 ^ 6 }
{}
