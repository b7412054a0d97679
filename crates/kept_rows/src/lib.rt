//! Rows of a query that is kept: a set of ticks for each binding of objects to its variables, by the binding's
//! number.
#![tactic(auto)]

mod binding;
mod change;
mod filled;
mod flags;
mod held;
mod laws;
mod listing;
mod marks;
mod moving;
mod near;
mod numbers;
mod page;
mod passing;
mod renewal;
mod rows;
mod slots;
mod turning;
mod turns;

pub use binding::{BINDING_LIMIT, Targets, Variable};
pub use change::Changes;
pub use held::held_numbers;
pub use laws::{
    a_refresh_keeps_rows_exact, an_insert_adds_the_bindings_that_hold_it,
    bindings_are_below_the_size, limits_in_numbers, numbers_have_places, places_have_a_number,
    rows_alike_are_listed_alike, small_bindings_have_numbers, small_rows_change,
    the_order_is_that_of_bindings,
};
pub use listing::{Line, answer};
pub use moving::{Move, moves};
pub use near::Ends;
pub use numbers::{number, place, size, size_within};
pub use passing::{Passing, passed};
pub use renewal::{Judge, refresh};
pub use rows::KeptRows;
pub use slots::Slots;
pub use turning::Turning;
