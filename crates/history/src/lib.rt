//! Definitions alone: what a list of writes tells of classes, objects and their states. Each layer that
//! keeps or asks a history speaks of these. The calls have no body: their contracts work out small
//! histories, and say what is true of all.
#![tactic(auto)]

mod laws;

pub use laws::{
    a_car_stands_and_then_moves, a_name_never_inserted_is_absent,
    a_tank_is_filled_removed_and_inserted_again, a_van_is_shifted_on_its_way,
    later_writes_leave_the_past, names_differ,
};
