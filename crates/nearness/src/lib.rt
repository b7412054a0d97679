//! Definitions alone: which objects of a class are among the k nearest to an object, tick by tick, of a history and
//! so of a store alike. The calls have no body: their contracts work out small histories, and say which objects may be
//! left out.
#![tactic(auto)]

mod examples;
mod laws;

pub use examples::{
    an_object_passes_by, objects_come_and_go, objects_stand_at_one_place, ranks_are_worked_out,
};
pub use laws::near_by_kept;
