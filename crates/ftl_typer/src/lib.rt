//! The binder: a query by name is turned into one by number, or its first fault is told.
//!
//! A first pass notes the least place of each kind of fault, without memory. Where there is none, a second
//! pass builds the tree by number.
#![tactic(auto)]

mod atoms;
mod building;
mod examples;
mod fault;
mod formulas;
mod found;
mod heads;
mod laws;
mod resolving;
mod scope;
mod terms;
mod units;
mod values;

pub use examples::{
    a_query_is_resolved_by_hand, large_bounds_are_found, taken_names_are_found,
    unknown_names_are_found, wrong_kinds_are_found,
};
pub use fault::TypeFault;
pub use laws::{queries_without_fault_are_right, resolved_queries_stay, the_first_fault_is_told};
pub use resolving::resolve;
