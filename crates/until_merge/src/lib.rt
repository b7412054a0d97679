//! The temporal operators on sets of ticks.
#![tactic(auto)]

mod by_span;
mod by_tick;
mod operators;
mod shapes;
mod until;

pub use operators::Temporal;
