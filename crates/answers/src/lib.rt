//! Answers to queries: the layer between what a formula says and what a store and the regions tell.
//!
//! A query by number is evaluated over the objects of its classes, binding by binding, and its rows are those
//! of its targets, in the order in which their objects were first inserted. Nothing is asked of a window tick
//! by tick.
#![tactic(auto)]

mod asking;
mod evaluating;
mod laws;
mod told;

pub use asking::{answer_over, ask};
pub use atoms::StoredWorld;
pub use evaluating::{domains_of, evaluate, evaluate_alone, widened};
pub use laws::fitting_queries_can_be_asked;
pub use told::{Answer, spans_of};
