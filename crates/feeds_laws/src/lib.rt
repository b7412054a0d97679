//! Laws of what several users hear: a replica of a query, whose input is what one user hears, holds the query's answer. The
//! definitions stand in `specs/`, and nothing here runs.
#![tactic(auto)]

mod examples;
mod laws;

pub use examples::a_user_is_followed;
pub use laws::replicas_follow_answers;
