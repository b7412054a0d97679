//! The registered queries over a database: each is judged and registered, its answer and what changes for it is
//! written, and it is prepared what a write makes of it. What they are is told by `live_queries` and `line_meaning`.
#![tactic(auto)]

mod judging;
mod registering;
mod telling;

pub use judging::judge;
pub use registering::{Request, register};
pub use telling::{pass, push_queries, renew, show};
