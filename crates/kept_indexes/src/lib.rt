//! The indexes of a session, beside its database: they are made, asked for what has a value between two bounds, and told
//! which objects were written.
//!
//! Each is right for the database: the strips that it keeps of an object are those of the object's last state, unless the
//! object was written since.
#![tactic(auto)]

mod asking;
mod column;
mod indexes;
mod judging;

pub use asking::Range;
pub use indexes::Indexes;
