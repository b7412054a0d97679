//! The memory of the database: classes, the names of objects, and the timeline of each object.
//!
//! A store is seen as its contents, which tell a world as a list of writes does. Each accepted write
//! keeps it standing for the writes so far, and can be taken back without memory. A refused one
//! changes nothing.
#![tactic(auto)]

mod along;
mod areas;
mod candidates;
mod cells;
mod class;
mod fault;
mod horizon;
mod judge;
mod laws;
mod members;
mod names;
mod near;
mod objects;
mod placing;
mod run;
mod schema;
mod standing;
mod store;
mod tables;

pub use areas::{Area, Sides};
pub use class::{AttrDef, Class};
pub use fault::StoreFault;
pub use laws::limits_in_numbers;
pub use objects::{Done, ObjectId, Undo};
pub use schema::{CLASS_LIMIT, ClassId, Schema};
pub use store::Store;
