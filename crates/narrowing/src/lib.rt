//! Which objects a query can be true of: those that can be where its formula needs them.
//!
//! A formula needs an object in an area where it can hold at no tick of a window while the object stays outside. The
//! store tells the objects that can come into an area, and the others need not be asked. No timeline is looked at. Where
//! each position may be off by an error, the formula needs its objects in wider areas.
#![tactic(auto)]

mod atom_area;
mod domains;
mod holding;
mod lists;
mod nearby;
mod needed;
mod reaching;
mod scene;
mod terms;
mod whereabouts;

pub use domains::{narrowed, narrowed_within};
pub use holding::{can_hold, can_hold_alone};
pub use whereabouts::can_hold_at;
