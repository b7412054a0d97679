//! Where objects can be: boxes of whole units over some ticks, which tell quickly which objects can come into an area.
//!
//! A patch is an upright box of the plane in whole units, so it takes 16 bytes. Boxes are the patches of all objects for
//! one horizon of ticks, with covers for 32 that were near each other, and tell exactly the numbers of those that meet an area. Places have
//! four horizons. What a patch promises of its object is the caller's: this crate knows no object.
#![tactic(auto)]

mod boxes;
mod horizons;
mod laws;
mod order;
mod patch;

pub use boxes::{BLOCK, Boxes};
pub use horizons::{HORIZONS, Patches, Places};
pub use laws::{limits_in_numbers, units_keep_the_order};
pub use patch::{Extent, Patch};
