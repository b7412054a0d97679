//! Which attributes of an object are asked.

/// Attributes of an object, by their indexes counted from 0.
#[derive(Clone, Copy)]
pub enum Asked<'a> {
    /// Each attribute.
    All,
    /// Those of these indexes, also where the object has none there.
    These(&'a [u8]),
}
