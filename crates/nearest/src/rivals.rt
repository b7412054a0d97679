//! The objects among which one may be near.
use crate::course::Course;

/// The objects among which one may be near. Within the square `sure`, if there is one, fewer of them may come than are
/// asked for.
#[derive(Clone, Copy)]
pub struct Rivals<'a> {
    pub courses: &'a [Course<'a>],
    pub sure: Option<u128>,
}
