//! What is asked for.
use motion::Timeline;

/// The `k` objects nearest to the object of the timeline `target`.
#[derive(Clone, Copy)]
pub struct Aim<'a> {
    pub target: &'a Timeline,
    pub k: u32,
}
