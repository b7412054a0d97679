//! The exact ticks at which two motions along lines are within a distance of each other, or their distance
//! compares with a constant, and at which up to four motions fit a circle. Everything is whole numbers and
//! fractions of them: no answer is rounded or rooted. The ticks at which a squared distance is at most a limit are
//! one span round the least distance, and so are the ticks at which motions fit a circle, since the least circle
//! round them first shrinks and then grows. The ends of such a span are found by probes and bisections, so no
//! window is walked. A guess by floating point says only where to probe a distance first. Two motions that are too far
//! apart on one axis, on one side of each other, at both ends of a window are so throughout, and take no probe.
#![tactic(auto)]

mod circle;
mod comparison;
mod far;
mod fraction;
mod laws;
mod near;
mod search;
mod sphere;
mod trial;

pub use circle::fits;
pub use comparison::{Triple, compare, compare_motions};
pub use laws::{
    limits_in_numbers, motions_fit_at_the_ticks_between, three_fit_where_a_circle_holds_them,
};
pub use near::{SHORT_WINDOW, within};
pub use sphere::{sphere_ticks, together};
