//! What surely holds and what possibly does where each position of an object may be off by an error.
//!
//! No window is walked. The squares of the least and of the greatest distance of two objects that move along lines are
//! convex, so the ticks at which one is at most a limit are one stretch; and an object that moves along a line is in a
//! region by a margin for one stretch.
#![tactic(auto)]

mod answering;
mod asking;
mod bounds;
mod distances;
mod insides;
mod objects;
mod parts;
mod question;
mod runs;
mod world;

pub use answering::blurred_answer;
pub use asking::blurred;
pub use objects::BlurredWorld;
pub use question::Blur;
