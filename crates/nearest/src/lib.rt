//! The objects of a class that are among the k nearest to an object, and when.
//!
//! No window is walked. Where two objects move along lines, the difference of the squares of their distances from a third
//! is a parabola: so the ticks at which one stands before the other are one stretch, or all but one. Each object's
//! stretches are swept once, from the first tick to the last: it is near while fewer than k of them are under way.
//!
//! The window is cut into slices of time, each of which is halved for as long as many objects may be near in it. How long
//! the first slice is, a sample of the objects tells, and each of the next is twice as long as the one before. An object
//! is left out of a slice if it stays farther away there than k others ever are. Of two objects it is known at once which stands before
//! the other, where bounds of their squares tell. Where slices would cost more than all pairs of objects, the rest of the
//! window is one slice.
#![tactic(auto)]

mod aim;
mod band;
mod certain;
mod course;
mod found;
mod growing;
mod low;
mod nearer;
mod order;
mod outset;
mod pairs;
mod parabola;
mod parts;
mod placed;
mod rivals;
mod roots;
mod rows;
mod sight;
mod slice;
mod slices;
mod squares;
mod sweep;
mod thinning;
mod valley;

pub use rows::{NearRow, nearest_rows};
