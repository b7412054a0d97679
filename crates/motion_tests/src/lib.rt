//! Tests of motions, by the public calls of their crates: the ticks at which motions along lines cross, come near,
//! fit a circle and are inside a polygon, the range of a value, and the common parts of timelines. Tables of rows that
//! were worked out by hand.
#![tactic(auto)]

#[cfg(test)]
mod circles;
#[cfg(test)]
mod distances;
#[cfg(test)]
mod linear;
#[cfg(test)]
mod made;
#[cfg(test)]
mod polygons;
#[cfg(test)]
mod timelines;
