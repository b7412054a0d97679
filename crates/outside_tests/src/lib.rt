//! Tests of the outside, by the public calls of its crates: sources, sinks and shelves, and the loop that reads lines
//! from them and writes replies.
#![tactic(auto)]

#[cfg(test)]
mod lines;
#[cfg(test)]
mod streams;
