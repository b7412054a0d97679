//! Tests of values, by the public calls of their crates: numbers and words, tables of words, convex functions, boxes of
//! places, sets of ticks with the operators on them, and those calls on formulas, relations and kept rows that no program
//! makes.
#![tactic(auto)]

#[cfg(test)]
mod counters;
#[cfg(test)]
mod formulas;
#[cfg(test)]
mod numbers;
#[cfg(test)]
mod operators;
#[cfg(test)]
mod patches;
#[cfg(test)]
mod relations;
#[cfg(test)]
mod rows;
#[cfg(test)]
mod sets;
#[cfg(test)]
mod tables;
#[cfg(test)]
mod valleys;
