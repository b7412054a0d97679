//! Tests of a run, by the public calls of its crate: small inputs by the words, the limit and what fails, an import and an
//! export where each call of the outside fails in turn, questions over many objects, and how many names there may be.
#![tactic(auto)]

#[cfg(test)]
mod failing;
#[cfg(test)]
mod large;
#[cfg(test)]
mod limits;
#[cfg(test)]
mod runs;
