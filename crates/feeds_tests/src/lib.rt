//! Tests of runs for several users and of replicas, by the public calls of their crate: worked rows in pieces of many sizes, the words,
//! the limit, feeds that are bad, and each call of the outside failing in turn.
#![tactic(auto)]

#[cfg(test)]
mod failing;
#[cfg(test)]
mod feeds;
