//! Tests of several users by the public calls of the hub.
#![tactic(auto)]

#[cfg(test)]
mod shared_world;
