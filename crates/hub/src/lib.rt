//! Several users who share one world: a line of input is a user and a line of DOMINO, and what is written of it is for
//! the users whom it concerns.
//!
//! A hub is seen as its users, each with what is held of this user's lines, and the data commands that were accepted.
#![tactic(auto)]

mod answer;
mod handler;
mod hub;
mod judging;
mod kinds;
mod newcomer;
mod notice;
mod parts;
mod seat;

pub use handler::{NoContext, Users};
pub use hub::Hub;
