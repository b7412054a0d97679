//! Tests of asking, by those public calls of its crates that no program makes or whose answers no reply shows: when an
//! object of a store is present, the runs of a term's values, the answer of rows over all variables, what is near while
//! objects come and go, what holds surely and possibly of them, the pieces of a timeline, the clock of a session.
#![tactic(auto)]

#[cfg(test)]
mod asked;
#[cfg(test)]
mod counted;
#[cfg(test)]
mod near;
#[cfg(test)]
mod owned;
#[cfg(test)]
mod passing;
#[cfg(test)]
mod ranges;
#[cfg(test)]
mod rows;
#[cfg(test)]
mod sessions;
#[cfg(test)]
mod surely;
#[cfg(test)]
mod timelines;
#[cfg(test)]
mod written;
