//! Tests of the language, by the public calls of its crates, of what no reply of the program shows: tokens, the texts of
//! queries and of commands, the lines of sessions, those of workloads, and feeds that a replica follows.
#![tactic(auto)]

#[cfg(test)]
mod commands;
#[cfg(test)]
mod lexing;
#[cfg(test)]
mod printing;
#[cfg(test)]
mod replicas;
#[cfg(test)]
mod session_texts;
#[cfg(test)]
mod workloads;
