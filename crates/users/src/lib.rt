//! Who sends a line, with which word it begins, and lines that are told one user of several.
#![tactic(auto)]

mod examples;
mod sender;
mod tag;
mod word;

pub use examples::{lines_are_tagged, senders_are_told};
pub use sender::{USER_LIMIT, limits_in_numbers, sent_in};
pub use tag::push_tagged;
pub use word::first_word;
