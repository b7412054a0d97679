//! The tokens of a line: names, reserved words, numbers, texts and symbols.
#![tactic(auto)]

mod buffer;
mod fault;
mod kinds;
mod laws;
mod quotes;
mod scan;
mod walk;
mod whole;

pub use buffer::{LEXER_LIMIT, Tokens};
pub use fault::LexFault;
pub use kinds::{Kind, Token};
pub use laws::{
    cut_gives_the_tokens, limits_in_numbers, tokens_are_tokens, written_tokens_are_read_back,
};
pub use quotes::unquoted;
pub use walk::bad_token;
pub use whole::tokens;
