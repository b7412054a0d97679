//! The fixed tables of the language: what each comparison means by a sign, and the texts that have a
//! code (the reserved words, the symbols and the names of the refusals). No call takes memory.
#![tactic(auto)]

mod compare;
mod fixed;
pub mod key;
mod keywords;
mod laws;
mod rows;
pub mod symbol;

pub use compare::{Op, Signs, comparisons};
pub use fixed::{refusals, symbols, words};
pub use keywords::reserved_code;
pub use laws::limits_in_numbers;
pub use rows::{ROW_WORD_LIMIT, Table};
