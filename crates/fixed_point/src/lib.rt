//! Numbers, points, words and lists: the values of which everything else is made.
//!
//! A number is a whole count of thousandths, so that `0.5` is 500, and no number is ever rounded. Of the
//! calls of this crate `Items::push` alone takes memory.
#![tactic(auto)]

mod items;
mod laws;
mod number;
mod number_text;
mod reading;
mod short_text;
mod variants;

pub use items::Items;
pub use laws::{limits_in_numbers, reads_each_decimal, reads_what_is_printed};
pub use number::{FIX_LIMIT, Fix, Point, READ_LIMIT, SLOPE_LIMIT, Slope};
pub use number_text::{FIX_TEXT_LIMIT, FixText};
pub use reading::{DECIMALS_LIMIT, WHOLE_DIGITS_LIMIT};
pub use short_text::{WORD_LIMIT, Word};
pub use variants::{BoundForm, SubName, UntilForm};
