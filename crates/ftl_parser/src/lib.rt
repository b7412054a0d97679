//! Queries: their trees, and the grammar by which tokens spell them.
#![tactic(auto)]

mod body;
mod factor;
mod fault;
mod formula_sizes;
mod frame;
mod head;
mod judge;
mod laws;
mod lists;
mod measured;
mod number;
mod phase;
mod piece;
mod prefix;
mod printing;
mod reading;
mod scan;
mod state;
mod text_laws;
mod tree;

pub use fault::{ParseFault, Size};
pub use formula_shape::{
    DEPTH_LIMIT, FACTOR_LIMIT, NESTING_LIMIT, NODE_LIMIT, OBJECT_LIMIT, TIMES_LIMIT,
};
pub use formula_sizes::{has_circle, has_not, most_names, nesting};
pub use laws::{
    an_unended_query_stops_at_its_end, names_and_terms_stand_in_order,
    numbers_out_of_range_are_found, sizes_are_judged_in_order, small_queries_are_parsed,
    tokens_spell_at_most_one_query, unfit_numbers_are_those_of_the_tokens,
};
pub use lists::{Factors, FromParts, Names};
pub use number::{is_short, read_radius, whole, word, zero};
pub use printing::{print, print_onto, push_number};
pub use reading::parse;
pub use scan::has_long;
pub use text_laws::{
    printed_queries_are_read_back, printed_queries_are_short, read_queries_are_printable,
    tokens_are_read_as_one_query,
};
pub use tree::{Atom, Formula, FromPart, Query, Signed, Term, Unit};
