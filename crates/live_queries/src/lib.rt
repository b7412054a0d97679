//! Queries that stay: watched ones, whose answer is from now on, and kept ones, whose answer has the recorded past
//! as well. Their rows are kept by the numbers of bindings, and a write renews those alone that hold its object.
#![tactic(auto)]

mod columns;
mod evaluating;
mod fresh;
mod judging;
mod laws;
mod live;
mod lone;
mod numbering;
mod objects;
mod parts;
mod query;
mod sight;
mod told;
mod written;

pub use fresh::Fresh;
pub use laws::{
    a_row_changes_by_what_comes_after, a_write_keeps_queries_current, a_write_moves_no_binding,
    committed_writes_keep_queries_current, current_queries_tell_their_answers, other_rows_stay,
    prepared_changes_tell_what_a_write_changes, prepared_writes_renew_queries,
    queries_go_on_fitting_worlds, writes_to_no_object_keep_queries_current,
};
pub use live::Live;
pub use told::{AnswerRow, Move, QueryInfo};
