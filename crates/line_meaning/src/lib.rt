//! What a line means: what a journal tells, which lines are refused, what is replied, and the step from the
//! state before a line to the state after it. The definitions stand in `specs/`, and nothing here reads or
//! changes a database.
#![tactic(auto)]

mod examples;
mod laws;
mod limits;
mod role;

pub use examples::{
    asks_are_answered, asks_are_refused, blurred_are_answered, blurred_are_refused,
    first_faults_refuse, indexes_are_answered, indexes_are_refused, nearest_are_answered,
    nearest_are_refused, registered_queries_are_answered, registered_queries_are_refused,
    rows_are_imported, texts_are_loaded, texts_are_saved,
};
pub use laws::{
    answers_lie_between, cut_sessions_are_bad, imported_rows_may_be_loaded,
    indexes_change_no_other_reply, long_lines_step_alike, refusals_come_in_order,
    saved_sessions_are_loaded, steps_write_what_is_accepted,
};
pub use limits::{
    ALL_BINDINGS_LIMIT, ASSIGNED_SPAN_LIMIT, BLURRED_BINDING_LIMIT, BLURRED_SPAN_LIMIT,
    CIRCLE_NAMES, CIRCLE_SPAN_LIMIT, INDEX_LIMIT, NEAREST_SPAN_LIMIT, limits_in_numbers,
};
pub use role::{Role, role_of};
