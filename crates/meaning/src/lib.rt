//! Definitions alone: what a query means, tick by tick, of a history and the regions, and so of a journal
//! and of a store alike. `specs/` has traces, terms, atoms, satisfaction, bindings, answers, registered
//! queries, read bounds and what formulas need. The calls below have no body: the contract of each is a law, or what the
//! definitions give for a small history.
#![tactic(auto)]

mod examples;
mod laws;

pub use examples::{
    a_doubled_speed_is_seen_late, a_removed_car_keeps_its_past, atoms_are_needed,
    places_are_worked_out, queries_fit_their_classes, reaches_are_worked_out, reads_are_counted,
    registered_queries_change, ticks_are_worked_out, values_are_worked_out,
};
pub use laws::{
    a_formula_sees_its_variables_alone, a_later_answer_is_what_is_left,
    absent_objects_satisfy_no_query, accepted_writes_lead_to_reachable_states,
    atoms_of_absent_objects_are_false, atoms_that_hold_more_make_it_hold_more,
    expired_queries_stay, fewer_objects_take_fewer_looks, formulas_need_their_atoms,
    formulas_see_so_far_ahead_alone, interpretations_that_agree_give_the_same_truth,
    one_object_is_at_distance_0, other_objects_stay, queries_go_on_fitting_their_classes,
    terms_have_values_of_their_kinds, the_answer_is_the_union_of_the_full_rows,
    the_past_changes_as_far_back_as_the_reach, the_past_changes_by_what_comes_after,
    values_are_within_their_bounds,
};
