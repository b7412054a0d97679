//! Queries worked out by hand, as calls that do nothing.
ghost use Rattle.ftl_typer.specs.Example.{IsResolvedByHand, KnowsKinds, KnowsNames, KnowsRanges, KnowsTakenNames};

/// Names that aren't known, and where.
#[tactic(auto, unfolding(crate::specs::First::found_after))]
pub fn unknown_names_are_found()
    ensures { KnowsNames }
{}

/// Names that are taken, and where.
#[tactic(auto, unfolding(crate::specs::First::found_after))]
pub fn taken_names_are_found()
    ensures { KnowsTakenNames }
{}

/// What is of a wrong kind, and where.
#[tactic(auto, unfolding(crate::specs::First::found_after))]
pub fn wrong_kinds_are_found()
    ensures { KnowsKinds }
{}

/// Bounds at 10^18 and past it.
#[tactic(auto, unfolding(crate::specs::First::found_after))]
pub fn large_bounds_are_found()
    ensures { KnowsRanges }
{}

/// A query with numbers for its names.
#[tactic(auto, unfolding(crate::specs::First::found_after))]
pub fn a_query_is_resolved_by_hand()
    ensures { IsResolvedByHand }
{}
