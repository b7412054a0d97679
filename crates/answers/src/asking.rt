//! The answer to a query.

ghost use Rattle.std.specs.Prelude.{◌≡◌, ◌+◌, ◌-◌, ◌&&◌, ℕ, Bool, true, length, map, IfOk};
ghost use Rattle.std.specs.List.{list_all};
ghost use Rattle.tick_set.specs.Runs.{spans_have};
ghost use Rattle.tick_set.specs.Ticks.{between, within};
ghost use Rattle.tick_set.specs.Windows.{IsQueryWindow};
ghost use Rattle.history.specs.Catalog.{ids_of};
ghost use Rattle.history.specs.World.{World};
ghost use Rattle.formula.specs.Resolved.{IsResolved, are_distinct};
ghost use Rattle.formula.specs.Tree.{resolved_view};
ghost use Rattle.meaning.specs.Answer.{answer, answer_where};
ghost use Rattle.meaning.specs.Fits.{FitsItsClasses};
ghost use Rattle.meaning.specs.Reads.{query_reads, sizes_of};
ghost use Rattle.object_store.specs.Contents.{catalog_of};
ghost use Rattle.relation.specs.Frames.{IsIn, SameFrame, frame};
ghost use Rattle.relation.specs.Key.{has_id};
ghost use Rattle.relation.specs.Projection.{IsPicked};
ghost use Rattle.relation.specs.Rows.{table_has};
ghost use Rattle.atoms.specs.Asked.{world_in};
ghost use Rattle.answers.specs.Objects.{IsOfAcceptedWrites};
ghost use Rattle.steps.specs.Counting.{StepsAtMost};

use crate::evaluating::{domains_of, evaluate};
use crate::told::Answer;
use formula::RQuery;
use interval_set::IntervalSet;
use object_store::Store;
use polygon::Regions;
use relation::Relation;
use std::alloc::{AllocError, Global};
use std::sync::ledger::Ledger;
use steps::Steps;
use tick_set::Window;

/// The answer to a query over the objects of its classes, by the ticks of the window. It fails only where
/// memory is out.
///
/// The query is right by number and fits the classes and the regions, and the window has at most
/// 100,000,000 ticks after its first. `reads` counts the looks at timelines.
pub fn ask<L: Ledger, M: Ledger>(
    alloc: Global,
    q: &RQuery,
    store: &Store,
    regions: &Regions,
    w: Window,
    reads: &mut Steps<L>,
    probes: &mut Steps<M>,
) -> Result<Answer, AllocError>
    requires accepted { IsOfAcceptedWrites store.now }
    requires resolved { IsResolved (resolved_view q.now) }
    requires fits { FitsItsClasses (world_in store.now regions.now) (resolved_view q.now) }
    requires length { IsQueryWindow w }
    ensures rows { IfOk result (λ a. a ≡ answer (world_in store.now regions.now) (resolved_view q.now) w.lo w.hi) }
    ensures reads { StepsAtMost reads.old reads.new
        (query_reads (sizes_of (catalog_of store.now) (resolved_view q.now)) (w.hi + 1 - w.lo) (resolved_view q.now)) }
{
    let domains = domains_of(alloc, q, store)?;
    let full = evaluate(alloc, q, &domains, store, regions, w, reads, probes)?;
    let answer = answer_over(alloc, full, q, w)?;
    Ok(answer)
}

/// The answer of rows over all variables of a query: those of its targets, with the ticks at which a test holds of
/// some assignment of objects to the other variables. There is a row for each choice of objects for the targets
/// that has such a tick, in the order of first insertion, target by target. It fails only where memory is out.
///
/// The query is right by number; only its targets and classes count. `full` is over its variables in their order,
/// and has for each assignment of objects of their classes the ticks of the window `w` at which the test holds, as
/// [`evaluate`] makes it for the test of the query itself.
pub fn answer_over<'d>(
    alloc: Global,
    full: Relation<'d, IntervalSet>,
    q: &RQuery,
    w: Window,
) -> Result<Answer, AllocError>
    requires resolved { IsResolved (resolved_view q.now) }
    requires vars { full.vars ≡ between 0 (length q.now.classes) }
    ensures rows { IfOk result (λ a. (u : World) (holds : (ℕ → ℕ) → ℕ → Bool)
        → full.entry.domains ≡ map (ids_of u.history.catalog) (resolved_view q.now).classes
        → ((b : ℕ → ℕ) → IsIn full.entry.domains b → (t : ℕ) → table_has spans_have full.entry b t
        ≡ (within w.lo w.hi t && holds b t))
        → a ≡ answer_where u (resolved_view q.now) holds w.lo w.hi) }
{
    full.rows_stand_in_order();
    let rows = over_targets(alloc, full, q.targets.items())?;
    rows.rows_stand_in_order();
    Ok(Answer {
        rows: rows.into_rows(),
    })
}

// The rows over the targets. Those over all variables in their order stay as they are.
fn over_targets<'d>(
    alloc: Global,
    full: Relation<'d, IntervalSet>,
    targets: &[u8],
) -> Result<Relation<'d, IntervalSet>, AllocError>
    requires among { list_all (has_id full.vars) targets.now ≡ true }
    requires distinct { are_distinct targets.now ≡ true }
    ensures all { IfOk result (λ r. (b : ℕ → ℕ) (t : ℕ) → table_has spans_have full.entry b t ≡ true
        → table_has spans_have r b t ≡ true) }
    ensures some { IfOk result (λ r. (b : ℕ → ℕ) (t : ℕ) → table_has spans_have r b t ≡ true
        → IsPicked spans_have full.entry targets.now b t) }
    ensures vars { IfOk result (λ r. r.vars ≡ targets.now) }
    ensures frame { IfOk result (λ r. SameFrame r full.entry) }
{
    if full.vars() == targets {
        return Ok(full);
    }
    let rows = full.project(alloc, targets)?;
    Ok(rows)
}
