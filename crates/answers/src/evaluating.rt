//! Queries over a store and its regions.

ghost use Rattle.std.specs.Prelude.{◌≡◌, ◌+◌, ◌-◌, ◌&&◌, ◌∷◌, ℕ, [], true, false, length, map, IfOk};
ghost use Rattle.tick_set.specs.Runs.{spans_have};
ghost use Rattle.tick_set.specs.Ticks.{between, within};
ghost use Rattle.tick_set.specs.Windows.{IsQueryWindow};
ghost use Rattle.history.specs.Catalog.{ids_of};
ghost use Rattle.formula_shape.specs.Sizes.{FitInQuery};
ghost use Rattle.formula.specs.Resolved.{IsResolved};
ghost use Rattle.formula.specs.Tree.{resolved_view};
ghost use Rattle.meaning.specs.Binding.{holds_full};
ghost use Rattle.meaning.specs.Fits.{FitsItsClasses};
ghost use Rattle.meaning.specs.Reads.{query_reads};
ghost use Rattle.object_store.specs.Contents.{catalog_of};
ghost use Rattle.relation.specs.Frames.{HasFrame, IsIn, IsWider, domain_size, frame};
ghost use Rattle.relation.specs.Key.{has_id, ids_of_variable as domain_of};
ghost use Rattle.relation.specs.Rows.{table_has};
ghost use Rattle.atoms.specs.Asked.{world_in};
ghost use Rattle.answers.specs.Objects.{AreOfItsClasses, IsOfAcceptedWrites};
ghost use Rattle.steps.specs.Counting.{StepsAtMost};

use crate::laws::fitting_queries_can_be_asked;
use atoms::{StoredWorld, resolved_atoms_and_terms_are_sized};
use evaluator::{full_rows, ticks_alone};
use formula::RQuery;
use interval_set::IntervalSet;
use meaning::atoms_of_absent_objects_are_false;
use narrowing::{can_hold, can_hold_alone, narrowed};
use object_store::Store;
use pairs::{Scene, distance_of, rows_of_pairs};
use polygon::Regions;
use relation::{Domains, Relation};
use std::alloc::{AllocError, Global};
use std::sync::ledger::Ledger;
use steps::Steps;
use tick_set::{TickSet, Window};

// A query, the store and the regions that it is asked of, and the window.
#[derive(Clone, Copy)]
struct Asked<'a> {
    query: &'a RQuery,
    store: &'a Store,
    regions: &'a Regions,
    window: Window,
}

/// The objects that were ever inserted into the classes of a query, for each of its variables. It fails only
/// where memory is out.
pub fn domains_of(alloc: Global, q: &RQuery, store: &Store) -> Result<Domains, AllocError>
    requires { FitInQuery q.now.classes }
    ensures { IfOk result (λ d. d ≡ map (ids_of (catalog_of store.now)) q.now.classes) }
{
    let mut domains = Domains::new(alloc);
    'classes: for class in q.classes.items() {
        domains.push(alloc, store.class_names(*class))?;
    }
    Ok(domains)
}

/// The rows of a query over all its variables: for each binding of objects of the domains the ticks of the
/// window at which all its objects are there and the formula holds, where nothing after the window's last
/// tick counts. It fails only where memory is out.
///
/// The query is right by number and fits the classes and the regions, and the window has at most
/// 100,000,000 ticks after its first. `reads` counts the looks at timelines.
pub fn evaluate<'d, L: Ledger, M: Ledger>(
    alloc: Global,
    q: &RQuery,
    d: &'d Domains,
    store: &Store,
    regions: &Regions,
    w: Window,
    reads: &mut Steps<L>,
    probes: &mut Steps<M>,
) -> Result<Relation<'d, IntervalSet>, AllocError>
    requires accepted { IsOfAcceptedWrites store.now }
    requires resolved { IsResolved (resolved_view q.now) }
    requires fits { FitsItsClasses (world_in store.now regions.now) (resolved_view q.now) }
    requires domains { AreOfItsClasses (catalog_of store.now) (resolved_view q.now) d.now }
    requires length { IsQueryWindow w }
    ensures rows { IfOk result (λ r. (b : ℕ → ℕ) → IsIn d.now b → (t : ℕ) → table_has spans_have r b t
        ≡ (within w.lo w.hi t && holds_full (world_in store.now regions.now) (resolved_view q.now) w.hi b t)) }
    ensures vars { IfOk result (λ r. r.vars ≡ between 0 (length q.now.classes)) }
    ensures frame { IfOk result (λ r. HasFrame r d.now w.lo w.hi) }
    ensures reads { StepsAtMost reads.old reads.new (query_reads (domain_size d.now) (w.hi + 1 - w.lo) (resolved_view q.now)) }
{
    if !can_hold(q, d, store, regions, w) {
        return Ok(no_rows(alloc, d, w));
    }
    let asked = Asked {
        query: q,
        store,
        regions,
        window: w,
    };
    let Some(some) = narrowed(alloc, q, d, store, regions, w)? else {
        let rows = evaluate_all(alloc, &asked, d, reads, probes)?;
        return Ok(rows);
    };
    let rows = evaluate_all(alloc, &asked, &some, reads, probes)?;
    let made = widened(alloc, rows, d)?;
    Ok(made)
}

// No row, over all variables.
fn no_rows<'d>(alloc: Global, d: &'d Domains, w: Window) -> Relation<'d, IntervalSet>
    ensures ticks { (b : ℕ → ℕ) (t : ℕ) → table_has spans_have result b t ≡ false }
    ensures vars { result.vars ≡ between 0 (length d.now) }
    ensures frame { HasFrame result d.now w.lo w.hi }
{
    let vars = &[0, 1, 2, 3][..d.len()];
    Relation::empty(alloc, vars, d, w)
}

// The same, where each object of the domains is asked.
fn evaluate_all<'d, L: Ledger, M: Ledger>(
    alloc: Global,
    asked: &Asked<'_>,
    d: &'d Domains,
    reads: &mut Steps<L>,
    probes: &mut Steps<M>,
) -> Result<Relation<'d, IntervalSet>, AllocError>
    requires accepted { IsOfAcceptedWrites asked.now.store.now }
    requires resolved { IsResolved (resolved_view asked.now.query.now) }
    requires fits { FitsItsClasses (world_in asked.now.store.now asked.now.regions.now) (resolved_view asked.now.query.now) }
    requires domains { AreOfItsClasses (catalog_of asked.now.store.now) (resolved_view asked.now.query.now) d.now }
    requires length { IsQueryWindow asked.now.window }
    ensures rows { IfOk result (λ r. (b : ℕ → ℕ) → IsIn d.now b → (t : ℕ) → table_has spans_have r b t
        ≡ (within asked.now.window.lo asked.now.window.hi t
        && holds_full (world_in asked.now.store.now asked.now.regions.now) (resolved_view asked.now.query.now) asked.now.window.hi b t)) }
    ensures vars { IfOk result (λ r. r.vars ≡ between 0 (length asked.now.query.now.classes)) }
    ensures frame { IfOk result (λ r. HasFrame r d.now asked.now.window.lo asked.now.window.hi) }
    ensures reads { StepsAtMost reads.old reads.new
        (query_reads (domain_size d.now) (asked.now.window.hi + 1 - asked.now.window.lo) (resolved_view asked.now.query.now)) }
{
    fitting_queries_can_be_asked();
    let world = StoredWorld {
        store: asked.store,
        regions: asked.regions,
    };
    if let Some(distance) = distance_of(asked.query) {
        resolved_atoms_and_terms_are_sized();
        atoms_of_absent_objects_are_false();
        let scene = Scene {
            distance,
            world,
            w: asked.window,
        };
        let near = rows_of_pairs(alloc, &scene, d, reads, probes)?;
        return Ok(near);
    }
    let rows = full_rows(alloc, &world, asked.query, d, asked.window, reads, probes)?;
    Ok(rows)
}

/// The same rows over wider domains: each of them gives its variables objects of the domains that it had. It fails only
/// where memory is out.
pub fn widened<'d>(
    alloc: Global,
    rows: Relation<'_, IntervalSet>,
    d: &'d Domains,
) -> Result<Relation<'d, IntervalSet>, AllocError>
    requires { IsWider rows.domains d.now }
    ensures ticks { IfOk result (λ r. (b : ℕ → ℕ) (t : ℕ) → table_has spans_have r b t ≡ table_has spans_have rows.entry b t) }
    ensures inside { IfOk result (λ r. (b : ℕ → ℕ) (t : ℕ) → table_has spans_have r b t ≡ true → (v : ℕ)
        → has_id rows.entry.vars v ≡ true → has_id (domain_of rows.entry.domains v) (b v) ≡ true) }
    ensures vars { IfOk result (λ r. r.vars ≡ rows.entry.vars) }
    ensures frame { IfOk result (λ r. HasFrame r d.now rows.entry.lo rows.entry.hi) }
{
    rows.rows_stand_in_order();
    let made = rows.widen(alloc, d)?;
    Ok(made)
}

/// The ticks of the window at which one object of the class of a query of one variable is there and the formula holds
/// with this object, where nothing after the window's last tick counts: its row of [`evaluate`], where no relation is
/// made. It fails only where memory is out.
///
/// The query is right by number and fits the classes and the regions, and the window has at most
/// 100,000,000 ticks after its first. `reads` counts the looks at timelines.
pub fn evaluate_alone<L: Ledger, M: Ledger>(
    alloc: Global,
    q: &RQuery,
    id: u32,
    store: &Store,
    regions: &Regions,
    w: Window,
    reads: &mut Steps<L>,
    probes: &mut Steps<M>,
) -> Result<IntervalSet, AllocError>
    requires accepted { IsOfAcceptedWrites store.now }
    requires resolved { IsResolved (resolved_view q.now) }
    requires fits { FitsItsClasses (world_in store.now regions.now) (resolved_view q.now) }
    requires object { AreOfItsClasses (catalog_of store.now) (resolved_view q.now) ((id ∷ []) ∷ []) }
    requires length { IsQueryWindow w }
    ensures ticks { IfOk result (λ s. (b : ℕ → ℕ) → b 0 ≡ id → (t : ℕ) → spans_have s t
        ≡ (within w.lo w.hi t && holds_full (world_in store.now regions.now) (resolved_view q.now) w.hi b t)) }
    ensures reads { StepsAtMost reads.old reads.new
        (query_reads (domain_size ((id ∷ []) ∷ [])) (w.hi + 1 - w.lo) (resolved_view q.now)) }
{
    if !can_hold_alone(alloc, q, id, store, regions, w) {
        return Ok(IntervalSet::empty(alloc));
    }
    fitting_queries_can_be_asked();
    let world = StoredWorld { store, regions };
    let ticks = ticks_alone(alloc, &world, q, id, w, reads, probes)?;
    Ok(ticks)
}
