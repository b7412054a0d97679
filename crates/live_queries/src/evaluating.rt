//! The rows of queries by evaluation.
ghost use Rattle.std.specs.Prelude.{◌≡◌, ◌<◌, ◌≤◌, ◌+◌, ◌-◌, ◌&&◌, ◌*◌, ◌∷◌, ℕ, [], true, List, nat_le, length, map, IfOk, if◌then◌else◌};
ghost use Rattle.tick_set.specs.Runs.{spans_have};
ghost use Rattle.tick_set.specs.Ticks.{IsTick, within};
ghost use Rattle.tick_set.specs.declared.spans.TheConstants.{SPAN_LIMIT};
ghost use Rattle.tick_set.specs.Windows.{IsQueryWindow};
ghost use Rattle.formula.specs.Resolved.{IsResolved};
ghost use Rattle.formula.specs.Tree.{resolved_view};
ghost use Rattle.kept_rows.specs.declared.binding.TheConstants.{BINDING_LIMIT};
ghost use Rattle.kept_rows.specs.Changes.{AreReady, AreRising, rows_after};
ghost use Rattle.kept_rows.specs.Exact.{AreFullRows};
ghost use Rattle.kept_rows.specs.Numbers.{IsBindingCount, counts, size_of};
ghost use Rattle.kept_rows.specs.Rows.{HasRoom, row_has};
ghost use Rattle.meaning.specs.Binding.{holds_full};
ghost use Rattle.meaning.specs.Fits.{FitsItsClasses};
ghost use Rattle.meaning.specs.Reads.{change_reads, query_reads, sizes_of};
ghost use Rattle.object_store.specs.Contents.{catalog_of};
ghost use Rattle.atoms.specs.Asked.{told_world};
ghost use Rattle.answers.specs.Objects.{IsOfAcceptedWrites};
ghost use Rattle.live_queries.specs.Asked.{IsObjectWithClass};
ghost use Rattle.live_queries.specs.Columns.{AreColumnsOf, AreCounted, Column, column_variables, gives, object_at_number, order_of};
ghost use Rattle.live_queries.specs.Judging.{AreColumnsOfRows, AreJudgedRows, CanBeJudged, ComesTo};
ghost use Rattle.live_queries.specs.Written.{HaveObjectsWith, takes_object};
ghost use Rattle.steps.specs.Counting.{StepsAtMost};

use crate::columns::numbers_with;
use crate::judging::{Alone, Parts};
use crate::numbering::table_of;
use crate::objects::{Objects, is_of_class, width};
use crate::parts::{parts_of, singles};
use crate::written::{Arrival, Inquiry, Judged};
use answers::{domains_of, evaluate, evaluate_alone};
use formula::ClassNo;
use interval_set::IntervalSet;
use kept_rows::{Changes, KeptRows, refresh};
use std::alloc::{AllocError, Global};
use std::slice::from_ref;
use std::sync::ledger::Ledger;
use steps::Steps;
use tick_set::{TickSet, Window};

/// The rows of all bindings of a query at the ticks from `lo` to `hi`, which there needn't be. It fails only where
/// memory is out.
pub(crate) fn rows_between<L: Ledger, M: Ledger>(
    alloc: Global,
    inquiry: &Inquiry,
    lo: u32,
    hi: u32,
    reads: &mut Steps<L>,
    probes: &mut Steps<M>,
) -> Result<KeptRows<IntervalSet>, AllocError>
    requires accepted { IsOfAcceptedWrites inquiry.now.world.now.store.now }
    requires resolved { IsResolved (resolved_view inquiry.now.query.now) }
    requires fits { FitsItsClasses (told_world inquiry.now.world.now) (resolved_view inquiry.now.query.now) }
    requires columns { AreColumnsOf (catalog_of inquiry.now.world.now.store.now) inquiry.now.query.now.classes (order_of (resolved_view inquiry.now.query.now)) inquiry.now.columns.now }
    requires size { IsBindingCount (size_of (column_variables inquiry.now.columns.now)) }
    requires last { IsTick hi }
    requires length { hi - lo ≤ SPAN_LIMIT }
    ensures room { IfOk result (λ rows. HasRoom rows (size_of (column_variables inquiry.now.columns.now))) }
    ensures rows { IfOk result (λ rows. AreFullRows (row_has spans_have rows) (counts (column_variables inquiry.now.columns.now))
        (λ n t. within lo hi t && holds_full (told_world inquiry.now.world.now) (resolved_view inquiry.now.query.now) hi (object_at_number inquiry.now.columns.now n) t)) }
    ensures reads { StepsAtMost reads.old reads.new
        (query_reads (sizes_of (catalog_of inquiry.now.world.now.store.now) (resolved_view inquiry.now.query.now)) (hi + 1 - lo) (resolved_view inquiry.now.query.now)) }
{
    match Window::new(lo, hi) {
        Some(w) => first_rows(alloc, inquiry, w, reads, probes),
        None => KeptRows::new(alloc, width(inquiry.columns)),
    }
}

// The same over a window, by one evaluation.
fn first_rows<L: Ledger, M: Ledger>(
    alloc: Global,
    inquiry: &Inquiry,
    w: Window,
    reads: &mut Steps<L>,
    probes: &mut Steps<M>,
) -> Result<KeptRows<IntervalSet>, AllocError>
    requires accepted { IsOfAcceptedWrites inquiry.now.world.now.store.now }
    requires resolved { IsResolved (resolved_view inquiry.now.query.now) }
    requires fits { FitsItsClasses (told_world inquiry.now.world.now) (resolved_view inquiry.now.query.now) }
    requires columns { AreColumnsOf (catalog_of inquiry.now.world.now.store.now) inquiry.now.query.now.classes (order_of (resolved_view inquiry.now.query.now)) inquiry.now.columns.now }
    requires size { IsBindingCount (size_of (column_variables inquiry.now.columns.now)) }
    requires length { IsQueryWindow w }
    ensures room { IfOk result (λ rows. HasRoom rows (size_of (column_variables inquiry.now.columns.now))) }
    ensures rows { IfOk result (λ rows. AreFullRows (row_has spans_have rows) (counts (column_variables inquiry.now.columns.now))
        (λ n t. within w.lo w.hi t && holds_full (told_world inquiry.now.world.now) (resolved_view inquiry.now.query.now) w.hi (object_at_number inquiry.now.columns.now n) t)) }
    ensures reads { StepsAtMost reads.old reads.new
        (query_reads (sizes_of (catalog_of inquiry.now.world.now.store.now) (resolved_view inquiry.now.query.now)) (w.hi + 1 - w.lo) (resolved_view inquiry.now.query.now)) }
{
    let world = inquiry.world;
    let domains = domains_of(alloc, inquiry.query, world.store)?;
    let full = evaluate(
        alloc,
        inquiry.query,
        &domains,
        world.store,
        world.regions,
        w,
        reads,
        probes,
    )?;
    let rows = table_of(alloc, inquiry.columns, full)?;
    Ok(rows)
}

/// What a write to an object changes of the rows of a query, where each variable of its class has the object as one more
/// if there is one more. From tick `from` on a judged row has the ticks of the window, and before it those that it has. It
/// fails only where memory is out.
pub(crate) fn new_rows<L: Ledger, M: Ledger>(
    alloc: Global,
    judged: &Judged,
    columns: &[Objects],
    arrival: &Arrival,
    reads: &mut Steps<L>,
    probes: &mut Steps<M>,
) -> Result<Changes<IntervalSet>, AllocError>
    requires judged { CanBeJudged judged.now }
    requires columns { AreColumnsOfRows judged.now columns.now }
    requires arrival { ComesTo judged.now columns.now arrival.now }
    ensures ready { IfOk result (λ f. AreReady spans_have judged.now.rows.now f) }
    ensures rising { IfOk result (λ f. AreRising (size_of (column_variables columns.now)) f) }
    ensures rows { IfOk result (AreJudgedRows judged.now columns.now arrival.now) }
    ensures reads { StepsAtMost reads.old reads.new
        (change_reads (catalog_of judged.now.world.now.store.now) (resolved_view judged.now.query.now) (judged.now.w.hi + 1 - judged.now.w.lo) arrival.now.object.now.class) }
{
    let classes = judged.query.classes.items();
    let object = arrival.object;
    if let Some((column, later)) = columns.split_first() {
        if later.is_empty() && is_alone(classes, object.class) {
            return new_row(alloc, judged, column, arrival, reads, probes);
        }
    }
    let singles = singles(alloc, classes, judged.world.store, object)?;
    let parts = parts_of(alloc, judged, &singles, reads, probes)?;
    let numbers = numbers_with(alloc, columns, classes, arrival)?;
    let judge = Parts {
        columns,
        object: object.id,
        parts: &parts,
        nothing: IntervalSet::empty(alloc),
    };
    let changes = refresh(alloc, judged.rows, &numbers, &judge, judged.from)?;
    Ok(changes)
}

/// The same of a query of one variable, which is of the object's class: the one binding that holds the object is judged
/// by its own ticks, and no list or relation is made on the way.
fn new_row<L: Ledger, M: Ledger>(
    alloc: Global,
    judged: &Judged,
    column: &Objects,
    arrival: &Arrival,
    reads: &mut Steps<L>,
    probes: &mut Steps<M>,
) -> Result<Changes<IntervalSet>, AllocError>
    requires alone { judged.now.query.now.classes ≡ arrival.now.object.now.class ∷ [] }
    requires judged { CanBeJudged judged.now }
    requires columns { AreColumnsOfRows judged.now (column.now ∷ []) }
    requires arrival { ComesTo judged.now (column.now ∷ []) arrival.now }
    ensures ready { IfOk result (λ f. AreReady spans_have judged.now.rows.now f) }
    ensures rising { IfOk result (λ f. AreRising (size_of (column_variables (column.now ∷ []))) f) }
    ensures rows { IfOk result (AreJudgedRows judged.now (column.now ∷ []) arrival.now) }
    ensures reads { StepsAtMost reads.old reads.new
        (change_reads (catalog_of judged.now.world.now.store.now) (resolved_view judged.now.query.now) (judged.now.w.hi + 1 - judged.now.w.lo) arrival.now.object.now.class) }
{
    let world = judged.world;
    let object = arrival.object;
    let ticks = evaluate_alone(
        alloc,
        judged.query,
        object.id,
        world.store,
        world.regions,
        judged.w,
        reads,
        probes,
    )?;
    let one_more = does_take(
        arrival.grows,
        judged.query.classes.items(),
        object.class,
        column,
    );
    let numbers = column.numbers_with(one_more, object.id, object.place as usize);
    let judge = Alone { ticks };
    let changes = refresh(alloc, judged.rows, from_ref(&numbers), &judge, judged.from)?;
    Ok(changes)
}

// Whether a column takes an object of the class as one more.
#[inline]
fn does_take(grows: bool, classes: &[ClassNo], class: ClassNo, column: &Objects) -> bool
    ensures { result ≡ takes_object grows class classes.now column.now }
{
    grows && is_of_class(classes, column.variable(), class)
}

// Whether there is one class alone, which is this one.
#[inline]
fn is_alone(classes: &[ClassNo], class: ClassNo) -> bool
    ensures { result ≡ true → classes.now ≡ class ∷ [] }
{
    match classes.split_first() {
        Some((first, later)) => later.is_empty() && *first == class,
        None => false,
    }
}
