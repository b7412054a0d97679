//! Queries over a store and its regions, where positions may be off.
ghost use Rattle.std.specs.Prelude.{◌≡◌, ◌+◌, ◌-◌, ℕ, true, false, length, IfOk, List};
ghost use Rattle.answers.specs.Objects.{AreOfItsClasses, IsOfAcceptedWrites};
ghost use Rattle.evaluator.specs.Rows.{AreRowsWhere};
ghost use Rattle.formula.specs.Resolved.{IsResolved};
ghost use Rattle.formula.specs.Tree.{resolved_view};
ghost use Rattle.formula_shape.specs.Sizes.{has_not};
ghost use Rattle.meaning.specs.Fits.{FitsItsClasses};
ghost use Rattle.meaning.specs.Reads.{query_reads};
ghost use Rattle.object_store.specs.Contents.{catalog_of};
ghost use Rattle.relation.specs.Frames.{IsIn, domain_size};
ghost use Rattle.relation.specs.Rows.{table_has};
ghost use Rattle.tick_set.specs.Runs.{spans_have};
ghost use Rattle.tick_set.specs.Ticks.{between, within};
ghost use Rattle.tick_set.specs.Windows.{IsQueryWindow};
ghost use Rattle.worlds.specs.Moved.{Move, is_world};
ghost use Rattle.blur.specs.Answered.{HoldsInEachWorld, holds_blurred, holds_moved, told_in};
ghost use Rattle.steps.specs.Counting.{StepsAtMost};

use crate::objects::{BlurredWorld, Setting};
use answers::{fitting_queries_can_be_asked, widened};
use evaluator::full_rows;
use formula::RQuery;
use interval_set::IntervalSet;
use narrowing::narrowed_within;
use relation::{Domains, Relation};
use std::alloc::{AllocError, Global};
use std::sync::ledger::Ledger;
use steps::Steps;
use tick_set::Window;
use worlds::worlds_lie_between;

/// The rows of a query over all its variables: for each binding of objects of the domains the ticks of the window at which
/// all its objects are there and the formula holds, surely or possibly, where nothing after the window's last tick counts.
/// It fails only where memory is out.
///
/// The query is right by number and fits the classes and the regions, and the window has at most 100,000,000 ticks after
/// its first. `reads` counts the looks at timelines.
pub fn blurred<'d, L: Ledger, M: Ledger>(
    alloc: Global,
    q: &RQuery,
    d: &'d Domains,
    world: &BlurredWorld,
    w: Window,
    reads: &mut Steps<L>,
    probes: &mut Steps<M>,
) -> Result<Relation<'d, IntervalSet>, AllocError>
    requires accepted { IsOfAcceptedWrites world.now.store.now }
    requires resolved { IsResolved (resolved_view q.now) }
    requires fits { FitsItsClasses (told_in world.now) (resolved_view q.now) }
    requires domains { AreOfItsClasses (catalog_of world.now.store.now) (resolved_view q.now) d.now }
    requires length { IsQueryWindow w }
    ensures rows { IfOk result (AreRowsWhere spans_have d.now w.lo w.hi (between 0 (length q.now.classes))
        (holds_blurred world.now (resolved_view q.now) w.hi)) }

    // Without a NOT, what surely holds, holds in each world, and what holds in some world, possibly holds.
    ensures surely { world.now.blur.sure ≡ true → has_not (resolved_view q.now).formula ≡ false
        → IfOk result (λ r. (b : ℕ → ℕ) → IsIn d.now b → (t : ℕ) → table_has spans_have r b t ≡ true
        → HoldsInEachWorld world.now (resolved_view q.now) w.hi b t) }
    ensures possibly { world.now.blur.sure ≡ false → has_not (resolved_view q.now).formula ≡ false
        → IfOk result (λ r. (b : ℕ → ℕ) → IsIn d.now b → (t : ℕ) → within w.lo w.hi t ≡ true
        → (moves : List Move) → is_world world.now.blur.error moves ≡ true
        → holds_moved moves world.now (resolved_view q.now) w.hi b t ≡ true → table_has spans_have r b t ≡ true) }
    ensures reads { StepsAtMost reads.old reads.new (query_reads (domain_size d.now) (w.hi + 1 - w.lo) (resolved_view q.now)) }
{
    worlds_lie_between();
    let setting = Setting { world, w };
    let rows = rows_narrowed(alloc, q, d, &setting, reads, probes)?;
    Ok(rows)
}

// The same, where no object is asked that can't be where the formula needs it.
fn rows_narrowed<'d, L: Ledger, M: Ledger>(
    alloc: Global,
    q: &RQuery,
    d: &'d Domains,
    setting: &Setting,
    reads: &mut Steps<L>,
    probes: &mut Steps<M>,
) -> Result<Relation<'d, IntervalSet>, AllocError>
    requires accepted { IsOfAcceptedWrites setting.now.world.now.store.now }
    requires resolved { IsResolved (resolved_view q.now) }
    requires fits { FitsItsClasses (told_in setting.now.world.now) (resolved_view q.now) }
    requires domains { AreOfItsClasses (catalog_of setting.now.world.now.store.now) (resolved_view q.now) d.now }
    requires length { IsQueryWindow setting.now.w }
    ensures rows { IfOk result (AreRowsWhere spans_have d.now setting.now.w.lo setting.now.w.hi (between 0 (length q.now.classes))
        (holds_blurred setting.now.world.now (resolved_view q.now) setting.now.w.hi)) }
    ensures reads { StepsAtMost reads.old reads.new (query_reads (domain_size d.now) (setting.now.w.hi + 1 - setting.now.w.lo) (resolved_view q.now)) }
{
    worlds_lie_between();
    let (world, w) = (setting.world, setting.w);
    let (store, regions, slack) = (world.store, world.regions, world.blur.slack());
    let Some(some) = narrowed_within(alloc, q, d, store, regions, slack, w)? else {
        let rows = rows_of_all(alloc, q, d, setting, reads, probes)?;
        return Ok(rows);
    };
    let rows = rows_of_all(alloc, q, &some, setting, reads, probes)?;
    let made = widened(alloc, rows, d)?;
    Ok(made)
}

// The same, where each object of the domains is asked.
fn rows_of_all<'d, L: Ledger, M: Ledger>(
    alloc: Global,
    q: &RQuery,
    d: &'d Domains,
    setting: &Setting,
    reads: &mut Steps<L>,
    probes: &mut Steps<M>,
) -> Result<Relation<'d, IntervalSet>, AllocError>
    requires accepted { IsOfAcceptedWrites setting.now.world.now.store.now }
    requires resolved { IsResolved (resolved_view q.now) }
    requires fits { FitsItsClasses (told_in setting.now.world.now) (resolved_view q.now) }
    requires domains { AreOfItsClasses (catalog_of setting.now.world.now.store.now) (resolved_view q.now) d.now }
    requires length { IsQueryWindow setting.now.w }
    ensures rows { IfOk result (AreRowsWhere spans_have d.now setting.now.w.lo setting.now.w.hi (between 0 (length q.now.classes))
        (holds_blurred setting.now.world.now (resolved_view q.now) setting.now.w.hi)) }
    ensures reads { StepsAtMost reads.old reads.new (query_reads (domain_size d.now) (setting.now.w.hi + 1 - setting.now.w.lo) (resolved_view q.now)) }
{
    fitting_queries_can_be_asked();
    let (world, w) = (setting.world, setting.w);
    let rows = full_rows(alloc, world, q, d, w, reads, probes)?;
    Ok(rows)
}
