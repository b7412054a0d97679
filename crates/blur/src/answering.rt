//! The answer to a query where positions may be off.
ghost use Rattle.std.specs.Prelude.{◌≡◌, ◌+◌, ◌-◌, IfOk};
ghost use Rattle.answers.specs.Objects.{IsOfAcceptedWrites};
ghost use Rattle.formula.specs.Resolved.{IsResolved};
ghost use Rattle.formula.specs.Tree.{resolved_view};
ghost use Rattle.meaning.specs.Answer.{answer_where};
ghost use Rattle.meaning.specs.Fits.{FitsItsClasses};
ghost use Rattle.meaning.specs.Reads.{query_reads, sizes_of};
ghost use Rattle.object_store.specs.Contents.{catalog_of};
ghost use Rattle.tick_set.specs.Windows.{IsQueryWindow};
ghost use Rattle.blur.specs.Answered.{holds_blurred, told_in};
ghost use Rattle.steps.specs.Counting.{StepsAtMost};

use crate::asking::blurred;
use crate::objects::BlurredWorld;
use answers::{Answer, answer_over, domains_of};
use formula::RQuery;
use std::alloc::{AllocError, Global};
use std::sync::ledger::Ledger;
use steps::Steps;
use tick_set::Window;

/// The answer to a query over the objects of its classes, by the ticks of the window at which it holds, surely or possibly,
/// of some objects for the variables that aren't targets. It fails only where memory is out.
///
/// The query is right by number and fits the classes and the regions, and the window has at most 100,000,000 ticks after
/// its first. `reads` counts the looks at timelines.
pub fn blurred_answer<L: Ledger, M: Ledger>(
    alloc: Global,
    q: &RQuery,
    world: &BlurredWorld,
    w: Window,
    reads: &mut Steps<L>,
    probes: &mut Steps<M>,
) -> Result<Answer, AllocError>
    requires accepted { IsOfAcceptedWrites world.now.store.now }
    requires resolved { IsResolved (resolved_view q.now) }
    requires fits { FitsItsClasses (told_in world.now) (resolved_view q.now) }
    requires length { IsQueryWindow w }
    ensures rows { IfOk result (λ a. a ≡ answer_where (told_in world.now) (resolved_view q.now)
        (holds_blurred world.now (resolved_view q.now) w.hi) w.lo w.hi) }
    ensures reads { StepsAtMost reads.old reads.new
        (query_reads (sizes_of (catalog_of world.now.store.now) (resolved_view q.now)) (w.hi + 1 - w.lo) (resolved_view q.now)) }
{
    let domains = domains_of(alloc, q, world.store)?;
    let full = blurred(alloc, q, &domains, world, w, reads, probes)?;
    let answer = answer_over(alloc, full, q, w)?;
    Ok(answer)
}
