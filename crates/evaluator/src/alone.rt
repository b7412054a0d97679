//! Queries of one variable at one object.

ghost use Rattle.std.specs.Prelude.{◌≡◌, ◌&&◌, ℕ, [], ◌∷◌, length, IfOk};
ghost use Rattle.tick_set.specs.Ticks.{within};
ghost use Rattle.formula.specs.Tree.{formula_view, resolved_view};
ghost use Rattle.formula.specs.Value.{no_values};
ghost use Rattle.evaluator.specs.Interpreting.{CanAsk, IsOver};
ghost use Rattle.evaluator.specs.Rows.{is_full, query_reads_upto};
ghost use Rattle.steps.specs.Counting.{StepsAtMost};

use crate::full::key_of;
use crate::here::Here;
use crate::ticks::ticks_of;
use formula::{Env, RQuery};
use interpreting::Interpreter;
use std::alloc::{AllocError, Global};
use std::sync::ledger::Ledger;
use steps::Steps;
use tick_set::Window;
use until_merge::Temporal;

/// The ticks of the window at which an object is there and the formula of a query of one variable holds with this object
/// for it: the row that [`full_rows`](crate::full_rows) has of the object, where no relation is made. It fails only where
/// memory is out.
pub fn ticks_alone<S: Temporal, I: Interpreter<S>, L: Ledger, M: Ledger>(
    alloc: Global,
    source: &I,
    q: &RQuery,
    id: u32,
    w: Window,
    reads: &mut Steps<L>,
    probes: &mut Steps<M>,
) -> Result<S, AllocError>
    requires one { length q.now.classes ≡ 1 }
    requires over { IsOver 1 (formula_view q.now.formula) }
    requires can { CanAsk (I.interpretation source.now) (I.atom_fits source.now w.lo w.hi)
        (I.term_fits source.now w.lo w.hi) ((id ∷ []) ∷ []) w.lo w.hi (formula_view q.now.formula) no_values }
    requires object { I.object_fits source.now w.lo w.hi id }
    ensures ticks { IfOk result (λ s. (b : ℕ → ℕ) → b 0 ≡ id → (t : ℕ) → S.member s t ≡ (within w.lo w.hi t
        && is_full (I.interpretation source.now) (I.present source.now) (resolved_view q.now) w.hi b t)) }
    ensures reads { StepsAtMost reads.old reads.new (query_reads_upto ((id ∷ []) ∷ []) w.lo w.hi (resolved_view q.now)) }
{
    let binding = key_of(id);
    let env = Env::new();
    let here = Here {
        source,
        binding: &binding,
        values: &env,
    };
    let ticks: S = ticks_of(alloc, &here, &q.formula, w, reads, probes)?;
    if ticks.is_empty() {
        return Ok(ticks);
    }
    let away = source.absence(alloc, id, w, reads)?;
    if away.is_empty() {
        return Ok(ticks);
    }
    let there = ticks.without(alloc, &away)?;
    Ok(there)
}
