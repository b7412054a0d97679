//! Many relations put together.

ghost use Rattle.std.specs.Prelude.{◌≡◌, ◌<◌, ℕ, true, length, IfOk};
ghost use Rattle.formula.specs.VarSet.{set_has};
ghost use Rattle.formula.specs.Variables.{variables_in};
ghost use Rattle.formula_shape.specs.declared.limits.TheConstants.{OBJECT_LIMIT};
ghost use Rattle.relation.specs.Frames.{HasFrame, IsIn, frame};
ghost use Rattle.relation.specs.Rows.{table_has};
ghost use Rattle.evaluator.specs.Gathered.{ShareFrame, some_part_has};

use formula::VarSet;
use relation::{Domains, Relation};
use std::alloc::{AllocError, Global};
use std::collections::VecDeque;
use tick_set::Window;
use until_merge::Temporal;

// The ticks that any of the relations has, over these variables. Two are put together and go behind all others, so that
// no row is copied once for each relation.
#[tactic(auto, using(crate::proofs::VariableLemmas::known_variables, crate::proofs::VariableLemmas::few_variables, crate::proofs::VariableLemmas::distinct_variables))]
pub(crate) fn united<'d, S: Temporal>(
    alloc: Global,
    parts: VecDeque<Relation<'d, S>>,
    set: VarSet,
    d: &'d Domains,
    w: Window,
) -> Result<Relation<'d, S>, AllocError>
    requires alike { ShareFrame (variables_in (set_has set)) d.now w.lo w.hi parts.items }
    requires known { (v : ℕ) → v < OBJECT_LIMIT → set_has set v ≡ true → v < length d.now }
    ensures ticks { IfOk result (λ r. (b : ℕ → ℕ) → IsIn d.now b → (t : ℕ) → table_has S.member r b t
        ≡ some_part_has S.member parts.entry.items b t) }
    ensures vars { IfOk result (λ r. r.vars ≡ variables_in (set_has set)) }
    ensures frame { IfOk result (λ r. HasFrame r d.now w.lo w.hi) }
{
    let mut parts = parts;
    'parts: while let Some(first) = parts.pop_front() {
        let Some(second) = parts.pop_front() else {
            return Ok(first);
        };
        let both = first.unite(alloc, &second)?;
        parts.push_back(both)?;
    }
    Ok(Relation::empty(alloc, set.list(), d, w))
}
