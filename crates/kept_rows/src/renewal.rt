//! Rows judged anew.
ghost use Rattle.std.specs.Prelude.{◌≡◌, ◌<◌, ◌+◌, ◌*◌, ◌&&◌, ◌∷◌, ℕ, Bool, [], false, nat_le, length, if◌then◌else◌, IfOk, OnOk};
ghost use Rattle.tick_set.specs.TickList.{has};
ghost use Rattle.kept_rows.specs.Changes.{AreReady, AreRising, DoDiffer, rows_after};
ghost use Rattle.kept_rows.specs.Numbers.{IsBindingCount, counts, holds_written, size_of};
ghost use Rattle.kept_rows.specs.Rising.{AscendsWithin};
ghost use Rattle.kept_rows.specs.Rows.{HasRoom, row_has};

use crate::binding::Variable;
use crate::change::Changes;
use crate::held::held_numbers;
use crate::rows::KeptRows;
use std::alloc::{AllocError, Global};
use tick_set::TickSet;

/// What judges bindings by their numbers.
pub trait Judge<S: TickSet> {
    /// Whether a binding is full at a tick.
    ghost full: { Self → ℕ → ℕ → Bool };

    /// The ticks at which the binding of a number is full.
    fn judge(&self, number: u32) -> &S
        ensures { (t : ℕ) → S.member result.now t ≡ full self.now number t };
}

/// What has to change where each binding that holds the object that was written is judged anew from tick `from` on:
/// only rows that differ, each with the ticks before `from` that it has. It fails only where memory is out.
pub fn refresh<S: TickSet, J: Judge<S>>(
    alloc: Global,
    kept: &KeptRows<S>,
    variables: &[Variable],
    judge: &J,
    from: u32,
) -> Result<Changes<S>, AllocError>
    requires size { IsBindingCount (size_of variables.now) }
    requires room { HasRoom kept.now (size_of variables.now) }
    ensures ready { IfOk result (λ f. AreReady S.member kept.now f) }
    ensures rising { IfOk result (λ f. AreRising (size_of variables.now) f) }
    ensures differ { IfOk result (λ f. DoDiffer S.member kept.now f) }
    ensures rows { IfOk result (λ f. (c t : ℕ) → rows_after S.member f (row_has S.member kept.now) c t
        ≡ (if (counts variables.now c && holds_written variables.now c) && nat_le from t then J.full judge.now c t else row_has S.member kept.now c t)) }
{
    if let Some((only, later)) = variables.split_first() {
        if later.is_empty() {
            return refresh_one(alloc, kept, only, judge, from);
        }
    }
    let numbers = held_numbers(alloc, variables)?;
    judged(alloc, kept, &numbers, judge, from)
}

// The same where there is one variable, so that a binding is an object.
fn refresh_one<S: TickSet, J: Judge<S>>(
    alloc: Global,
    kept: &KeptRows<S>,
    variable: &Variable,
    judge: &J,
    from: u32,
) -> Result<Changes<S>, AllocError>
    requires room { HasRoom kept.now (size_of (variable.now ∷ [])) }
    ensures ready { IfOk result (λ f. AreReady S.member kept.now f) }
    ensures rising { IfOk result (λ f. AreRising (size_of (variable.now ∷ [])) f) }
    ensures differ { IfOk result (λ f. DoDiffer S.member kept.now f) }
    ensures rows { IfOk result (λ f. (c t : ℕ) → rows_after S.member f (row_has S.member kept.now) c t
        ≡ (if (counts (variable.now ∷ []) c && holds_written (variable.now ∷ []) c) && nat_le from t then J.full judge.now c t else row_has S.member kept.now c t)) }
{
    let mut changes = Changes::new(alloc);
    let own = variable.own;
    if own >= variable.count {
        return Ok(changes);
    }
    changes.note(alloc, kept, own, from, judge.judge(own))?;
    Ok(changes)
}

// The rows of these numbers that differ from the kept ones, judged anew from tick `from` on.
fn judged<S: TickSet, J: Judge<S>>(
    alloc: Global,
    kept: &KeptRows<S>,
    numbers: &[u32],
    judge: &J,
    from: u32,
) -> Result<Changes<S>, AllocError>
    requires { AscendsWithin 0 (length kept.now * 16) numbers.now }
    ensures ready { IfOk result (λ f. AreReady S.member kept.now f) }
    ensures rising { IfOk result (λ f. (to : ℕ) → AscendsWithin 0 to numbers.now → AreRising to f) }
    ensures differ { IfOk result (λ f. DoDiffer S.member kept.now f) }
    ensures rows { IfOk result (λ f. (c t : ℕ) → rows_after S.member f (row_has S.member kept.now) c t
        ≡ (if has numbers.now c && nat_le from t then J.full judge.now c t else row_has S.member kept.now c t)) }
{
    let mut changes = Changes::new(alloc);
    let mut rest = numbers;
    'numbers: while let Some((number, later)) = rest.split_first() {
        changes.note(alloc, kept, *number, from, judge.judge(*number))?;
        rest = later;
    }
    Ok(changes)
}
