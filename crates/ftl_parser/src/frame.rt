//! What waits for a formula on its right.

ghost use Rattle.std.specs.Prelude.{◌≡◌, ◌≤◌, [], ◌∷◌, IfOk, OnOk, MatchBool, MatchOption};
ghost use Rattle.ftl_parser.specs.inner.Machine.{precedence, filled, reduced};
ghost use Rattle.ftl_parser.specs.inner.Views.{stack_of, SomeIsOnTop, StaysBelow};

use crate::Term;
use crate::measured::Measured;
use crate::prefix::Prefix;
use fixed_point::{BoundForm, UntilForm, Word};
use std::alloc::{AllocError, Global};

/// An open bracket, or an operator with what stands to its left.
#[derive(Drop)]
pub(crate) enum Frame {
    Bracket,
    OrWith(Measured),
    AndWith(Measured),
    UntilWith(UntilForm, u32, Measured),
    PrefixedBy(Prefix),
    BoundedBy(BoundForm, u32),
    Assigning(Word, Term),
}

// How strongly a frame binds.
fn rank(frame: &Frame) -> u8
    ensures { result ≡ precedence frame.now }
{
    match frame {
        Frame::Bracket => 0,
        Frame::OrWith(_) => 1,
        Frame::AndWith(_) => 2,
        Frame::UntilWith(..) => 3,
        _ => 4,
    }
}

// The formula of a frame with this one on its right.
fn filled(alloc: Global, frame: Frame, right: Measured) -> Result<Measured, AllocError>
    ensures { IfOk result (λ m. m ≡ filled frame right) }
{
    match frame {
        Frame::Bracket => Ok(right),
        Frame::OrWith(left) => left.or(alloc, right),
        Frame::AndWith(left) => left.and(alloc, right),
        Frame::UntilWith(form, ticks, left) => left.until(alloc, form, ticks, right),
        Frame::PrefixedBy(word) => right.prefixed(alloc, word),
        Frame::BoundedBy(form, ticks) => right.bounded(alloc, form, ticks),
        Frame::Assigning(name, term) => right.assigned(alloc, name, term),
    }
}

// Takes the topmost frame, where it binds at least so strongly.
fn pop_from(stack: &mut Vec<Frame>, least: u8) -> Option<Frame>
    ensures { MatchOption result ((stack_of stack.new.items ≡ stack_of stack.old.items) × StaysBelow least (stack_of stack.old.items))
        (λ w. (stack_of stack.old.items ≡ w ∷ stack_of stack.new.items) × (least ≤ precedence w)) }
{
    match stack.last() {
        Some(top) if rank(top) >= least => stack.pop(),
        _ => None,
    }
}

// The formula with all topmost frames that bind at least so strongly.
pub(crate) fn reduced(
    alloc: Global,
    least: u8,
    formula: Measured,
    stack: &mut Vec<Frame>,
) -> Result<Measured, AllocError>
    ensures value { IfOk result (λ m. reduced least formula (stack_of stack.old.items) ≡ (m, stack_of stack.new.items)) }
    ensures below { OnOk result (StaysBelow least (stack_of stack.new.items)) }
{
    let mut formula = formula;
    while let Some(frame) = pop_from(stack, least) {
        formula = filled(alloc, frame, formula)?;
    }
    Ok(formula)
}

// Takes the topmost frame. Says whether there was one.
pub(crate) fn pop(stack: &mut Vec<Frame>) -> bool
    ensures { MatchBool result (SomeIsOnTop (stack_of stack.old.items) (stack_of stack.new.items))
        (stack_of stack.old.items ≡ []) }
{
    stack.pop().is_some()
}
