//! How far ahead a formula sees.

ghost use Rattle.std.specs.Prelude.{◌≡◌};
ghost use Rattle.formula.specs.Reach.{bounded_reach, counted, farther, further, reach, until_reach};
ghost use Rattle.formula.specs.Tree.{formula_view};

use crate::RFormula;
use fixed_point::{BoundForm, UntilForm};

// So many ticks more.
fn further(ticks: u32, part: Option<u32>) -> Option<u32>
    ensures { result ≡ counted (further ticks part) }
{
    match part {
        Some(ahead) => Some(ticks.saturating_add(ahead)),
        None => None,
    }
}

// The greater of two.
fn farther(left: Option<u32>, right: Option<u32>) -> Option<u32>
    ensures { result ≡ farther left right }
{
    match (left, right) {
        (Some(left), Some(right)) => Some(left.max(right)),
        _ => None,
    }
}

fn bounded(form: BoundForm, ticks: u32, part: Option<u32>) -> Option<u32>
    ensures { result ≡ counted (bounded_reach form ticks part) }
{
    match form {
        BoundForm::Within | BoundForm::Always => further(ticks, part),
        BoundForm::After => None,
    }
}

fn until(form: UntilForm, ticks: u32, parts: Option<u32>) -> Option<u32>
    ensures { result ≡ counted (until_reach form ticks parts) }
{
    match form {
        UntilForm::Within => further(ticks, parts),
        UntilForm::Plain | UntilForm::After => None,
    }
}

/// How many ticks ahead of its own tick a formula sees, `None` where it sees up to the last tick that counts.
/// What is more than a `u32` has stays at the largest one. By one walk, without memory.
#[tactic(auto, using(crate::proofs::ReachLemmas::counts))]
pub fn reach_of(f: &RFormula) -> Option<u32>
    ensures { result ≡ counted (reach (formula_view f.now)) }
{
    match f {
        RFormula::Truth(_) | RFormula::Atom(_) => Some(0),
        RFormula::Not(part) => reach_of(part),
        RFormula::And(left, right) => farther(reach_of(left), reach_of(right)),
        RFormula::Or(left, right) => farther(reach_of(left), reach_of(right)),
        RFormula::Next(part) => further(1, reach_of(part)),
        RFormula::Eventually(_) | RFormula::Always(_) => None,
        RFormula::Bounded(form, ticks, part) => bounded(*form, *ticks, reach_of(part)),
        RFormula::Until(form, ticks, left, right) => {
            until(*form, *ticks, farther(reach_of(left), reach_of(right)))
        }
        RFormula::Assign(_, _, part) => reach_of(part),
    }
}
