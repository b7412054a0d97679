//! A formula, token by token.

ghost use Rattle.std.specs.Prelude.{◌≡◌, List, [], ◌∷◌, ◌++◌, IfOk, Some, option_map};
ghost use Rattle.formula_shape.specs.Shape.{Shape};
ghost use Rattle.ftl_parser.specs.Grammar.{term_of};
ghost use Rattle.ftl_parser.specs.inner.Machine as machine;
ghost use Rattle.ftl_parser.specs.inner.Machine.{behind, closed, term_ended, wanted, body_step, body_end, reduced, ended_formula, compared, whole_factor};
ghost use Rattle.ftl_parser.specs.Piece.{UNTIL};
ghost use Rattle.ftl_parser.specs.declared.tree.Atom.TheVariants as atoms;
ghost use Rattle.ftl_parser.specs.inner.Views.{body_of, behind_whole, in_term, body_if_taken, with_formula, piece_view, stack_of};

use crate::factor::{add_whole, lengthen};
use crate::frame::{Frame, pop, reduced};
use crate::lists::Factors;
use crate::measured::Measured;
use crate::number::{ticks, word};
use crate::phase::{Phase, spatial_step};
use crate::piece::Piece;
use crate::state::{Factor, Pair, Spatial, TermPlace};
use crate::{Atom, Term};
use case_table::Op;
use fixed_point::{BoundForm, UntilForm, Word};
use std::alloc::{AllocError, Global};
use std::mem;

// Puts a frame on the stack, which waits for a formula. The token that says so is always taken.
fn push_frame(stack: &mut Vec<Frame>, phase: &mut Phase, frame: Frame) -> Result<bool, AllocError>
    ensures { IfOk result (λ taken. body_of taken stack.new.items phase.new ≡ Some (frame ∷ stack_of stack.old.items, machine.Want)) }
{
    stack.push(frame)?;
    *phase = Phase::Want;
    Ok(true)
}

// A closing bracket after a formula.
fn closed(
    alloc: Global,
    stack: &mut Vec<Frame>,
    phase: &mut Phase,
    formula: Measured,
) -> Result<bool, AllocError>
    ensures { IfOk result (λ taken. body_of taken stack.new.items phase.new ≡ closed (reduced 1 formula (stack_of stack.old.items))) }
{
    let formula = reduced(alloc, 1, formula, stack)?;
    if pop(stack) {
        *phase = Phase::Have(formula);
        Ok(true)
    } else {
        Ok(false)
    }
}

// An until after a formula.
fn until(
    alloc: Global,
    stack: &mut Vec<Frame>,
    phase: &mut Phase,
    form: UntilForm,
    formula: Measured,
) -> Result<bool, AllocError>
    ensures { IfOk result (λ taken. body_of taken stack.new.items phase.new ≡ behind formula (stack_of stack.old.items) (UNTIL form)) }
{
    let left = reduced(alloc, 4, formula, stack)?;
    match form {
        UntilForm::Plain => push_frame(stack, phase, Frame::UntilWith(form, 0, left)),
        _ => {
            *phase = Phase::Reach(form, left);
            Ok(true)
        }
    }
}

// A token after a formula.
fn behind(
    alloc: Global,
    stack: &mut Vec<Frame>,
    phase: &mut Phase,
    formula: Measured,
    piece: Piece<'_>,
) -> Result<bool, AllocError>
    ensures { IfOk result (λ taken. body_of taken stack.new.items phase.new ≡ behind formula (stack_of stack.old.items) (piece_view piece.entry)) }
{
    match piece {
        Piece::Or => {
            let left = reduced(alloc, 1, formula, stack)?;
            push_frame(stack, phase, Frame::OrWith(left))
        }
        Piece::And => {
            let left = reduced(alloc, 2, formula, stack)?;
            push_frame(stack, phase, Frame::AndWith(left))
        }
        Piece::Until(form) => until(alloc, stack, phase, form, formula),
        Piece::Close => closed(alloc, stack, phase, formula),
        _ => Ok(false),
    }
}

fn comparison(left: Term, op: Op, right: Factors) -> Measured
    ensures { result ≡ Shape.Atom (atoms.Compare left op (term_of right)) }
{
    Measured::atom(Atom::Compare(left, op, Term { factors: right }))
}

// A token after a whole term.
fn term_ended(
    alloc: Global,
    stack: &mut Vec<Frame>,
    phase: &mut Phase,
    place: TermPlace,
    factors: Factors,
    piece: Piece<'_>,
) -> Result<bool, AllocError>
    ensures { IfOk result (λ taken. body_of taken stack.new.items phase.new ≡ term_ended (stack_of stack.old.items) place factors (piece_view piece.entry)) }
{
    match place {
        TermPlace::Left => match piece {
            Piece::Comparison(op) => {
                let place = TermPlace::Right(Term { factors }, op);
                *phase = Phase::InTerm(place, Factors::new(alloc), Factor::First);
                Ok(true)
            }
            _ => Ok(false),
        },
        TermPlace::Right(left, op) => {
            behind(alloc, stack, phase, comparison(left, op, factors), piece)
        }
        TermPlace::Assigned(name) => match piece {
            Piece::CloseSquare => {
                push_frame(stack, phase, Frame::Assigning(name, Term { factors }))
            }
            _ => Ok(false),
        },
    }
}

// A token after a whole factor, which stands at the end of the others.
// Not inlined: the loop over the tokens would clear its long values for each token.
#[inline(never)]
fn factor_ended(
    alloc: Global,
    stack: &mut Vec<Frame>,
    phase: &mut Phase,
    piece: Piece<'_>,
) -> Result<bool, AllocError>
    ensures { IfOk result (λ taken. body_of taken stack.new.items phase.new ≡ behind_whole (stack_of stack.old.items) phase.old (piece_view piece.entry)) }
{
    let Phase::InTerm(_, _, last) = phase else {
        return Ok(false);
    };
    match piece {
        Piece::Plus => {
            *last = Factor::Wanted(false);
            Ok(true)
        }
        Piece::Minus => {
            *last = Factor::Wanted(true);
            Ok(true)
        }
        _ => match mem::replace(phase, Phase::Want) {
            Phase::InTerm(place, factors, _) => {
                term_ended(alloc, stack, phase, place, factors, piece)
            }
            _ => Ok(false),
        },
    }
}

// A token in a term: it makes the last factor longer, or else comes after it.
// Not inlined: the loop over the tokens would clear its long values for each token.
#[inline(never)]
fn term_step(
    alloc: Global,
    stack: &mut Vec<Frame>,
    phase: &mut Phase,
    piece: Piece<'_>,
) -> Result<bool, AllocError>
    ensures { IfOk result (λ taken. body_of taken stack.new.items phase.new ≡ in_term (stack_of stack.old.items) phase.old (piece_view piece.entry)) }
{
    let Phase::InTerm(_, factors, last) = phase else {
        return Ok(false);
    };
    if lengthen(last, piece) {
        return Ok(true);
    }
    if add_whole(factors, last)? {
        factor_ended(alloc, stack, phase, piece)
    } else {
        Ok(false)
    }
}

// The beginning of a formula.
// Not inlined: the loop over the tokens would clear its long values for each token.
#[inline(never)]
fn wanted(
    alloc: Global,
    stack: &mut Vec<Frame>,
    phase: &mut Phase,
    piece: Piece<'_>,
) -> Result<bool, AllocError>
    ensures { IfOk result (λ taken. body_of taken stack.new.items phase.new ≡ wanted (stack_of stack.old.items) (piece_view piece.entry)) }
{
    *phase = match piece {
        Piece::Truth(value) => Phase::Have(Measured::truth(value)),
        Piece::Prefix(word) => {
            stack.push(Frame::PrefixedBy(word))?;
            Phase::Want
        }
        Piece::Bounded(form) => Phase::Ticks(form),
        Piece::OpenSquare => Phase::Variable,
        Piece::Open => {
            stack.push(Frame::Bracket)?;
            Phase::Want
        }
        Piece::Inside => Phase::InSpatial(Spatial::PairOpen(Pair::Inside)),
        Piece::Outside => Phase::InSpatial(Spatial::PairOpen(Pair::Outside)),
        Piece::Dist => Phase::InSpatial(Spatial::PairOpen(Pair::Dist)),
        Piece::Sphere => Phase::InSpatial(Spatial::SphereOpen),
        _ => {
            *phase = Phase::InTerm(TermPlace::Left, Factors::new(alloc), Factor::First);
            return term_step(alloc, stack, phase, piece);
        }
    };
    Ok(true)
}

// A number of ticks after an until.
fn reached(
    stack: &mut Vec<Frame>,
    phase: &mut Phase,
    form: UntilForm,
    left: Measured,
    piece: Piece<'_>,
) -> Result<bool, AllocError>
    ensures { IfOk result (λ taken. body_of taken stack.new.items phase.new ≡ body_step (stack_of stack.old.items) (machine.Reach form left) (piece_view piece.entry)) }
{
    match piece {
        Piece::Number(number) => {
            push_frame(stack, phase, Frame::UntilWith(form, ticks(number), left))
        }
        _ => Ok(false),
    }
}

// A number of ticks after the word of a bounded form.
// Not inlined: the loop over the tokens would clear its long values for each token.
#[inline(never)]
fn bounded(
    stack: &mut Vec<Frame>,
    phase: &mut Phase,
    form: BoundForm,
    piece: Piece<'_>,
) -> Result<bool, AllocError>
    ensures { IfOk result (λ taken. body_of taken stack.new.items phase.new ≡ body_step (stack_of stack.old.items) (machine.Ticks form) (piece_view piece.entry)) }
{
    match piece {
        Piece::Number(number) => { push_frame(stack, phase, Frame::BoundedBy(form, ticks(number))) }
        _ => Ok(false),
    }
}

// The name of an assignment.
// Not inlined: the loop over the tokens would clear its long values for each token.
#[inline(never)]
fn variable(phase: &mut Phase, piece: Piece<'_>) -> bool
    ensures { (s : List machine.Frame) → body_if_taken result s phase.new ≡ body_step s machine.Variable (piece_view piece.entry) }
{
    match piece {
        Piece::Name(name) => *phase = Phase::Arrow(word(name)),
        _ => return false,
    }
    true
}

// The arrow of an assignment.
// Not inlined: the loop over the tokens would clear its long values for each token.
#[inline(never)]
fn arrow(alloc: Global, phase: &mut Phase, name: Word, piece: Piece<'_>) -> bool
    ensures { (s : List machine.Frame) → body_if_taken result s phase.new ≡ body_step s (machine.Arrow name) (piece_view piece.entry) }
{
    match piece {
        Piece::Arrow => {
            let place = TermPlace::Assigned(name);
            *phase = Phase::InTerm(place, Factors::new(alloc), Factor::First);
            true
        }
        _ => false,
    }
}

// A token after a formula that is kept with what comes next.
// Not inlined: the loop over the tokens would clear its long values for each token.
#[inline(never)]
fn formula_step(
    alloc: Global,
    stack: &mut Vec<Frame>,
    phase: &mut Phase,
    piece: Piece<'_>,
) -> Result<bool, AllocError>
    ensures { IfOk result (λ taken. body_of taken stack.new.items phase.new ≡ with_formula (stack_of stack.old.items) phase.old (piece_view piece.entry)) }
{
    match mem::replace(phase, Phase::Want) {
        Phase::Have(formula) => behind(alloc, stack, phase, formula, piece),
        Phase::Reach(form, left) => reached(stack, phase, form, left, piece),
        _ => Ok(false),
    }
}

// A token after WHERE. Says whether it is taken; what comes next stays where it stands, so that long
// values aren't moved from token to token.
pub(crate) fn body_step(
    alloc: Global,
    stack: &mut Vec<Frame>,
    phase: &mut Phase,
    piece: Piece<'_>,
) -> Result<bool, AllocError>
    ensures { IfOk result (λ taken. body_of taken stack.new.items phase.new ≡ body_step (stack_of stack.old.items) phase.old (piece_view piece.entry)) }
{
    match phase {
        Phase::Want => wanted(alloc, stack, phase, piece),
        Phase::Have(_) | Phase::Reach(..) => formula_step(alloc, stack, phase, piece),
        Phase::Ticks(form) => {
            let form = *form;
            bounded(stack, phase, form, piece)
        }
        Phase::Variable => Ok(variable(phase, piece)),
        Phase::Arrow(name) => {
            let name = *name;
            Ok(arrow(alloc, phase, name, piece))
        }
        Phase::InTerm(..) => term_step(alloc, stack, phase, piece),
        Phase::InSpatial(_) => spatial_step(alloc, phase, piece),
    }
}

// The formula, where the stack has nothing that waits for another one.
fn alone(
    alloc: Global,
    formula: Measured,
    stack: &mut Vec<Frame>,
) -> Result<Option<Measured>, AllocError>
    ensures { IfOk result (λ r. r ≡ ended_formula (reduced 1 formula (stack_of stack.old.items))) }
{
    let formula = reduced(alloc, 1, formula, stack)?;
    if pop(stack) {
        Ok(None)
    } else {
        Ok(Some(formula))
    }
}

// The formula whose last atom is this comparison, where its last factor is whole.
fn compared(
    alloc: Global,
    stack: &mut Vec<Frame>,
    left: Term,
    op: Op,
    mut factors: Factors,
    last: &Factor,
) -> Result<Option<Measured>, AllocError>
    ensures { IfOk result (λ r. r ≡ compared (stack_of stack.old.items) left op factors (whole_factor last.now)) }
{
    if add_whole(&mut factors, last)? {
        alone(alloc, comparison(left, op, factors), stack)
    } else {
        Ok(None)
    }
}

// The formula, where the tokens may end here.
pub(crate) fn body_end(
    alloc: Global,
    stack: &mut Vec<Frame>,
    phase: Phase,
) -> Result<Option<Measured>, AllocError>
    ensures { IfOk result (λ r. r ≡ body_end (stack_of stack.old.items) phase) }
{
    match phase {
        Phase::Have(formula) => alone(alloc, formula, stack),
        Phase::InTerm(place, factors, last) => match place {
            TermPlace::Right(left, op) => compared(alloc, stack, left, op, factors, &last),
            _ => Ok(None),
        },
        _ => Ok(None),
    }
}
