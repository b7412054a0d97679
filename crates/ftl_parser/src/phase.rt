//! What comes next in a formula.

ghost use Rattle.std.specs.Prelude.{◌≡◌, List, Some, IfOk};
ghost use Rattle.formula_shape.specs.Shape.{Shape};
ghost use Rattle.ftl_parser.specs.inner.Machine as machine;
ghost use Rattle.ftl_parser.specs.inner.Machine.{body_step, spatial_step};
ghost use Rattle.ftl_parser.specs.Piece.{CLOSE};
ghost use Rattle.ftl_parser.specs.declared.state.Spatial.TheVariants as spatials;
ghost use Rattle.ftl_parser.specs.inner.Views.{piece_view, body_if_taken, HasNames, IsCircle, IsDist, IsPair, IsPlain, IsSpatial};

use crate::Atom;
use crate::lists::{Factors, Names};
use crate::measured::Measured;
use crate::number::{literal, negated, radius, word};
use crate::piece::Piece;
use crate::state::{Factor, Pair, Spatial, TermPlace};
use case_table::Op;
use fixed_point::{BoundForm, Fix, UntilForm, Word};
use std::alloc::{AllocError, Global};
use std::mem;

#[derive(Drop)]
pub(crate) enum Phase {
    /// A formula.
    Want,
    /// An operator, a closing bracket or the end, after a formula.
    Have(Measured),
    /// The number of ticks of an until, whose left side is there.
    Reach(UntilForm, Measured),
    /// The number of ticks of a bounded form.
    Ticks(BoundForm),
    /// The name of an assignment.
    Variable,
    /// The arrow of an assignment.
    Arrow(Word),
    /// What is left of a term, by where it stands, the factors before the last one, and that.
    InTerm(TermPlace, Factors, Factor),
    /// What is left of an atom that begins with its word.
    InSpatial(Spatial),
}

fn have(atom: Atom) -> Phase
    ensures { result ≡ machine.Have (Shape.Atom atom) }
{
    Phase::Have(Measured::atom(atom))
}

// What comes next after the closing bracket after two names.
fn pair_closed(pair: Pair, first: Word, second: Word) -> Phase
    ensures { spatial_step (spatials.PairClose pair first second) CLOSE ≡ Some result }
{
    match pair {
        Pair::Inside => have(Atom::Inside(first, second)),
        Pair::Outside => have(Atom::Outside(first, second)),
        Pair::Dist => Phase::InSpatial(Spatial::DistOp(first, second)),
    }
}

// What comes next after a token in the brackets round two names.
fn pair_step(at: &Spatial, piece: Piece<'_>) -> Option<Phase>
    requires { IsPair at.now }
    ensures { result ≡ spatial_step at.now (piece_view piece.entry) }
{
    let next = match (at, piece) {
        (Spatial::PairOpen(pair), Piece::Open) => Spatial::PairFirst(*pair),
        (Spatial::PairFirst(pair), Piece::Name(name)) => Spatial::PairComma(*pair, word(name)),
        (Spatial::PairComma(pair, first), Piece::Comma) => Spatial::PairSecond(*pair, *first),
        (Spatial::PairSecond(pair, first), Piece::Name(name)) => {
            Spatial::PairClose(*pair, *first, word(name))
        }
        (Spatial::PairClose(pair, first, second), Piece::Close) => {
            return Some(pair_closed(*pair, *first, *second));
        }
        _ => return None,
    };
    Some(Phase::InSpatial(next))
}

// What comes next after a token behind the names of a distance.
fn dist_step(at: &Spatial, piece: Piece<'_>) -> Option<Phase>
    requires { IsDist at.now }
    ensures { result ≡ spatial_step at.now (piece_view piece.entry) }
{
    match (at, piece) {
        (Spatial::DistOp(first, second), Piece::Comparison(op)) => {
            Some(Phase::InSpatial(Spatial::DistNum(*first, *second, op)))
        }
        (Spatial::DistNum(first, second, op), Piece::Number(number)) => {
            Some(have(Atom::Dist(*first, *second, *op, literal(number))))
        }
        (Spatial::DistNum(first, second, op), Piece::Minus) => {
            Some(Phase::InSpatial(Spatial::DistMinus(*first, *second, *op)))
        }
        (Spatial::DistMinus(first, second, op), Piece::Number(number)) => {
            Some(have(Atom::Dist(*first, *second, *op, negated(literal(number)))))
        }
        _ => None,
    }
}

// What comes next after a token before the names of a circle.
fn circle_step(alloc: Global, at: &Spatial, piece: Piece<'_>) -> Option<Phase>
    requires { IsCircle at.now }
    ensures { result ≡ spatial_step at.now (piece_view piece.entry) }
{
    let next = match (at, piece) {
        (Spatial::SphereOpen, Piece::Open) => Spatial::SphereRadius,
        (Spatial::SphereRadius, Piece::Number(number)) => Spatial::SphereComma(radius(number)),
        (Spatial::SphereComma(radius), Piece::Comma) => {
            Spatial::SphereName(*radius, Names::new(alloc))
        }
        _ => return None,
    };
    Some(Phase::InSpatial(next))
}

// A token where names of a circle are read.
// Not inlined: the loop over the tokens would clear its long values for each token.
#[inline(never)]
fn names_step(phase: &mut Phase, piece: Piece<'_>) -> Result<bool, AllocError>
    requires { HasNames phase.old }
    ensures { IfOk result (λ taken. (s : List machine.Frame) → body_if_taken taken s phase.new ≡ body_step s phase.old (piece_view piece.entry)) }
{
    let Phase::InSpatial(at) = phase else {
        return Ok(false);
    };
    match mem::replace(at, Spatial::SphereOpen) {
        Spatial::SphereName(radius, mut names) => match piece {
            Piece::Name(name) => {
                names.push(word(name))?;
                *at = Spatial::SphereNames(radius, names);
                Ok(true)
            }
            _ => Ok(false),
        },
        Spatial::SphereNames(radius, names) => match piece {
            Piece::Comma => {
                *at = Spatial::SphereName(radius, names);
                Ok(true)
            }
            Piece::Close => {
                *phase = have(Atom::Sphere(radius, names));
                Ok(true)
            }
            _ => Ok(false),
        },
        _ => Ok(false),
    }
}

// What comes next after a token in an atom that begins with its word, where no names of a circle are read.
fn plain_step(alloc: Global, at: &Spatial, piece: Piece<'_>) -> Option<Phase>
    requires { IsPlain at.now }
    ensures { result ≡ spatial_step at.now (piece_view piece.entry) }
{
    match at {
        Spatial::DistOp(..) | Spatial::DistNum(..) | Spatial::DistMinus(..) => dist_step(at, piece),
        Spatial::SphereOpen | Spatial::SphereRadius | Spatial::SphereComma(_) => {
            circle_step(alloc, at, piece)
        }
        _ => pair_step(at, piece),
    }
}

// A token in an atom that begins with its word.
// Not inlined: the loop over the tokens would clear its long values for each token.
#[inline(never)]
pub(crate) fn spatial_step(
    alloc: Global,
    phase: &mut Phase,
    piece: Piece<'_>,
) -> Result<bool, AllocError>
    requires { IsSpatial phase.old }
    ensures { IfOk result (λ taken. (s : List machine.Frame) → body_if_taken taken s phase.new ≡ body_step s phase.old (piece_view piece.entry)) }
{
    let next = match phase {
        Phase::InSpatial(Spatial::SphereName(..) | Spatial::SphereNames(..)) => {
            return names_step(phase, piece);
        }
        Phase::InSpatial(at) => plain_step(alloc, at, piece),
        _ => None,
    };
    match next {
        Some(next) => {
            *phase = next;
            Ok(true)
        }
        None => Ok(false),
    }
}
