//! A query, token by token.

ghost use Rattle.std.specs.Prelude.{◌≡◌, [], ◌∷◌, ◌++◌, IfOk, option_map};
ghost use Rattle.ftl_parser.specs.inner.Machine.{heading_step, step_by_token, ended_query, body_end};
ghost use Rattle.ftl_parser.specs.inner.Views.{kept_view, piece_view, spelled_view, stack_of, state_if_taken};

use crate::FromPart;
use crate::body::{body_end, body_step};
use crate::frame::Frame;
use crate::lists::{FromParts, Names};
use crate::measured::Measured;
use crate::number::word;
use crate::phase::Phase;
use crate::piece::Piece;
use crate::state::Head;
use std::alloc::{AllocError, Global};

/// What is read of a query: before WHERE, or after it.
#[derive(Drop)]
pub(crate) enum State {
    Heading(Head),
    Within(Phase),
}

/// The lists of a query that is read.
#[derive(Drop)]
pub(crate) struct Kept {
    pub(crate) targets: Names,
    pub(crate) from: FromParts,
    pub(crate) stack: Vec<Frame>,
}

/// A query that is spelled, with the sizes of its formula.
#[derive(Drop)]
pub(crate) struct Spelled {
    pub(crate) targets: Names,
    pub(crate) from: FromParts,
    pub(crate) formula: Measured,
}

// A token before WHERE.
// Not inlined: the loop over the tokens would clear its long values for each token.
#[inline(never)]
fn heading_step(kept: &mut Kept, head: &Head, piece: Piece<'_>) -> Result<Option<State>, AllocError>
    ensures { IfOk result (λ r. option_map (kept_view kept.new) r ≡ heading_step head.now kept.old.targets kept.old.from (piece_view piece.entry)) }
{
    let next = match (head, piece) {
        (Head::Start, Piece::Retrieve) => Head::Target,
        (Head::Target, Piece::Name(name)) => {
            kept.targets.push(word(name))?;
            Head::Targets
        }
        (Head::Targets, Piece::Comma) => Head::Target,
        (Head::Targets, Piece::From) => Head::Class,
        (Head::Class, Piece::Name(class)) => Head::Var(word(class)),
        (Head::Var(class), Piece::Name(name)) => {
            let var = word(name);
            kept.from.push(FromPart { class: *class, var })?;
            Head::Parts
        }
        (Head::Parts, Piece::Comma) => Head::Class,
        (Head::Parts, Piece::Where) => {
            kept.stack.clear();
            return Ok(Some(State::Within(Phase::Want)));
        }
        _ => return Ok(None),
    };
    Ok(Some(State::Heading(next)))
}

// A token. Says whether it is taken.
pub(crate) fn step(
    alloc: Global,
    kept: &mut Kept,
    state: &mut State,
    piece: Piece<'_>,
) -> Result<bool, AllocError>
    ensures { IfOk result (λ taken. state_if_taken taken kept.new state.new ≡ step_by_token (kept_view kept.old state.old) (piece_view piece.entry)) }
{
    match state {
        State::Heading(head) => match heading_step(kept, head, piece)? {
            Some(next) => {
                *state = next;
                Ok(true)
            }
            None => Ok(false),
        },
        State::Within(phase) => body_step(alloc, &mut kept.stack, phase, piece),
    }
}

// The query, where the tokens may end here.
pub(crate) fn ended(alloc: Global, kept: Kept, state: State) -> Result<Option<Spelled>, AllocError>
    ensures { IfOk result (λ r. option_map spelled_view r ≡ ended_query (kept_view kept state)) }
{
    let Kept {
        targets,
        from,
        mut stack,
    } = kept;
    match state {
        State::Heading(_) => Ok(None),
        State::Within(phase) => match body_end(alloc, &mut stack, phase)? {
            Some(formula) => Ok(Some(Spelled {
                targets,
                from,
                formula,
            })),
            None => Ok(None),
        },
    }
}
