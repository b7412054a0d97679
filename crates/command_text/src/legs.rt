//! Functions of several legs.
ghost use Rattle.std.specs.Prelude.{◌≡◌, Some, option_map, IfOk, MatchResult};
ghost use Rattle.command_text.specs.Sizes.{function_of};
ghost use Rattle.command_text.specs.inner.Reading.{rate_leg, rates, move_leg, moves, all, begins};
ghost use Rattle.command_text.specs.Grammar.{legs_of_x, legs_of_y};
ghost use Rattle.command_text.specs.inner.Tests.{is_sign};
ghost use Rattle.case_table.specs.declared.symbol.TheConstants.{OPEN_SQUARE};
ghost use Rattle.command_text.specs.inner.Standing.{standing, StopsPart};

use crate::at::{At, begins_sign, noting_small, sign};
use crate::fault::{CommandFault, bad_syntax};
use crate::numbers::{slope, ticks};
use crate::parts::slopes;
use case_table::symbol;
use fixed_point::Slope;
use ftl_lexer::Tokens;
use motion::{Legs, MOST_FIRSTS};
use std::alloc::{AllocError, Global};

/// The function of these legs; rest where they make none.
fn function_of(firsts: &[(Slope, u32)], last: Slope) -> Legs
    ensures { result ≡ function_of firsts.now last }
{
    match Legs::of(firsts, last) {
        Some(legs) => legs,
        None => Legs::steady(Slope::of(0).unwrap()),
    }
}

/// A leg that ends.
#[tactic(auto, unfolding(crate::specs::inner::Reading::rate_leg))]
fn rate_leg(tokens: &Tokens, at: At) -> Option<((Slope, u32), At)>
    ensures { option_map (λ r. (r.0, standing tokens.now r.1)) result ≡ rate_leg (standing tokens.now at) }
{
    let at = sign(tokens, at, symbol::OPEN_SQUARE)?;
    let (slope, at) = slope(tokens, at)?;
    let at = sign(tokens, at, symbol::COMMA)?;
    let (length, at) = ticks(tokens, at)?;
    let at = sign(tokens, at, symbol::CLOSE_SQUARE)?;
    Some(((slope, length), at))
}

/// A leg of both coordinates that ends.
#[tactic(auto, unfolding(crate::specs::inner::Reading::move_leg))]
fn move_leg(tokens: &Tokens, at: At) -> Option<(((Slope, Slope), u32), At)>
    ensures { option_map (λ r. (r.0, standing tokens.now r.1)) result ≡ move_leg (standing tokens.now at) }
{
    let at = sign(tokens, at, symbol::OPEN_SQUARE)?;
    let (both, at) = slopes(tokens, at)?;
    let at = sign(tokens, at, symbol::COMMA)?;
    let (length, at) = ticks(tokens, at)?;
    let at = sign(tokens, at, symbol::CLOSE_SQUARE)?;
    Some(((both, length), at))
}

/// As many legs that end as there are.
#[tactic(auto, using(crate::proofs::grammar::ManyLemmas::loop_steps, crate::proofs::grammar::Derived::rate_leg_shortens))]
fn rate_legs(
    alloc: Global,
    tokens: &Tokens,
    start: At,
) -> Result<(Vec<(Slope, u32)>, At), CommandFault>
    ensures { MatchResult result (λ r. all (begins (is_sign OPEN_SQUARE)) rate_leg (standing tokens.now start) ≡ Some (r.0.items, standing tokens.now r.1))
        (StopsPart (all (begins (is_sign OPEN_SQUARE)) rate_leg (standing tokens.now start))) }
{
    let mut firsts = Vec::new(alloc);
    let mut at = start;
    'legs: while begins_sign(tokens, at, symbol::OPEN_SQUARE) {
        let Some((leg, behind)) = rate_leg(tokens, at) else {
            return Err(bad_syntax());
        };
        firsts.push(leg)?;
        at = behind;
    }
    Ok((firsts, at))
}

/// The legs of one coordinate.
#[tactic(auto, using(crate::proofs::reader::Stopping::stop_steps), unfolding(crate::specs::inner::Reading::rates))]
pub(crate) fn rates(alloc: Global, tokens: &Tokens, at: At) -> Result<(Legs, At), CommandFault>
    ensures { MatchResult result (λ r. rates (standing tokens.now at) ≡ Some (r.0, standing tokens.now r.1))
        (StopsPart (rates (standing tokens.now at))) }
{
    let (firsts, at) = rate_legs(alloc, tokens, at)?;
    let Some((last, at)) = slope(tokens, at) else {
        return Err(bad_syntax());
    };
    let at = noting_small(at, firsts.len() <= MOST_FIRSTS);
    Ok((function_of(&firsts, last), at))
}

/// As many legs that end as there are.
#[tactic(auto, using(crate::proofs::grammar::ManyLemmas::loop_steps, crate::proofs::grammar::Derived::move_leg_shortens))]
fn move_legs(
    alloc: Global,
    tokens: &Tokens,
    start: At,
) -> Result<(Vec<((Slope, Slope), u32)>, At), CommandFault>
    ensures { MatchResult result (λ r. all (begins (is_sign OPEN_SQUARE)) move_leg (standing tokens.now start) ≡ Some (r.0.items, standing tokens.now r.1))
        (StopsPart (all (begins (is_sign OPEN_SQUARE)) move_leg (standing tokens.now start))) }
{
    let mut firsts = Vec::new(alloc);
    let mut at = start;
    'legs: while begins_sign(tokens, at, symbol::OPEN_SQUARE) {
        let Some((leg, behind)) = move_leg(tokens, at) else {
            return Err(bad_syntax());
        };
        firsts.push(leg)?;
        at = behind;
    }
    Ok((firsts, at))
}

/// Of legs of both coordinates those of x.
fn legs_of_x(alloc: Global, legs: &[((Slope, Slope), u32)]) -> Result<Vec<(Slope, u32)>, AllocError>
    ensures { IfOk result (λ v. v.items ≡ legs_of_x legs.now) }
{
    legs.iter().map(|leg| (leg.0.0, leg.1)).collect(alloc)
}

/// Of legs of both coordinates those of y.
fn legs_of_y(alloc: Global, legs: &[((Slope, Slope), u32)]) -> Result<Vec<(Slope, u32)>, AllocError>
    ensures { IfOk result (λ v. v.items ≡ legs_of_y legs.now) }
{
    legs.iter().map(|leg| (leg.0.1, leg.1)).collect(alloc)
}

/// The functions of both coordinates; rest where there is none.
fn functions_of(
    alloc: Global,
    firsts: &[((Slope, Slope), u32)],
    last: (Slope, Slope),
) -> Result<(Legs, Legs), AllocError>
    ensures { IfOk result (λ both. both ≡ (function_of (legs_of_x firsts.now) last.0, function_of (legs_of_y firsts.now) last.1)) }
{
    let x = legs_of_x(alloc, firsts)?;
    let y = legs_of_y(alloc, firsts)?;
    Ok((function_of(&x, last.0), function_of(&y, last.1)))
}

/// The legs of both coordinates.
#[tactic(auto, using(crate::proofs::reader::Stopping::stop_steps), unfolding(crate::specs::inner::Reading::moves))]
pub(crate) fn moves(
    alloc: Global,
    tokens: &Tokens,
    at: At,
) -> Result<((Legs, Legs), At), CommandFault>
    ensures { MatchResult result (λ r. moves (standing tokens.now at) ≡ Some (r.0, standing tokens.now r.1))
        (StopsPart (moves (standing tokens.now at))) }
{
    let (firsts, at) = move_legs(alloc, tokens, at)?;
    let Some((last, at)) = slopes(tokens, at) else {
        return Err(bad_syntax());
    };
    let both = functions_of(alloc, &firsts, last)?;
    Ok((both, noting_small(at, firsts.len() <= MOST_FIRSTS)))
}
