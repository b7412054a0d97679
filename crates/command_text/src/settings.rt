//! What an insert or an update gives.
ghost use Rattle.std.specs.Prelude.{◌≡◌, false, Some, option_map, MatchResult};
ghost use Rattle.case_table.specs.declared.symbol.TheConstants.{OPEN_SQUARE};
ghost use Rattle.command_text.specs.inner.Tests.{is_sign};
ghost use Rattle.command_text.specs.Tree.{moving_view, placement_view};
ghost use Rattle.command_text.specs.inner.Reading.{rate, given_both, given_value, given_text, given_rate, given_equal, given, setting, settings, at as placed, begins, moves, given_moves, some_moves, moving, place};
ghost use Rattle.command_text.specs.inner.Standing.{standing, StopsPart};

use crate::at::{At, begins_key, begins_name, begins_sign, begins_text, key, noting_small, sign};
use crate::fault::{CommandFault, bad_syntax};
use crate::legs::{moves, rates};
use crate::lists::Settings;
use crate::numbers::{name, text, value};
use crate::parts::{point, slopes};
use crate::placement::{Moving, Placement};
use case_table::{key, symbol};
use fixed_point::{Fix, Point};
use ftl_lexer::Tokens;
use motion::{Given, Legs, NamedSet};
use std::alloc::Global;

/// The legs after `rate`.
#[tactic(auto, using(crate::proofs::reader::Stopping::stop_steps), unfolding(crate::specs::inner::Reading::rate))]
fn rate(alloc: Global, tokens: &Tokens, at: At) -> Result<(Legs, At), CommandFault>
    ensures { MatchResult result (λ r. rate (standing tokens.now at) ≡ Some (r.0, standing tokens.now r.1))
        (StopsPart (rate (standing tokens.now at))) }
{
    let Some(at) = key(tokens, at, key::RATE) else {
        return Err(bad_syntax());
    };
    rates(alloc, tokens, at)
}

/// A value and the legs after it.
#[tactic(auto, using(crate::proofs::reader::Stopping::stop_steps), unfolding(crate::specs::inner::Reading::given_both))]
fn given_both(
    alloc: Global,
    tokens: &Tokens,
    value: Fix,
    at: At,
) -> Result<(Given, At), CommandFault>
    ensures { MatchResult result (λ r. given_both value (standing tokens.now at) ≡ Some (r.0, standing tokens.now r.1))
        (StopsPart (given_both value (standing tokens.now at))) }
{
    let (legs, at) = rate(alloc, tokens, at)?;
    Ok((Given::Both(value, legs), at))
}

/// A value, and legs where `rate` follows.
#[tactic(auto, using(crate::proofs::reader::Stopping::stop_steps), unfolding(crate::specs::inner::Reading::given_value))]
fn given_value(alloc: Global, tokens: &Tokens, at: At) -> Result<(Given, At), CommandFault>
    ensures { MatchResult result (λ r. given_value (standing tokens.now at) ≡ Some (r.0, standing tokens.now r.1))
        (StopsPart (given_value (standing tokens.now at))) }
{
    let Some((value, at)) = value(tokens, at) else {
        return Err(bad_syntax());
    };
    if begins_key(tokens, at, key::RATE) {
        given_both(alloc, tokens, value, at)
    } else {
        Ok((Given::Num(value), at))
    }
}

#[tactic(auto, using(crate::proofs::reader::Stopping::stop_steps), unfolding(crate::specs::inner::Reading::given_text))]
fn given_text(tokens: &Tokens, at: At) -> Result<(Given, At), CommandFault>
    ensures { MatchResult result (λ r. given_text (standing tokens.now at) ≡ Some (r.0, standing tokens.now r.1))
        (StopsPart (given_text (standing tokens.now at))) }
{
    match text(tokens, at) {
        Some((text, at)) => Ok((Given::Text(text), at)),
        None => Err(bad_syntax()),
    }
}

#[tactic(auto, using(crate::proofs::reader::Stopping::stop_steps), unfolding(crate::specs::inner::Reading::given_rate))]
fn given_rate(alloc: Global, tokens: &Tokens, at: At) -> Result<(Given, At), CommandFault>
    ensures { MatchResult result (λ r. given_rate (standing tokens.now at) ≡ Some (r.0, standing tokens.now r.1))
        (StopsPart (given_rate (standing tokens.now at))) }
{
    let (legs, at) = rate(alloc, tokens, at)?;
    Ok((Given::Rate(legs), at))
}

#[tactic(auto, using(crate::proofs::reader::Stopping::stop_steps), unfolding(crate::specs::inner::Reading::given_equal))]
fn given_equal(alloc: Global, tokens: &Tokens, at: At) -> Result<(Given, At), CommandFault>
    ensures { MatchResult result (λ r. given_equal (standing tokens.now at) ≡ Some (r.0, standing tokens.now r.1))
        (StopsPart (given_equal (standing tokens.now at))) }
{
    let Some(at) = sign(tokens, at, symbol::EQUAL) else {
        return Err(bad_syntax());
    };
    if begins_text(tokens, at) {
        given_text(tokens, at)
    } else {
        given_value(alloc, tokens, at)
    }
}

/// What a setting gives, after its name.
#[tactic(auto, using(crate::proofs::reader::Stopping::stop_steps), unfolding(crate::specs::inner::Reading::given))]
fn given(alloc: Global, tokens: &Tokens, at: At) -> Result<(Given, At), CommandFault>
    ensures { MatchResult result (λ r. given (standing tokens.now at) ≡ Some (r.0, standing tokens.now r.1))
        (StopsPart (given (standing tokens.now at))) }
{
    if begins_key(tokens, at, key::RATE) {
        given_rate(alloc, tokens, at)
    } else {
        given_equal(alloc, tokens, at)
    }
}

#[tactic(auto, using(crate::proofs::reader::Stopping::stop_steps), unfolding(crate::specs::inner::Reading::setting))]
fn setting(alloc: Global, tokens: &Tokens, at: At) -> Result<(NamedSet, At), CommandFault>
    ensures { MatchResult result (λ r. setting (standing tokens.now at) ≡ Some (r.0, standing tokens.now r.1))
        (StopsPart (setting (standing tokens.now at))) }
{
    let Some((name, at)) = name(tokens, at) else {
        return Err(bad_syntax());
    };
    let (given, at) = given(alloc, tokens, at)?;
    Ok((NamedSet { name, given }, at))
}

/// As many settings as there are.
#[tactic(auto, using(crate::proofs::grammar::ManyLemmas::loop_steps, crate::proofs::grammar::Derived::setting_shortens))]
pub(crate) fn settings(
    alloc: Global,
    tokens: &Tokens,
    start: At,
) -> Result<(Settings, At), CommandFault>
    ensures { MatchResult result (λ r. settings (standing tokens.now start) ≡ Some (r.0, standing tokens.now r.1))
        (StopsPart (settings (standing tokens.now start))) }
{
    let mut sets = Settings::new(alloc);
    let mut at = start;
    'settings: while begins_name(tokens, at) {
        match setting(alloc, tokens, at) {
            Ok((set, behind)) => {
                sets.push(set)?;
                at = behind;
            }
            Err(fault) => return Err(fault),
        }
    }
    Ok((sets, at))
}

#[tactic(auto, unfolding(crate::specs::inner::Reading::at))]
fn position(tokens: &Tokens, at: At) -> Option<(Option<Point>, At)>
    ensures { option_map (λ r. (r.0, standing tokens.now r.1)) result ≡ placed (standing tokens.now at) }
{
    if begins_key(tokens, at, key::AT) {
        let at = key(tokens, at, key::AT)?;
        let (point, at) = point(tokens, at)?;
        Some((Some(point), at))
    } else {
        Some((None, at))
    }
}

/// The legs of both coordinates, of which the first ends.
#[tactic(auto, using(crate::proofs::reader::Stopping::stop_steps))]
fn turning(alloc: Global, tokens: &Tokens, at: At) -> Result<(Moving, At), CommandFault>
    ensures { MatchResult result (λ r. given_moves (moves (standing tokens.now at)) ≡ Some (moving_view r.0, standing tokens.now r.1))
        (StopsPart (moves (standing tokens.now at))) }
{
    let (both, at) = moves(alloc, tokens, at)?;
    Ok((Moving::Turning(Box::new(alloc, both)?), at))
}

/// The one leg of both coordinates, where none ends.
#[tactic(auto, using(crate::proofs::grammar::ManyLemmas::steady_moves))]
fn steady(tokens: &Tokens, at: At) -> Option<(Moving, At)>
    requires { begins (is_sign OPEN_SQUARE) (standing tokens.now at) ≡ false }
    ensures { option_map (λ r. (moving_view r.0, standing tokens.now r.1)) result ≡ given_moves (moves (standing tokens.now at)) }
{
    let ((x, y), at) = slopes(tokens, at)?;
    // One leg is no more than there may be.
    Some((Moving::Steady(x, y), noting_small(at, true)))
}

/// The legs after `move`.
#[tactic(auto, using(crate::proofs::reader::Stopping::stop_steps), unfolding(crate::specs::inner::Reading::some_moves))]
fn some_moves(alloc: Global, tokens: &Tokens, at: At) -> Result<(Moving, At), CommandFault>
    ensures { MatchResult result (λ r. some_moves (standing tokens.now at) ≡ Some (moving_view r.0, standing tokens.now r.1))
        (StopsPart (some_moves (standing tokens.now at))) }
{
    let Some(at) = key(tokens, at, key::MOVE) else {
        return Err(bad_syntax());
    };
    if begins_sign(tokens, at, symbol::OPEN_SQUARE) {
        return turning(alloc, tokens, at);
    }
    match steady(tokens, at) {
        Some(both) => Ok(both),
        None => Err(bad_syntax()),
    }
}

#[tactic(auto, using(crate::proofs::reader::Stopping::stop_steps), unfolding(crate::specs::inner::Reading::moving))]
fn moving(alloc: Global, tokens: &Tokens, at: At) -> Result<(Moving, At), CommandFault>
    ensures { MatchResult result (λ r. moving (standing tokens.now at) ≡ Some (moving_view r.0, standing tokens.now r.1))
        (StopsPart (moving (standing tokens.now at))) }
{
    if begins_key(tokens, at, key::MOVE) {
        some_moves(alloc, tokens, at)
    } else {
        Ok((Moving::Unset, at))
    }
}

/// Where an object is, and how it moves.
#[tactic(auto, using(crate::proofs::reader::Stopping::stop_steps), unfolding(crate::specs::inner::Reading::place))]
pub(crate) fn place(alloc: Global, tokens: &Tokens, at: At) -> Result<(Placement, At), CommandFault>
    ensures { MatchResult result (λ r. place (standing tokens.now at) ≡ Some (placement_view r.0, standing tokens.now r.1))
        (StopsPart (place (standing tokens.now at))) }
{
    let Some((position, at)) = position(tokens, at) else {
        return Err(bad_syntax());
    };
    let (moving, at) = moving(alloc, tokens, at)?;
    let placement = Placement {
        at: position,
        moving,
    };
    Ok((placement, at))
}
