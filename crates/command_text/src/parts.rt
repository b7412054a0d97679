//! Points, attributes and their lists.
ghost use Rattle.std.specs.Prelude.{◌≡◌, Some, option_map, MatchResult};
ghost use Rattle.command_text.specs.Ranges.{Value, Rate};
ghost use Rattle.command_text.specs.inner.Reading.{pair, point, attr, next_attr, first_attr, some_attrs, attrs, points, all, begins, with_front};
ghost use Rattle.command_text.specs.inner.Tests.{is_sign};
ghost use Rattle.case_table.specs.declared.symbol.TheConstants.{OPEN_ROUND, COMMA};
ghost use Rattle.command_text.specs.inner.Standing.{standing, StopsPart};

use crate::at::{At, begins_sign, next, noting_small, sign};
use crate::fault::{CommandFault, bad_syntax};
use crate::kinds::attr_kind;
use crate::lists::{Attributes, Points};
use crate::numbers::{name, slope, value};
use case_table::symbol;
use fixed_point::{Point, Slope, Word};
use ftl_lexer::Tokens;
use geometry::{LEAST_VERTICES, VERTEX_LIMIT};
use motion::{ATTRIBUTE_LIMIT, AttrKind};
use std::alloc::Global;

#[tactic(auto, unfolding(crate::specs::inner::Reading::point, crate::specs::inner::Reading::pair))]
pub(crate) fn point(tokens: &Tokens, at: At) -> Option<(Point, At)>
    ensures { option_map (λ r. (r.0, standing tokens.now r.1)) result ≡ point (standing tokens.now at) }
{
    let at = sign(tokens, at, symbol::OPEN_ROUND)?;
    let (x, at) = value(tokens, at)?;
    let at = sign(tokens, at, symbol::COMMA)?;
    let (y, at) = value(tokens, at)?;
    let at = sign(tokens, at, symbol::CLOSE_ROUND)?;
    Some((Point { x, y }, at))
}

/// The slopes of both coordinates.
#[tactic(auto, unfolding(crate::specs::inner::Reading::pair))]
pub(crate) fn slopes(tokens: &Tokens, at: At) -> Option<((Slope, Slope), At)>
    ensures { option_map (λ r. (r.0, standing tokens.now r.1)) result ≡ pair Rate (standing tokens.now at) }
{
    let at = sign(tokens, at, symbol::OPEN_ROUND)?;
    let (x, at) = slope(tokens, at)?;
    let at = sign(tokens, at, symbol::COMMA)?;
    let (y, at) = slope(tokens, at)?;
    let at = sign(tokens, at, symbol::CLOSE_ROUND)?;
    Some(((x, y), at))
}

#[tactic(auto, unfolding(crate::specs::inner::Reading::attr))]
fn attr(tokens: &Tokens, at: At) -> Option<((Word, AttrKind), At)>
    ensures { option_map (λ r. (r.0, standing tokens.now r.1)) result ≡ attr (standing tokens.now at) }
{
    let (name, at) = name(tokens, at)?;
    let (kind, _, at) = next(tokens, at)?;
    let kind = attr_kind(kind)?;
    Some(((name, kind), at))
}

/// An attribute after a comma.
#[tactic(auto, unfolding(crate::specs::inner::Reading::next_attr))]
fn next_attr(tokens: &Tokens, at: At) -> Option<((Word, AttrKind), At)>
    ensures { option_map (λ r. (r.0, standing tokens.now r.1)) result ≡ next_attr (standing tokens.now at) }
{
    let at = sign(tokens, at, symbol::COMMA)?;
    attr(tokens, at)
}

/// The first attribute, after its bracket.
#[tactic(auto, unfolding(crate::specs::inner::Reading::first_attr))]
fn first_attr(tokens: &Tokens, at: At) -> Option<((Word, AttrKind), At)>
    ensures { option_map (λ r. (r.0, standing tokens.now r.1)) result ≡ first_attr (standing tokens.now at) }
{
    let at = sign(tokens, at, symbol::OPEN_ROUND)?;
    attr(tokens, at)
}

/// The attributes after the first one, added to it.
#[tactic(auto, using(crate::proofs::grammar::ManyLemmas::loop_steps, crate::proofs::grammar::Derived::next_attr_shortens))]
fn more_attrs(tokens: &Tokens, start: At, attrs: &mut Attributes) -> Result<At, CommandFault>
    ensures { MatchResult result (λ at. with_front attrs.old (all (begins (is_sign COMMA)) next_attr (standing tokens.now start)) ≡ Some (attrs.new, standing tokens.now at))
        (StopsPart (all (begins (is_sign COMMA)) next_attr (standing tokens.now start))) }
{
    let mut at = start;
    'attrs: while begins_sign(tokens, at, symbol::COMMA) {
        let Some(((name, kind), behind)) = next_attr(tokens, at) else {
            return Err(bad_syntax());
        };
        attrs.push((name, kind))?;
        at = behind;
    }
    Ok(at)
}

#[tactic(auto, using(crate::proofs::reader::Stopping::stop_steps), unfolding(crate::specs::inner::Reading::some_attrs))]
fn some_attrs(alloc: Global, tokens: &Tokens, at: At) -> Result<(Attributes, At), CommandFault>
    ensures { MatchResult result (λ r. some_attrs (standing tokens.now at) ≡ Some (r.0, standing tokens.now r.1))
        (StopsPart (some_attrs (standing tokens.now at))) }
{
    let Some(((name, kind), at)) = first_attr(tokens, at) else {
        return Err(bad_syntax());
    };
    let mut attrs = Attributes::new(alloc);
    attrs.push((name, kind))?;
    let at = more_attrs(tokens, at, &mut attrs)?;
    let Some(at) = sign(tokens, at, symbol::CLOSE_ROUND) else {
        return Err(bad_syntax());
    };
    let at = noting_small(at, attrs.items().len() <= ATTRIBUTE_LIMIT);
    Ok((attrs, at))
}

/// The attributes of a class, which may have none.
#[tactic(auto, unfolding(crate::specs::inner::Reading::attrs))]
pub(crate) fn attrs(
    alloc: Global,
    tokens: &Tokens,
    at: At,
) -> Result<(Attributes, At), CommandFault>
    ensures { MatchResult result (λ r. attrs (standing tokens.now at) ≡ Some (r.0, standing tokens.now r.1))
        (StopsPart (attrs (standing tokens.now at))) }
{
    if begins_sign(tokens, at, symbol::OPEN_ROUND) {
        some_attrs(alloc, tokens, at)
    } else {
        Ok((Attributes::new(alloc), at))
    }
}

/// As many points as there are.
#[tactic(auto, using(crate::proofs::grammar::ManyLemmas::loop_steps, crate::proofs::grammar::Derived::point_shortens))]
fn all_points(alloc: Global, tokens: &Tokens, start: At) -> Result<(Points, At), CommandFault>
    ensures { MatchResult result (λ r. all (begins (is_sign OPEN_ROUND)) point (standing tokens.now start) ≡ Some (r.0, standing tokens.now r.1))
        (StopsPart (all (begins (is_sign OPEN_ROUND)) point (standing tokens.now start))) }
{
    let mut points = Points::new(alloc);
    let mut at = start;
    'points: while begins_sign(tokens, at, symbol::OPEN_ROUND) {
        let Some((point, behind)) = point(tokens, at) else {
            return Err(bad_syntax());
        };
        points.push(point)?;
        at = behind;
    }
    Ok((points, at))
}

/// Three points and more.
#[tactic(auto, using(crate::proofs::reader::Stopping::stop_steps), unfolding(crate::specs::inner::Reading::points))]
pub(crate) fn points(alloc: Global, tokens: &Tokens, at: At) -> Result<(Points, At), CommandFault>
    ensures { MatchResult result (λ r. points (standing tokens.now at) ≡ Some (r.0, standing tokens.now r.1))
        (StopsPart (points (standing tokens.now at))) }
{
    let (points, at) = all_points(alloc, tokens, at)?;
    let count = points.items().len();
    if count < LEAST_VERTICES {
        return Err(bad_syntax());
    }
    Ok((points, noting_small(at, count <= VERTEX_LIMIT)))
}
