//! The commands, each by the tokens after its first word.
ghost use Rattle.std.specs.Prelude.{◌≡◌, Some, option_map, MatchResult};
ghost use Rattle.command_text.specs.Tree;
ghost use Rattle.command_text.specs.Tree.{command_view};
ghost use Rattle.command_text.specs.inner.Reading.{remove, tick, show, drop, save, import, export, nearest, index, range, class_head, insert_head, watch_head, must_head, class, region, insert, update, ask, watch, keep, must, may, to_end};
ghost use Rattle.command_text.specs.inner.Standing.{standing};
ghost use Rattle.command_text.specs.inner.LineParts.{IsWholeCommand, Refuses};

use crate::Command;
use crate::at::{At, begins_key, key};
use crate::end::end;
use crate::fault::{CommandFault, bad_syntax};
use crate::numbers::{capacity, most_near, name, radius, span, text, ticks, value, width};
use crate::parts::{attrs, points};
use crate::queries::query;
use crate::settings::{place, settings};
use case_table::key;
use fixed_point::{Fix, Word};
use ftl_lexer::Tokens;
use std::alloc::Global;

#[tactic(auto, using(crate::proofs::reader::Refused::form_steps), unfolding(crate::specs::inner::Reading::remove))]
pub(crate) fn remove(tokens: &Tokens, at: At) -> Result<Command, CommandFault>
    ensures { MatchResult result (λ c. IsWholeCommand (to_end (remove (standing tokens.now at))) (command_view c))
        (Refuses (to_end (remove (standing tokens.now at)))) }
{
    let Some((name, at)) = name(tokens, at) else {
        return Err(bad_syntax());
    };
    end(tokens, at)?;
    Ok(Command::Remove { name })
}

#[tactic(auto, using(crate::proofs::reader::Refused::form_steps), unfolding(crate::specs::inner::Reading::tick))]
pub(crate) fn tick(tokens: &Tokens, at: At) -> Result<Command, CommandFault>
    ensures { MatchResult result (λ c. IsWholeCommand (to_end (tick (standing tokens.now at))) (command_view c))
        (Refuses (to_end (tick (standing tokens.now at)))) }
{
    let Some((ticks, at)) = ticks(tokens, at) else {
        return Err(bad_syntax());
    };
    end(tokens, at)?;
    Ok(Command::Tick { ticks })
}

#[tactic(auto, using(crate::proofs::reader::Refused::form_steps), unfolding(crate::specs::inner::Reading::show))]
pub(crate) fn show(tokens: &Tokens, at: At) -> Result<Command, CommandFault>
    ensures { MatchResult result (λ c. IsWholeCommand (to_end (show (standing tokens.now at))) (command_view c))
        (Refuses (to_end (show (standing tokens.now at)))) }
{
    let Some((name, at)) = name(tokens, at) else {
        return Err(bad_syntax());
    };
    end(tokens, at)?;
    Ok(Command::Show { name })
}

#[tactic(auto, using(crate::proofs::reader::Refused::form_steps), unfolding(crate::specs::inner::Reading::drop))]
pub(crate) fn drop_query(tokens: &Tokens, at: At) -> Result<Command, CommandFault>
    ensures { MatchResult result (λ c. IsWholeCommand (to_end (drop (standing tokens.now at))) (command_view c))
        (Refuses (to_end (drop (standing tokens.now at)))) }
{
    let Some((name, at)) = name(tokens, at) else {
        return Err(bad_syntax());
    };
    end(tokens, at)?;
    Ok(Command::Drop { name })
}

#[tactic(auto, using(crate::proofs::reader::Refused::form_steps), unfolding(crate::specs::inner::Reading::save))]
pub(crate) fn save(tokens: &Tokens, at: At) -> Result<Command, CommandFault>
    ensures { MatchResult result (λ c. IsWholeCommand (to_end (save (standing tokens.now at))) (command_view c))
        (Refuses (to_end (save (standing tokens.now at)))) }
{
    let Some((file, at)) = text(tokens, at) else {
        return Err(bad_syntax());
    };
    end(tokens, at)?;
    Ok(Command::Save { file })
}

#[tactic(auto, using(crate::proofs::reader::Refused::form_steps), unfolding(crate::specs::inner::Reading::import))]
pub(crate) fn import(tokens: &Tokens, at: At) -> Result<Command, CommandFault>
    ensures { MatchResult result (λ c. IsWholeCommand (to_end (import (standing tokens.now at))) (command_view c))
        (Refuses (to_end (import (standing tokens.now at)))) }
{
    let Some((class, at)) = name(tokens, at) else {
        return Err(bad_syntax());
    };
    let Some((file, at)) = text(tokens, at) else {
        return Err(bad_syntax());
    };
    end(tokens, at)?;
    Ok(Command::Import { class, file })
}

#[tactic(auto, using(crate::proofs::reader::Refused::form_steps), unfolding(crate::specs::inner::Reading::export))]
pub(crate) fn export(tokens: &Tokens, at: At) -> Result<Command, CommandFault>
    ensures { MatchResult result (λ c. IsWholeCommand (to_end (export (standing tokens.now at))) (command_view c))
        (Refuses (to_end (export (standing tokens.now at)))) }
{
    let Some((class, at)) = name(tokens, at) else {
        return Err(bad_syntax());
    };
    let Some((file, at)) = text(tokens, at) else {
        return Err(bad_syntax());
    };
    end(tokens, at)?;
    Ok(Command::Export { class, file })
}

#[tactic(auto, using(crate::proofs::reader::Refused::form_steps), unfolding(crate::specs::inner::Reading::nearest))]
pub(crate) fn nearest(tokens: &Tokens, at: At) -> Result<Command, CommandFault>
    ensures { MatchResult result (λ c. IsWholeCommand (to_end (nearest (standing tokens.now at))) (command_view c))
        (Refuses (to_end (nearest (standing tokens.now at)))) }
{
    let Some((span, at)) = span(tokens, at) else {
        return Err(bad_syntax());
    };
    let Some((k, at)) = most_near(tokens, at) else {
        return Err(bad_syntax());
    };
    let Some((object, at)) = name(tokens, at) else {
        return Err(bad_syntax());
    };
    let Some((class, at)) = name(tokens, at) else {
        return Err(bad_syntax());
    };
    end(tokens, at)?;
    Ok(Command::Nearest {
        span,
        k,
        object,
        class,
    })
}

#[tactic(auto, using(crate::proofs::reader::Refused::form_steps), unfolding(crate::specs::inner::Reading::index))]
pub(crate) fn index(tokens: &Tokens, at: At) -> Result<Command, CommandFault>
    ensures { MatchResult result (λ c. IsWholeCommand (to_end (index (standing tokens.now at))) (command_view c))
        (Refuses (to_end (index (standing tokens.now at)))) }
{
    let Some((class, at)) = name(tokens, at) else {
        return Err(bad_syntax());
    };
    let Some((attr, at)) = name(tokens, at) else {
        return Err(bad_syntax());
    };
    let Some((width, at)) = width(tokens, at) else {
        return Err(bad_syntax());
    };
    end(tokens, at)?;
    Ok(Command::Index { class, attr, width })
}

#[tactic(auto, using(crate::proofs::reader::Refused::form_steps), unfolding(crate::specs::inner::Reading::range))]
pub(crate) fn range(tokens: &Tokens, at: At) -> Result<Command, CommandFault>
    ensures { MatchResult result (λ c. IsWholeCommand (to_end (range (standing tokens.now at))) (command_view c))
        (Refuses (to_end (range (standing tokens.now at)))) }
{
    let Some((span, at)) = span(tokens, at) else {
        return Err(bad_syntax());
    };
    let Some((class, at)) = name(tokens, at) else {
        return Err(bad_syntax());
    };
    let Some((attr, at)) = name(tokens, at) else {
        return Err(bad_syntax());
    };
    let Some((least, at)) = value(tokens, at) else {
        return Err(bad_syntax());
    };
    let Some((greatest, at)) = value(tokens, at) else {
        return Err(bad_syntax());
    };
    end(tokens, at)?;
    Ok(Command::Range {
        span,
        class,
        attr,
        least,
        greatest,
    })
}

/// The head of a class: its name, its capacity, and whether its objects have a place.
#[tactic(auto, unfolding(crate::specs::inner::Reading::class_head, crate::specs::inner::Reading::point_word))]
fn class_head(tokens: &Tokens, at: At) -> Option<(Word, u32, bool, At)>
    ensures { option_map (λ r. ((r.0, r.1, r.2), standing tokens.now r.3)) result ≡ class_head (standing tokens.now at) }
{
    let (name, at) = name(tokens, at)?;
    let (capacity, at) = capacity(tokens, at)?;
    match key(tokens, at, key::POINT) {
        Some(behind) => Some((name, capacity, true, behind)),
        None => Some((name, capacity, false, at)),
    }
}

#[tactic(auto, using(crate::proofs::reader::Refused::form_steps), unfolding(crate::specs::inner::Reading::class))]
pub(crate) fn class(alloc: Global, tokens: &Tokens, at: At) -> Result<Command, CommandFault>
    ensures { MatchResult result (λ c. IsWholeCommand (to_end (class (standing tokens.now at))) (command_view c))
        (Refuses (to_end (class (standing tokens.now at)))) }
{
    let Some((name, capacity, point, at)) = class_head(tokens, at) else {
        return Err(bad_syntax());
    };
    let (attrs, at) = attrs(alloc, tokens, at)?;
    end(tokens, at)?;
    Ok(Command::Class {
        name,
        capacity,
        point,
        attrs,
    })
}

#[tactic(auto, using(crate::proofs::reader::Refused::form_steps), unfolding(crate::specs::inner::Reading::region))]
pub(crate) fn region(alloc: Global, tokens: &Tokens, at: At) -> Result<Command, CommandFault>
    ensures { MatchResult result (λ c. IsWholeCommand (to_end (region (standing tokens.now at))) (command_view c))
        (Refuses (to_end (region (standing tokens.now at)))) }
{
    let Some((name, at)) = name(tokens, at) else {
        return Err(bad_syntax());
    };
    let (points, at) = points(alloc, tokens, at)?;
    end(tokens, at)?;
    Ok(Command::Region { name, points })
}

/// The class and the name of an object.
#[tactic(auto, unfolding(crate::specs::inner::Reading::insert_head))]
fn insert_head(tokens: &Tokens, at: At) -> Option<(Word, Word, At)>
    ensures { option_map (λ r. ((r.0, r.1), standing tokens.now r.2)) result ≡ insert_head (standing tokens.now at) }
{
    let (class, at) = name(tokens, at)?;
    let (name, at) = name(tokens, at)?;
    Some((class, name, at))
}

#[tactic(auto, using(crate::proofs::reader::Refused::form_steps), unfolding(crate::specs::inner::Reading::insert))]
pub(crate) fn insert(alloc: Global, tokens: &Tokens, at: At) -> Result<Command, CommandFault>
    ensures { MatchResult result (λ c. IsWholeCommand (to_end (insert (standing tokens.now at))) (command_view c))
        (Refuses (to_end (insert (standing tokens.now at)))) }
{
    let Some((class, name, at)) = insert_head(tokens, at) else {
        return Err(bad_syntax());
    };
    let (place, at) = place(alloc, tokens, at)?;
    let (sets, at) = settings(alloc, tokens, at)?;
    end(tokens, at)?;
    Ok(Command::Insert {
        class,
        name,
        place,
        sets,
    })
}

#[tactic(auto, using(crate::proofs::reader::Refused::form_steps), unfolding(crate::specs::inner::Reading::update))]
pub(crate) fn update(alloc: Global, tokens: &Tokens, at: At) -> Result<Command, CommandFault>
    ensures { MatchResult result (λ c. IsWholeCommand (to_end (update (standing tokens.now at))) (command_view c))
        (Refuses (to_end (update (standing tokens.now at)))) }
{
    let Some((name, at)) = name(tokens, at) else {
        return Err(bad_syntax());
    };
    let (place, at) = place(alloc, tokens, at)?;
    let (sets, at) = settings(alloc, tokens, at)?;
    end(tokens, at)?;
    Ok(Command::Update { name, place, sets })
}

#[tactic(auto, using(crate::proofs::reader::Refused::form_steps), unfolding(crate::specs::inner::Reading::ask))]
pub(crate) fn ask(alloc: Global, tokens: &Tokens, at: At) -> Result<Command, CommandFault>
    ensures { MatchResult result (λ c. IsWholeCommand (to_end (ask (standing tokens.now at))) (command_view c))
        (Refuses (to_end (ask (standing tokens.now at)))) }
{
    let Some((span, at)) = span(tokens, at) else {
        return Err(bad_syntax());
    };
    let (query, at) = query(alloc, tokens, at)?;
    end(tokens, at)?;
    Ok(Command::Ask { span, query })
}

/// The name of a registered query, and its span.
#[tactic(auto, unfolding(crate::specs::inner::Reading::watch_head))]
fn watch_head(tokens: &Tokens, at: At) -> Option<(Word, u32, At)>
    ensures { option_map (λ r. ((r.0, r.1), standing tokens.now r.2)) result ≡ watch_head (standing tokens.now at) }
{
    let (name, at) = name(tokens, at)?;
    let (span, at) = span(tokens, at)?;
    Some((name, span, at))
}

#[tactic(auto, using(crate::proofs::reader::Refused::form_steps), unfolding(crate::specs::inner::Reading::watch))]
pub(crate) fn watch(alloc: Global, tokens: &Tokens, at: At) -> Result<Command, CommandFault>
    ensures { MatchResult result (λ c. IsWholeCommand (to_end (watch (standing tokens.now at))) (command_view c))
        (Refuses (to_end (watch (standing tokens.now at)))) }
{
    let Some((name, span, at)) = watch_head(tokens, at) else {
        return Err(bad_syntax());
    };
    let (query, at) = query(alloc, tokens, at)?;
    end(tokens, at)?;
    Ok(Command::Watch { name, span, query })
}

#[tactic(auto, using(crate::proofs::reader::Refused::form_steps), unfolding(crate::specs::inner::Reading::keep))]
pub(crate) fn keep(alloc: Global, tokens: &Tokens, at: At) -> Result<Command, CommandFault>
    ensures { MatchResult result (λ c. IsWholeCommand (to_end (keep (standing tokens.now at))) (command_view c))
        (Refuses (to_end (keep (standing tokens.now at)))) }
{
    let Some((name, span, at)) = watch_head(tokens, at) else {
        return Err(bad_syntax());
    };
    let (query, at) = query(alloc, tokens, at)?;
    end(tokens, at)?;
    Ok(Command::Keep { name, span, query })
}

/// An error of positions, and a span.
#[tactic(auto, unfolding(crate::specs::inner::Reading::must_head))]
fn must_head(tokens: &Tokens, at: At) -> Option<(Fix, u32, At)>
    ensures { option_map (λ r. ((r.0, r.1), standing tokens.now r.2)) result ≡ must_head (standing tokens.now at) }
{
    let (error, at) = radius(tokens, at)?;
    let (span, at) = span(tokens, at)?;
    Some((error, span, at))
}

#[tactic(auto, using(crate::proofs::reader::Refused::form_steps), unfolding(crate::specs::inner::Reading::must))]
pub(crate) fn must(alloc: Global, tokens: &Tokens, at: At) -> Result<Command, CommandFault>
    ensures { MatchResult result (λ c. IsWholeCommand (to_end (must (standing tokens.now at))) (command_view c))
        (Refuses (to_end (must (standing tokens.now at)))) }
{
    let Some((error, span, at)) = must_head(tokens, at) else {
        return Err(bad_syntax());
    };
    let (query, at) = query(alloc, tokens, at)?;
    end(tokens, at)?;
    Ok(Command::Must { error, span, query })
}

#[tactic(auto, using(crate::proofs::reader::Refused::form_steps), unfolding(crate::specs::inner::Reading::may))]
pub(crate) fn may(alloc: Global, tokens: &Tokens, at: At) -> Result<Command, CommandFault>
    ensures { MatchResult result (λ c. IsWholeCommand (to_end (may (standing tokens.now at))) (command_view c))
        (Refuses (to_end (may (standing tokens.now at)))) }
{
    let Some((error, span, at)) = must_head(tokens, at) else {
        return Err(bad_syntax());
    };
    let (query, at) = query(alloc, tokens, at)?;
    end(tokens, at)?;
    Ok(Command::May { error, span, query })
}

#[tactic(auto, using(crate::proofs::reader::Refused::form_steps))]
pub(crate) fn list(tokens: &Tokens, at: At) -> Result<Command, CommandFault>
    ensures { MatchResult result (λ c. IsWholeCommand (to_end (Some (Tree.Listing, standing tokens.now at))) (command_view c))
        (Refuses (to_end (Some (Tree.Listing, standing tokens.now at)))) }
{
    end(tokens, at)?;
    Ok(Command::List)
}

#[tactic(auto, using(crate::proofs::reader::Refused::form_steps))]
pub(crate) fn quit(tokens: &Tokens, at: At) -> Result<Command, CommandFault>
    ensures { MatchResult result (λ c. IsWholeCommand (to_end (Some (Tree.Quit, standing tokens.now at))) (command_view c))
        (Refuses (to_end (Some (Tree.Quit, standing tokens.now at)))) }
{
    end(tokens, at)?;
    Ok(Command::Quit)
}
