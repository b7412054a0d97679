//! Canonical lines.
ghost use Rattle.std.specs.Prelude.{◌≡◌, ◌++◌, [], IfOk, OnOk, OnErr, codes};
ghost use Rattle.std.specs.List.{flat_map};
ghost use Rattle.std.specs.Fmt.{decimal};
ghost use Rattle.command_text.specs.Tree.{command_view, moving_view, placement_view};
ghost use Rattle.ftl_parser.specs.Tree.{query_view};
ghost use Rattle.command_text.specs.Tree as Tree;
ghost use Rattle.ftl_parser.specs.Text.{query_text};
ghost use Rattle.command_text.specs.Text.{quoted, pair_text, rate_leg_text, rates_text, move_leg_text, move_legs_text, moves_text, kind_text, attr_text, next_attr_text, attrs_text, point_text, points_text, given_value_text, setting_text, settings_text, at_text, moving_text, object_change_text, point_word_text, text_of};
ghost use Rattle.fixed_point.specs.Canonical.{fix_text};

use crate::Command;
use crate::lists::{Attributes, Points, Settings};
use crate::placement::{Moving, Placement};
use fixed_point::{Fix, Point, Slope, Word};
use ftl_parser::{Query, print_onto, push_number};
use motion::{AttrKind, Given, Legs, NamedSet};
use std::alloc::{AllocError, Global};

fn put(out: &mut Vec<u8>, bytes: &[u8]) -> Result<(), AllocError>
    ensures { OnOk result (out.new.items ≡ out.old.items ++ bytes.now) }
{
    out.extend_from_slice(bytes)?;
    Ok(())
}

fn put_word(out: &mut Vec<u8>, word: &Word) -> Result<(), AllocError>
    ensures { OnOk result (out.new.items ≡ out.old.items ++ word.now) }
{
    put(out, word.bytes())
}

fn put_number(out: &mut Vec<u8>, number: Fix) -> Result<(), AllocError>
    ensures { OnOk result (out.new.items ≡ out.old.items ++ fix_text number) }
{
    // A few bytes that were just written: to copy them at once would wait for each of them.
    let text = number.print();
    let mut rest = text.bytes();
    'digits: while let Some((byte, later)) = rest.split_first() {
        out.push(*byte)?;
        rest = later;
    }
    Ok(())
}

fn put_slope(out: &mut Vec<u8>, slope: Slope) -> Result<(), AllocError>
    ensures { OnOk result (out.new.items ≡ out.old.items ++ fix_text slope) }
{
    put_number(out, Fix::of(slope.raw()).unwrap())
}

/// A text between its quotes.
fn put_quoted(out: &mut Vec<u8>, text: &Word) -> Result<(), AllocError>
    ensures { OnOk result (out.new.items ≡ out.old.items ++ quoted text.now) }
{
    put(out, b"\"")?;
    put_word(out, text)?;
    put(out, b"\"")
}

fn put_pair(out: &mut Vec<u8>, x: Fix, y: Fix) -> Result<(), AllocError>
    ensures { OnOk result (out.new.items ≡ out.old.items ++ pair_text x y) }
{
    put(out, b"(")?;
    put_number(out, x)?;
    put(out, b",")?;
    put_number(out, y)?;
    put(out, b")")
}

fn put_slopes(out: &mut Vec<u8>, x: Slope, y: Slope) -> Result<(), AllocError>
    ensures { OnOk result (out.new.items ≡ out.old.items ++ pair_text x y) }
{
    put(out, b"(")?;
    put_slope(out, x)?;
    put(out, b",")?;
    put_slope(out, y)?;
    put(out, b")")
}

/// A leg that ends, and a space.
fn put_rate_leg(out: &mut Vec<u8>, slope: Slope, length: u32) -> Result<(), AllocError>
    ensures { OnOk result (out.new.items ≡ out.old.items ++ rate_leg_text (slope, length)) }
{
    put(out, b"[")?;
    put_slope(out, slope)?;
    put(out, b",")?;
    push_number(out, length)?;
    put(out, b"] ")
}

fn put_rate_legs(out: &mut Vec<u8>, firsts: &[(Slope, u32)]) -> Result<(), AllocError>
    ensures { OnOk result (out.new.items ≡ out.old.items ++ flat_map rate_leg_text firsts.now) }
{
    let mut rest = firsts;
    'legs: while let Some((leg, later)) = rest.split_first() {
        put_rate_leg(out, leg.0, leg.1)?;
        rest = later;
    }
    Ok(())
}

fn put_rates(out: &mut Vec<u8>, legs: &Legs) -> Result<(), AllocError>
    ensures { OnOk result (out.new.items ≡ out.old.items ++ rates_text legs.now) }
{
    put_rate_legs(out, legs.firsts())?;
    put_slope(out, legs.last())
}

/// A leg of both coordinates that ends, and a space.
fn put_move_leg(out: &mut Vec<u8>, x: Slope, y: Slope, length: u32) -> Result<(), AllocError>
    ensures { OnOk result (out.new.items ≡ out.old.items ++ move_leg_text x y length) }
{
    put(out, b"[")?;
    put_slopes(out, x, y)?;
    put(out, b",")?;
    push_number(out, length)?;
    put(out, b"] ")
}

fn put_move_legs(
    out: &mut Vec<u8>,
    x: &[(Slope, u32)],
    y: &[(Slope, u32)],
) -> Result<(), AllocError>
    ensures { OnOk result (out.new.items ≡ out.old.items ++ move_legs_text x.now y.now) }
{
    let mut xs = x;
    let mut ys = y;
    'legs: while let Some((leg, later)) = xs.split_first() {
        let Some((other, behind)) = ys.split_first() else {
            return Ok(());
        };
        put_move_leg(out, leg.0, other.0, leg.1)?;
        xs = later;
        ys = behind;
    }
    Ok(())
}

fn put_moves(out: &mut Vec<u8>, x: &Legs, y: &Legs) -> Result<(), AllocError>
    ensures { OnOk result (out.new.items ≡ out.old.items ++ moves_text x.now y.now) }
{
    put_move_legs(out, x.firsts(), y.firsts())?;
    put_slopes(out, x.last(), y.last())
}

fn kind_word(kind: AttrKind) -> &'static [u8]
    ensures { result.now ≡ kind_text kind }
{
    match kind {
        AttrKind::Num => b"num",
        AttrKind::Text => b"text",
        AttrKind::Dyn => b"dyn",
    }
}

fn put_attr(out: &mut Vec<u8>, attr: &(Word, AttrKind)) -> Result<(), AllocError>
    ensures { OnOk result (out.new.items ≡ out.old.items ++ attr_text attr.now) }
{
    put_word(out, &attr.0)?;
    put(out, b" ")?;
    put(out, kind_word(attr.1))
}

/// An attribute after a comma.
fn put_next_attr(out: &mut Vec<u8>, attr: &(Word, AttrKind)) -> Result<(), AllocError>
    ensures { OnOk result (out.new.items ≡ out.old.items ++ next_attr_text attr.now) }
{
    put(out, b",")?;
    put_attr(out, attr)
}

/// Attributes, each after a comma.
fn put_more_attrs(out: &mut Vec<u8>, attrs: &[(Word, AttrKind)]) -> Result<(), AllocError>
    ensures { OnOk result (out.new.items ≡ out.old.items ++ flat_map next_attr_text attrs.now) }
{
    let mut rest = attrs;
    'attrs: while let Some((attr, later)) = rest.split_first() {
        put_next_attr(out, attr)?;
        rest = later;
    }
    Ok(())
}

fn put_attrs(out: &mut Vec<u8>, attrs: &[(Word, AttrKind)]) -> Result<(), AllocError>
    ensures { OnOk result (out.new.items ≡ out.old.items ++ attrs_text attrs.now) }
{
    let Some((first, more)) = attrs.split_first() else {
        return Ok(());
    };
    put(out, b" (")?;
    put_attr(out, first)?;
    put_more_attrs(out, more)?;
    put(out, b")")
}

/// A point after a space.
fn put_point(out: &mut Vec<u8>, point: &Point) -> Result<(), AllocError>
    ensures { OnOk result (out.new.items ≡ out.old.items ++ point_text point.now) }
{
    put(out, b" ")?;
    put_pair(out, point.x, point.y)
}

/// Points, each after a space.
fn put_points(out: &mut Vec<u8>, points: &[Point]) -> Result<(), AllocError>
    ensures { OnOk result (out.new.items ≡ out.old.items ++ points_text points.now) }
{
    let mut rest = points;
    'points: while let Some((point, later)) = rest.split_first() {
        put_point(out, point)?;
        rest = later;
    }
    Ok(())
}

fn put_given(out: &mut Vec<u8>, given: &Given) -> Result<(), AllocError>
    ensures { OnOk result (out.new.items ≡ out.old.items ++ given_value_text given.now) }
{
    match given {
        Given::Num(value) => {
            put(out, b"= ")?;
            put_number(out, *value)
        }
        Given::Text(text) => {
            put(out, b"= ")?;
            put_quoted(out, text)
        }
        Given::Rate(legs) => {
            put(out, b"rate ")?;
            put_rates(out, legs)
        }
        Given::Both(value, legs) => {
            put(out, b"= ")?;
            put_number(out, *value)?;
            put(out, b" rate ")?;
            put_rates(out, legs)
        }
    }
}

fn put_setting(out: &mut Vec<u8>, set: &NamedSet) -> Result<(), AllocError>
    ensures { OnOk result (out.new.items ≡ out.old.items ++ setting_text set.now) }
{
    put(out, b" ")?;
    put_word(out, &set.name)?;
    put(out, b" ")?;
    put_given(out, &set.given)
}

/// Settings, each after a space.
fn put_settings(out: &mut Vec<u8>, sets: &[NamedSet]) -> Result<(), AllocError>
    ensures { OnOk result (out.new.items ≡ out.old.items ++ settings_text sets.now) }
{
    let mut rest = sets;
    'sets: while let Some((set, later)) = rest.split_first() {
        put_setting(out, set)?;
        rest = later;
    }
    Ok(())
}

fn put_at(out: &mut Vec<u8>, at: &Option<Point>) -> Result<(), AllocError>
    ensures { OnOk result (out.new.items ≡ out.old.items ++ at_text at.now) }
{
    let Some(point) = at else {
        return Ok(());
    };
    put(out, b" at ")?;
    put_pair(out, point.x, point.y)
}

fn put_moving(out: &mut Vec<u8>, moving: &Moving) -> Result<(), AllocError>
    ensures { OnOk result (out.new.items ≡ out.old.items ++ moving_text (moving_view moving.now)) }
{
    match moving {
        Moving::Unset => Ok(()),
        Moving::Steady(x, y) => {
            put(out, b" move ")?;
            put_slopes(out, *x, *y)
        }
        Moving::Turning(both) => {
            put(out, b" move ")?;
            put_moves(out, &both.0, &both.1)
        }
    }
}

/// What a command changes of an object, after a space.
fn put_change(out: &mut Vec<u8>, place: &Placement, sets: &Settings) -> Result<(), AllocError>
    ensures { OnOk result (out.new.items ≡ out.old.items ++ object_change_text (placement_view place.now) sets.now) }
{
    put_at(out, &place.at)?;
    put_moving(out, &place.moving)?;
    put_settings(out, sets.items())
}

/// A first word and its space, a name, and a space.
fn put_head(out: &mut Vec<u8>, word: &[u8], name: &Word) -> Result<(), AllocError>
    ensures { OnOk result (out.new.items ≡ out.old.items ++ word.now ++ name.now ++ codes " ") }
{
    put(out, word)?;
    put_word(out, name)?;
    put(out, b" ")
}

/// A span, a space, and a query.
fn put_asked(out: &mut Vec<u8>, span: u32, query: &Query) -> Result<(), AllocError>
    ensures { OnOk result (out.new.items ≡ out.old.items ++ (decimal span ++ (codes " " ++ query_text (query_view query.now)))) }
{
    push_number(out, span)?;
    put(out, b" ")?;
    print_onto(query, out)
}

#[tactic(auto, unfolding(crate::specs::Text::text_of))]
fn put_class(
    out: &mut Vec<u8>,
    name: &Word,
    capacity: u32,
    point: bool,
    attrs: &Attributes,
) -> Result<(), AllocError>
    ensures { OnOk result (out.new.items ≡ out.old.items ++ text_of (Tree.Class name.now capacity point attrs.now)) }
{
    put_head(out, b"class ", name)?;
    push_number(out, capacity)?;
    put(out, point_word(point))?;
    put_attrs(out, attrs.items())
}

fn point_word(point: bool) -> &'static [u8]
    ensures { result.now ≡ point_word_text point }
{
    if point { b" point" } else { b"" }
}

#[tactic(auto, unfolding(crate::specs::Text::text_of))]
fn put_region(out: &mut Vec<u8>, name: &Word, points: &Points) -> Result<(), AllocError>
    ensures { OnOk result (out.new.items ≡ out.old.items ++ text_of (Tree.Region name.now points.now)) }
{
    put(out, b"region ")?;
    put_word(out, name)?;
    put_points(out, points.items())
}

#[tactic(auto, unfolding(crate::specs::Text::text_of))]
fn put_insert(
    out: &mut Vec<u8>,
    class: &Word,
    name: &Word,
    place: &Placement,
    sets: &Settings,
) -> Result<(), AllocError>
    ensures { OnOk result (out.new.items ≡ out.old.items ++ text_of (Tree.Insert class.now name.now (placement_view place.now) sets.now)) }
{
    put_head(out, b"insert ", class)?;
    put_word(out, name)?;
    put_change(out, place, sets)
}

#[tactic(auto, unfolding(crate::specs::Text::text_of))]
fn put_update(
    out: &mut Vec<u8>,
    name: &Word,
    place: &Placement,
    sets: &Settings,
) -> Result<(), AllocError>
    ensures { OnOk result (out.new.items ≡ out.old.items ++ text_of (Tree.Update name.now (placement_view place.now) sets.now)) }
{
    put(out, b"update ")?;
    put_word(out, name)?;
    put_change(out, place, sets)
}

/// A first word with a space, and a name.
fn put_named(out: &mut Vec<u8>, word: &[u8], name: &Word) -> Result<(), AllocError>
    ensures { OnOk result (out.new.items ≡ out.old.items ++ (word.now ++ name.now)) }
{
    put(out, word)?;
    put_word(out, name)
}

#[tactic(auto, unfolding(crate::specs::Text::text_of))]
fn put_tick(out: &mut Vec<u8>, ticks: u32) -> Result<(), AllocError>
    ensures { OnOk result (out.new.items ≡ out.old.items ++ text_of (Tree.Tick ticks)) }
{
    put(out, b"tick ")?;
    push_number(out, ticks)
}

/// A first word with a space, a name, and what is asked.
fn put_watch(
    out: &mut Vec<u8>,
    word: &[u8],
    name: &Word,
    span: u32,
    query: &Query,
) -> Result<(), AllocError>
    ensures { OnOk result (out.new.items ≡ out.old.items ++ (word.now ++ (name.now ++ (codes " " ++ (decimal span ++ (codes " " ++ query_text (query_view query.now))))))) }
{
    put_head(out, word, name)?;
    put_asked(out, span, query)
}

/// A first word with a space, an error, and what is asked.
fn put_must(
    out: &mut Vec<u8>,
    word: &[u8],
    error: Fix,
    span: u32,
    query: &Query,
) -> Result<(), AllocError>
    ensures { OnOk result (out.new.items ≡ out.old.items ++ (word.now ++ (fix_text error ++ (codes " " ++ (decimal span ++ (codes " " ++ query_text (query_view query.now))))))) }
{
    put(out, word)?;
    put_number(out, error)?;
    put(out, b" ")?;
    put_asked(out, span, query)
}

#[tactic(auto, unfolding(crate::specs::Text::text_of))]
fn put_ask(out: &mut Vec<u8>, span: u32, query: &Query) -> Result<(), AllocError>
    ensures { OnOk result (out.new.items ≡ out.old.items ++ text_of (Tree.Ask span (query_view query.now))) }
{
    put(out, b"ask ")?;
    put_asked(out, span, query)
}

#[tactic(auto, unfolding(crate::specs::Text::text_of))]
fn put_save(out: &mut Vec<u8>, file: &Word) -> Result<(), AllocError>
    ensures { OnOk result (out.new.items ≡ out.old.items ++ text_of (Tree.Save file.now)) }
{
    put(out, b"save ")?;
    put_quoted(out, file)
}

/// A first word with a space, a class, and a file.
fn put_transfer(out: &mut Vec<u8>, word: &[u8], class: &Word, file: &Word) -> Result<(), AllocError>
    ensures { OnOk result (out.new.items ≡ out.old.items ++ (word.now ++ (class.now ++ (codes " " ++ quoted file.now)))) }
{
    put_head(out, word, class)?;
    put_quoted(out, file)
}

#[tactic(auto, unfolding(crate::specs::Text::text_of))]
fn put_nearest(
    out: &mut Vec<u8>,
    span: u32,
    k: u32,
    object: &Word,
    class: &Word,
) -> Result<(), AllocError>
    ensures { OnOk result (out.new.items ≡ out.old.items ++ text_of (Tree.Nearest span k object.now class.now)) }
{
    put(out, b"nearest ")?;
    push_number(out, span)?;
    put(out, b" ")?;
    push_number(out, k)?;
    put_head(out, b" ", object)?;
    put_word(out, class)
}

#[tactic(auto, unfolding(crate::specs::Text::text_of))]
fn put_index(out: &mut Vec<u8>, class: &Word, attr: &Word, width: Fix) -> Result<(), AllocError>
    ensures { OnOk result (out.new.items ≡ out.old.items ++ text_of (Tree.Index class.now attr.now width)) }
{
    put_head(out, b"index ", class)?;
    put_head(out, b"", attr)?;
    put_number(out, width)
}

/// Two numbers with a space between.
fn put_numbers(out: &mut Vec<u8>, least: Fix, greatest: Fix) -> Result<(), AllocError>
    ensures { OnOk result (out.new.items ≡ out.old.items ++ (fix_text least ++ (codes " " ++ fix_text greatest))) }
{
    put_number(out, least)?;
    put(out, b" ")?;
    put_number(out, greatest)
}

#[tactic(auto, unfolding(crate::specs::Text::text_of))]
fn put_range(
    out: &mut Vec<u8>,
    span: u32,
    class: &Word,
    attr: &Word,
    least: Fix,
    greatest: Fix,
) -> Result<(), AllocError>
    ensures { OnOk result (out.new.items ≡ out.old.items ++ text_of (Tree.Range span class.now attr.now least greatest)) }
{
    put(out, b"range ")?;
    push_number(out, span)?;
    put_head(out, b" ", class)?;
    put_head(out, b"", attr)?;
    put_numbers(out, least, greatest)
}

/// Adds a canonical line to a buffer.
#[tactic(auto, unfolding(crate::specs::Text::text_of))]
fn put_command(out: &mut Vec<u8>, command: &Command) -> Result<(), AllocError>
    ensures { OnOk result (out.new.items ≡ out.old.items ++ text_of (command_view command.now)) }
{
    match command {
        Command::Nothing => Ok(()),
        Command::List => put(out, b"list"),
        Command::Quit => put(out, b"quit"),
        Command::Class {
            name,
            capacity,
            point,
            attrs,
        } => put_class(out, name, *capacity, *point, attrs),
        Command::Region { name, points } => put_region(out, name, points),
        Command::Insert {
            class,
            name,
            place,
            sets,
        } => put_insert(out, class, name, place, sets),
        Command::Update { name, place, sets } => put_update(out, name, place, sets),
        Command::Remove { name } => put_named(out, b"remove ", name),
        Command::Tick { ticks } => put_tick(out, *ticks),
        Command::Ask { span, query } => put_ask(out, *span, query),
        Command::Watch { name, span, query } => put_watch(out, b"watch ", name, *span, query),
        Command::Keep { name, span, query } => put_watch(out, b"keep ", name, *span, query),
        Command::Show { name } => put_named(out, b"show ", name),
        Command::Drop { name } => put_named(out, b"drop ", name),
        Command::Save { file } => put_save(out, file),
        Command::Import { class, file } => put_transfer(out, b"import ", class, file),
        Command::Export { class, file } => put_transfer(out, b"export ", class, file),
        Command::Nearest {
            span,
            k,
            object,
            class,
        } => put_nearest(out, *span, *k, object, class),
        Command::Must { error, span, query } => put_must(out, b"must ", *error, *span, query),
        Command::May { error, span, query } => put_must(out, b"may ", *error, *span, query),
        Command::Index { class, attr, width } => put_index(out, class, attr, *width),
        Command::Range {
            span,
            class,
            attr,
            least,
            greatest,
        } => put_range(out, *span, class, attr, *least, *greatest),
    }
}

/// Writes the canonical line of a command, without a line feed, in place of what a buffer held. After an
/// `Err` the buffer is empty.
pub fn print_into(out: &mut Vec<u8>, command: &Command) -> Result<(), AllocError>
    ensures ok { OnOk result (out.new.items ≡ text_of (command_view command.now)) }
    ensures err { OnErr result (out.new.items ≡ []) }
{
    out.clear();
    if put_command(out, command).is_err() {
        out.clear();
        return Err(AllocError);
    }
    Ok(())
}

/// The canonical line of a command, without a line feed.
pub fn print(alloc: Global, command: &Command) -> Result<Vec<u8>, AllocError>
    ensures { IfOk result (λ text. text.items ≡ text_of (command_view command.now)) }
{
    let mut out = Vec::new(alloc);
    put_command(&mut out, command)?;
    Ok(out)
}
