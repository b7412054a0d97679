//! The text of a line, at the end of a buffer.
ghost use Rattle.std.specs.Prelude.{◌≡◌, ◌+◌, ◌<◌, ◌++◌, ◌^◌, codes, decimal, OnOk};
ghost use Rattle.fixed_point.specs.Canonical.{fix_text};
ghost use Rattle.generator.specs.Draws.{state_after};
ghost use Rattle.generator.specs.Lines.{corner, at_corner_text, square_text, SIDE, move_text, region_text, car_text, insert_text, update_text, watch_text, line_text, draws_of};

use crate::draws::Draws;
use crate::plan::{CARS, Line};
use fixed_point::Fix;
use itoa::Buffer;
use std::alloc::AllocError;

// The side of a region.
const SIDE: u32 = 50;

fn push(line: &mut Vec<u8>, bytes: &[u8]) -> Result<(), AllocError>
    ensures { OnOk result (line.new.items ≡ line.old.items ++ bytes.now) }
{
    line.extend_from_slice(bytes)
}

fn push_whole(line: &mut Vec<u8>, number: u32) -> Result<(), AllocError>
    ensures { OnOk result (line.new.items ≡ line.old.items ++ decimal number) }
{
    push(line, Buffer::new().format(number).as_bytes())
}

fn push_fix(line: &mut Vec<u8>, number: Fix) -> Result<(), AllocError>
    ensures { OnOk result (line.new.items ≡ line.old.items ++ fix_text number) }
{
    push(line, number.print().bytes())
}

fn push_corner(line: &mut Vec<u8>, x: u32, y: u32) -> Result<(), AllocError>
    ensures { OnOk result (line.new.items ≡ line.old.items ++ corner x y) }
{
    push(line, b" (")?;
    push_whole(line, x)?;
    push(line, b",")?;
    push_whole(line, y)?;
    push(line, b")")
}

/// The corners of a square, from the one with the least coordinates on, counterclockwise.
fn push_square(line: &mut Vec<u8>, x: u32, y: u32) -> Result<(), AllocError>
    requires x { x < 2 ^ 16 }
    requires y { y < 2 ^ 16 }
    ensures { OnOk result (line.new.items ≡ line.old.items ++ square_text x y) }
{
    push_corner(line, x, y)?;
    push_corner(line, x + SIDE, y)?;
    push_corner(line, x + SIDE, y + SIDE)?;
    push_corner(line, x, y + SIDE)
}

fn push_at(line: &mut Vec<u8>, x: u32, y: u32) -> Result<(), AllocError>
    ensures { OnOk result (line.new.items ≡ line.old.items ++ at_corner_text x y) }
{
    push(line, b" at")?;
    push_corner(line, x, y)
}

fn push_move(line: &mut Vec<u8>, x: Fix, y: Fix) -> Result<(), AllocError>
    ensures { OnOk result (line.new.items ≡ line.old.items ++ move_text x y) }
{
    push(line, b" move (")?;
    push_fix(line, x)?;
    push(line, b",")?;
    push_fix(line, y)?;
    push(line, b")")
}

fn push_region(line: &mut Vec<u8>, number: u32, draws: &mut Draws) -> Result<(), AllocError>
    ensures text { OnOk result (line.new.items ≡ line.old.items ++ region_text number draws.old.state) }
    ensures state { OnOk result (draws.new.state ≡ state_after 2 draws.old.state) }
{
    let x = draws.draw(950);
    let y = draws.draw(950);
    push(line, b"region r")?;
    push_whole(line, number)?;
    push_square(line, x, y)
}

fn push_car(
    line: &mut Vec<u8>,
    number: u32,
    x: u32,
    y: u32,
    dx: Fix,
    dy: Fix,
) -> Result<(), AllocError>
    ensures { OnOk result (line.new.items ≡ line.old.items ++ car_text number x y dx dy) }
{
    push(line, b"insert car c")?;
    push_whole(line, number)?;
    push_at(line, x, y)?;
    push_move(line, dx, dy)
}

fn push_insert(line: &mut Vec<u8>, number: u32, draws: &mut Draws) -> Result<(), AllocError>
    ensures text { OnOk result (line.new.items ≡ line.old.items ++ insert_text number draws.old.state) }
    ensures state { OnOk result (draws.new.state ≡ state_after 4 draws.old.state) }
{
    let x = draws.draw(1000);
    let y = draws.draw(1000);
    let dx = draws.slope();
    let dy = draws.slope();
    push_car(line, number, x, y, dx, dy)
}

fn push_update(line: &mut Vec<u8>, draws: &mut Draws) -> Result<(), AllocError>
    ensures text { OnOk result (line.new.items ≡ line.old.items ++ update_text draws.old.state) }
    ensures state { OnOk result (draws.new.state ≡ state_after 3 draws.old.state) }
{
    let car = draws.draw(CARS);
    let dx = draws.slope();
    let dy = draws.slope();
    push(line, b"update c")?;
    push_whole(line, car)?;
    push_move(line, dx, dy)
}

fn watch(number: u32) -> &'static [u8]
    ensures { result.now ≡ watch_text number }
{
    match number {
        0 => b"watch w0 3600 RETRIEVE o FROM car o WHERE INSIDE(o,r0)",
        1 => b"watch w1 3600 RETRIEVE o FROM car o WHERE EVENTUALLY_WITHIN 60 INSIDE(o,r1)",
        _ => b"watch w2 3600 RETRIEVE o,n FROM car o,car n WHERE DIST(o,n) <= 5 AND OUTSIDE(o,r2)",
    }
}

fn push_show(line: &mut Vec<u8>, number: u32) -> Result<(), AllocError>
    ensures { OnOk result (line.new.items ≡ line.old.items ++ codes "show w" ++ decimal number) }
{
    push(line, b"show w")?;
    push_whole(line, number)
}

/// Writes a line, with the numbers that it draws.
pub(crate) fn push_line(text: &mut Vec<u8>, line: Line, draws: &mut Draws) -> Result<(), AllocError>
    ensures text { OnOk result (text.new.items ≡ text.old.items ++ line_text line draws.old.state) }
    ensures state { OnOk result (draws.new.state ≡ state_after (draws_of line) draws.old.state) }
{
    match line {
        Line::Class => push(text, b"class car 200 point"),
        Line::Region(number) => push_region(text, number, draws),
        Line::Insert(number) => push_insert(text, number, draws),
        Line::Watch(number) => push(text, watch(number)),
        Line::Tick => push(text, b"tick 60"),
        Line::Update => push_update(text, draws),
        Line::Show(number) => push_show(text, number),
    }
}
