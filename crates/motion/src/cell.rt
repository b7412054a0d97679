//! The cells of an object's state, and what a command gives for them.
ghost use Rattle.std.specs.Prelude.{◌≡◌, pos, []};
ghost use Rattle.motion.specs.Function.{level};
ghost use Rattle.tick_set.specs.Ticks.{IsTick};
ghost use Rattle.motion.specs.Cells.{fresh, written, IsCellAt, IsGiven};

use crate::legs::Legs;
use crate::vector::Vector;
use fixed_point::{Fix, Point, Slope, Word};

/// The kind of an attribute.
#[derive(Clone, Copy, Debug, PartialEq, Eq)]
pub enum AttrKind {
    /// A number that stays until it is written again.
    Num,
    /// A text that stays until it is written again.
    Text,
    /// A number that moves between updates.
    Dyn,
}

/// What an object has for one attribute.
#[derive(Clone, Copy, Debug)]
pub enum Cell {
    Num(Fix),
    Text(Word),
    Dyn(Vector),
}

impl Cell {
    /// The cell of a kind that an insert at tick `now` begins with: 0, the empty text, or at rest at 0.
    pub fn fresh(kind: AttrKind, now: u32) -> Cell
        requires { IsTick now }
        ensures value { result ≡ fresh now kind }
        ensures written { IsCellAt result now }
    {
        match kind {
            AttrKind::Num => Cell::Num(zero()),
            AttrKind::Text => Cell::Text(empty()),
            AttrKind::Dyn => Cell::Dyn(Vector::begun(now, zero(), still())),
        }
    }

    /// Writes at tick `now`, which isn't before its last write. What doesn't fit its kind leaves it as it is.
    pub fn write(&mut self, now: u32, given: &Given)
        requires tick { IsTick now }
        requires after { IsCellAt self.old now }
        requires limits { IsGiven given.now }
        ensures value { self.new ≡ written now self.old given.now }
        ensures written { IsCellAt self.new now }
    {
        match (self, given) {
            (Cell::Num(number), Given::Num(new)) => *number = *new,
            (Cell::Text(text), Given::Text(new)) => *text = *new,
            (Cell::Dyn(vector), Given::Num(value)) => *vector = vector.moved(now, *value),
            (Cell::Dyn(vector), Given::Rate(legs)) => *vector = vector.turned(now, *legs),
            (Cell::Dyn(vector), Given::Both(value, legs)) => {
                *vector = Vector::begun(now, *value, *legs);
            }
            _ => {}
        }
    }
}

fn zero() -> Fix
    ensures { result ≡ pos 0 }
{
    Fix::of(0).unwrap()
}

fn empty() -> Word
    ensures { result ≡ [] }
{
    Word::of(b"").unwrap()
}

fn still() -> Legs
    ensures { result ≡ level }
{
    Legs::steady(Slope::of(0).unwrap())
}

/// What a command gives for one attribute.
#[derive(Clone, Copy, Debug)]
pub enum Given {
    /// The number of a static attribute, or the value of a dynamic one, in thousandths.
    Num(Fix),
    /// The text of a static attribute.
    Text(Word),
    /// The legs of a dynamic attribute.
    Rate(Legs),
    /// Both the value and the legs of a dynamic attribute.
    Both(Fix, Legs),
}

/// What a command gives for the attribute of this name.
#[derive(Clone, Copy, Debug)]
pub struct NamedSet {
    pub name: Word,
    pub given: Given,
}

/// What a command gives for the position of a point object: where it is, and the legs of x and y.
#[derive(Clone, Copy, Debug)]
pub struct Place {
    pub at: Option<Point>,
    pub moving: Option<(Legs, Legs)>,
}
