//! The tree of a query, with everything by its name.

use crate::lists::{Factors, FromParts, Names};
use case_table::Op;
use fixed_point::{BoundForm, Fix, SubName, UntilForm, Word};

/// `RETRIEVE targets FROM from WHERE formula`
#[derive(Drop)]
pub struct Query {
    pub targets: Names,
    pub from: FromParts,
    pub formula: Formula,
}

/// A class and a variable that stands for its objects.
#[derive(Clone, Copy)]
pub struct FromPart {
    pub class: Word,
    pub var: Word,
}

/// What is judged at a tick.
#[derive(Drop)]
pub enum Formula {
    /// TRUE or FALSE.
    Truth(bool),
    Atom(Atom),
    Not(Box<Formula>),
    And(Box<Formula>, Box<Formula>),
    Or(Box<Formula>, Box<Formula>),
    /// NEXTTIME.
    Next(Box<Formula>),
    Eventually(Box<Formula>),
    Always(Box<Formula>),
    /// EVENTUALLY_WITHIN, EVENTUALLY_AFTER or ALWAYS_FOR so many ticks.
    Bounded(BoundForm, u32, Box<Formula>),
    /// UNTIL, UNTIL_WITHIN or UNTIL_AFTER so many ticks, which are 0 for UNTIL.
    Until(UntilForm, u32, Box<Formula>, Box<Formula>),
    /// `[name <- term] formula`
    Assign(Word, Term, Box<Formula>),
}

/// A formula without parts that are formulas.
#[derive(Drop)]
pub enum Atom {
    Compare(Term, Op, Term),
    /// A variable in a region.
    Inside(Word, Word),
    /// A variable that is not in a region.
    Outside(Word, Word),
    /// The distance of two variables, compared with a number.
    Dist(Word, Word, Op, Fix),
    /// Variables in a circle of this radius.
    Sphere(Fix, Names),
}

/// A sum of factors.
#[derive(Drop)]
pub struct Term {
    pub factors: Factors,
}

/// A factor, taken away where `minus` holds, and taken so many times where there is a multiplier.
#[derive(Clone, Copy)]
pub struct Signed {
    pub minus: bool,
    pub times: Option<u32>,
    pub unit: Unit,
}

/// What a factor is made of.
#[derive(Clone, Copy)]
pub enum Unit {
    Literal(Fix),
    Text(Word),
    /// A name that stands alone.
    Alone(Word),
    /// An attribute of a variable: `o.x`
    Attr(Word, Word),
    /// A part of a dynamic attribute of a variable: `o.x.value`
    Sub(Word, Word, SubName),
    /// TIME.
    Time,
}
