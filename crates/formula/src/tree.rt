//! The tree of a query, with its variables, classes, attributes and regions by their numbers.
//!
//! An object variable is its index in FROM, and an attribute its index in the class, where `x` and `y` stand
//! first. An assignment is its depth: the number of assignments around it.

use case_table::Op;
use fixed_point::{BoundForm, Fix, Items, SubName, UntilForm, Word};

/// A class by its number.
pub type ClassNo = u32;

/// `RETRIEVE targets FROM classes WHERE formula`; each object variable ranges over the objects of its class.
#[derive(Drop)]
pub struct RQuery {
    pub targets: Items<u8>,
    pub classes: Items<ClassNo>,
    pub formula: RFormula,
}

/// What is judged at a tick.
#[derive(Drop)]
pub enum RFormula {
    /// TRUE or FALSE.
    Truth(bool),
    Atom(RAtom),
    Not(Box<RFormula>),
    And(Box<RFormula>, Box<RFormula>),
    Or(Box<RFormula>, Box<RFormula>),
    /// NEXTTIME.
    Next(Box<RFormula>),
    Eventually(Box<RFormula>),
    Always(Box<RFormula>),
    /// EVENTUALLY_WITHIN, EVENTUALLY_AFTER or ALWAYS_FOR so many ticks.
    Bounded(BoundForm, u32, Box<RFormula>),
    /// UNTIL, UNTIL_WITHIN or UNTIL_AFTER so many ticks, which are 0 for UNTIL.
    Until(UntilForm, u32, Box<RFormula>, Box<RFormula>),
    /// The value of the term is bound, at this depth, for the formula after it.
    Assign(u8, RTerm, Box<RFormula>),
}

/// A formula without parts that are formulas.
#[derive(Drop)]
pub enum RAtom {
    Compare(RTerm, Op, RTerm),
    /// A variable in a region.
    Inside(u8, u32),
    /// A variable that is not in a region.
    Outside(u8, u32),
    /// The distance of two variables, compared with a number of thousandths.
    Dist(u8, u8, Op, Fix),
    /// Variables in a circle of this radius, in thousandths.
    Sphere(Fix, Items<u8>),
}

/// A sum of factors.
#[derive(Drop)]
pub struct RTerm {
    pub factors: Items<RSigned>,
}

/// A factor, taken away where `minus` holds, and taken so many times where there is a multiplier.
#[derive(Clone, Copy)]
pub struct RSigned {
    pub minus: bool,
    pub times: Option<u32>,
    pub unit: RUnit,
}

/// What a factor is made of. A bound is the largest size that a value has, in thousandths, and 0 for a text.
#[derive(Clone, Copy)]
pub enum RUnit {
    Literal(Fix),
    Text(Word),
    /// The value that the assignment of this depth binds, and the bound of its term.
    Var(u8, i128),
    /// An attribute of a variable, and its bound.
    Attr(u8, u8, i128),
    /// A part of a dynamic attribute of a variable.
    Sub(u8, u8, SubName),
    /// TIME.
    Time,
}
