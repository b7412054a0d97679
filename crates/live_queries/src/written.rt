//! What functions on a write and on the rows of a query hand on: an object that was written, a write, what a query gets, and
//! a query whose rows are judged.
use crate::objects::Objects;
use answers::StoredWorld;
use formula::{ClassNo, RQuery};
use interval_set::IntervalSet;
use kept_rows::KeptRows;
use tick_set::Window;

/// An object that was written.
#[derive(Drop)]
pub(crate) struct Written {
    pub(crate) id: u32,
    pub(crate) class: ClassNo,
    /// How many objects its class has, and its place among them.
    pub(crate) count: usize,
    pub(crate) place: u32,
}

/// A write to an object at a tick, and the world after it.
#[derive(Clone, Copy)]
pub(crate) struct WriteTo<'a> {
    pub(crate) object: &'a Written,
    pub(crate) present: Present<'a>,
}

/// A stored world at the tick of a command.
#[derive(Clone, Copy)]
pub(crate) struct Present<'a> {
    pub(crate) world: &'a StoredWorld<'a>,
    pub(crate) tick: u32,
}

/// What comes to a query: an object that was written, which is one more for the variables of its class if the query grows.
#[derive(Clone, Copy)]
pub(crate) struct Arrival<'a> {
    pub(crate) object: &'a Written,
    pub(crate) grows: bool,
}

/// A query with its columns, and the world in which it is asked.
#[derive(Clone, Copy)]
pub(crate) struct Inquiry<'a> {
    pub(crate) query: &'a RQuery,
    pub(crate) columns: &'a [Objects],
    pub(crate) world: &'a StoredWorld<'a>,
}

/// A query with its rows, of which those of some bindings are judged anew in a world over a window. Before tick `from` they
/// stay as they are.
#[derive(Drop)]
pub(crate) struct Judged<'a> {
    pub(crate) query: &'a RQuery,
    pub(crate) rows: &'a KeptRows<IntervalSet>,
    pub(crate) world: &'a StoredWorld<'a>,
    pub(crate) w: Window,
    pub(crate) from: u32,
}
