//! The tree of a line, with everything by its name.

use crate::lists::{Attributes, Points, Settings};
use crate::placement::Placement;
use fixed_point::{Fix, Word};
use ftl_parser::Query;

/// What a line asks for. Numbers are in the ranges of their places, and a span counts ticks.
#[derive(Drop)]
pub enum Command {
    /// A blank line or a comment.
    Nothing,
    List,
    Quit,
    /// A class of objects: at most so many names, whether they have a place, and their attributes.
    Class {
        name: Word,
        capacity: u32,
        point: bool,
        attrs: Attributes,
    },
    /// A polygon, by its points in order.
    Region {
        name: Word,
        points: Points,
    },
    /// An object of a class, with its place and the settings of its attributes.
    Insert {
        class: Word,
        name: Word,
        place: Placement,
        sets: Settings,
    },
    /// What changes of an object.
    Update {
        name: Word,
        place: Placement,
        sets: Settings,
    },
    Remove {
        name: Word,
    },
    /// So many ticks pass.
    Tick {
        ticks: u32,
    },
    /// A query that is answered once.
    Ask {
        span: u32,
        query: Query,
    },
    /// A query whose answer from now on is kept up to date.
    Watch {
        name: Word,
        span: u32,
        query: Query,
    },
    /// A query whose answer from its entry on is kept up to date.
    Keep {
        name: Word,
        span: u32,
        query: Query,
    },
    Show {
        name: Word,
    },
    Drop {
        name: Word,
    },
    Save {
        file: Word,
    },
    Import {
        class: Word,
        file: Word,
    },
    Export {
        class: Word,
        file: Word,
    },
    /// The `k` objects of a class that are nearest to an object.
    Nearest {
        span: u32,
        k: u32,
        object: Word,
        class: Word,
    },
    /// A query under each error of the positions up to a size.
    Must {
        error: Fix,
        span: u32,
        query: Query,
    },
    /// A query under some error of the positions up to a size.
    May {
        error: Fix,
        span: u32,
        query: Query,
    },
    /// An index over an attribute of a class, in strips of values of this width.
    Index {
        class: Word,
        attr: Word,
        width: Fix,
    },
    /// The objects of a class whose attribute is in a range of values.
    Range {
        span: u32,
        class: Word,
        attr: Word,
        least: Fix,
        greatest: Fix,
    },
}
