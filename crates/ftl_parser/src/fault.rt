//! Why tokens are no query.

use thiserror::Error;

/// What of a command has a limit, in the order in which it is judged.
#[derive(Clone, Copy, Debug, PartialEq, Eq)]
pub enum Size {
    /// The points of a region: at most `geometry::VERTEX_LIMIT`.
    Vertices,
    /// The variables of FROM: at most [`OBJECT_LIMIT`](crate::OBJECT_LIMIT).
    Variables,
    /// The names in a WITHIN_SPHERE: at most [`OBJECT_LIMIT`](crate::OBJECT_LIMIT).
    Objects,
    /// The assignments in one another: at most [`NESTING_LIMIT`](crate::NESTING_LIMIT).
    Assignments,
    /// The operators, assignments and atoms of a formula: at most
    /// [`NODE_LIMIT`](crate::NODE_LIMIT).
    Nodes,
    /// The levels of a formula: at most [`DEPTH_LIMIT`](crate::DEPTH_LIMIT).
    Depth,
    /// The bytes of a name or a text: at most `fixed_point::WORD_LIMIT`.
    Length,
    /// The written attributes of a class: at most `motion::ATTRIBUTE_LIMIT`.
    Attributes,
    /// The factors of a term: at most [`FACTOR_LIMIT`](crate::FACTOR_LIMIT).
    Factors,
}

/// Why tokens can't be read as a query.
#[derive(Debug, Drop, Error)]
pub enum ParseFault {
    /// The tokens spell no query. The place after the longest run of tokens with which some query begins.
    #[error("no query goes on at token {0}")]
    BadSyntax(usize),
    /// The number at this token, counted from 0, is out of the form or range of its place.
    #[error("the number at token {0} is out of range")]
    NumberRange(usize),
    /// This size passes its limit.
    #[error("too large: {0:?}")]
    TooLarge(Size),
    /// There is no memory for the query.
    #[error("out of memory")]
    NoMemory,
}
