//! The lists in a query, in the order in which they are written.

use crate::{FromPart, Signed};
use fixed_point::{Items, Word};

/// Names.
pub type Names = Items<Word>;

/// The parts of FROM.
pub type FromParts = Items<FromPart>;

/// The factors of a term.
pub type Factors = Items<Signed>;
