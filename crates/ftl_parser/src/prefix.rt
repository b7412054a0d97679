//! The words before a formula, which the grammar has besides the words of the tree.

/// A word that stands before one formula.
#[derive(Clone, Copy, PartialEq, Eq)]
pub(crate) enum Prefix {
    Not,
    Next,
    Eventually,
    Always,
}
