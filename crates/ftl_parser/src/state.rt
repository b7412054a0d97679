//! What a parser waits for.

use crate::lists::{Factors, Names};
use crate::{Term, Unit};
use case_table::Op;
use fixed_point::{Fix, Word};

/// A word that stands before two names in brackets.
#[derive(Clone, Copy, PartialEq, Eq)]
pub(crate) enum Pair {
    Inside,
    Outside,
    Dist,
}

/// What comes next before WHERE.
#[derive(Clone, Copy)]
pub(crate) enum Head {
    /// RETRIEVE.
    Start,
    /// A target.
    Target,
    /// A comma or FROM, after a target.
    Targets,
    /// A class.
    Class,
    /// The variable of this class.
    Var(Word),
    /// A comma or WHERE, after a variable.
    Parts,
}

/// Where a term stands.
#[derive(Drop)]
pub(crate) enum TermPlace {
    /// Before a comparison.
    Left,
    /// After this term and comparison.
    Right(Term, Op),
    /// In the brackets that assign it to this name.
    Assigned(Word),
}

/// What has been read of a factor: first whether it is taken away, then its multiplier.
#[derive(Clone, Copy)]
pub(crate) enum Factor {
    /// Nothing; a sign may come.
    First,
    /// Nothing but the sign.
    Wanted(bool),
    /// A number, as a literal and as a multiplier.
    Number(bool, Fix, u32),
    /// A multiplier and `*`.
    Times(bool, u32),
    /// A name.
    Alone(bool, Option<u32>, Word),
    /// A name and a point.
    Dotted(bool, Option<u32>, Word),
    /// A name and an attribute.
    Attr(bool, Option<u32>, Word, Word),
    /// A name, an attribute and a point.
    DottedTwice(bool, Option<u32>, Word, Word),
    /// A factor that nothing lengthens.
    Whole(bool, Option<u32>, Unit),
}

/// What comes next in an atom that begins with its word.
#[derive(Drop)]
pub(crate) enum Spatial {
    /// `(`, after a word before two names.
    PairOpen(Pair),
    /// The first name.
    PairFirst(Pair),
    /// `,`
    PairComma(Pair, Word),
    /// The second name.
    PairSecond(Pair, Word),
    /// `)`
    PairClose(Pair, Word, Word),
    /// The comparison of a distance.
    DistOp(Word, Word),
    /// The number with which a distance is compared; a sign may come.
    DistNum(Word, Word, Op),
    /// That number, after its sign.
    DistMinus(Word, Word, Op),
    /// `(`, after WITHIN_SPHERE.
    SphereOpen,
    /// The radius.
    SphereRadius,
    /// The comma after the radius.
    SphereComma(Fix),
    /// A name.
    SphereName(Fix, Names),
    /// A comma or `)`, after a name.
    SphereNames(Fix, Names),
}
