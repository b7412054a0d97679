//! The small sets of words from which formulas choose.

/// A part of a dynamic attribute, written after a point, as in `o.x.value`.
#[derive(Clone, Copy, Debug, PartialEq, Eq, Hash, PartialOrd, Ord)]
pub enum SubName {
    /// The value at the last update.
    Value,
    /// The tick of the last update.
    UpdateTime,
    /// The slope, in thousandths per tick.
    Function,
}

/// How an operator on one formula is bounded: `EVENTUALLY_WITHIN`, `EVENTUALLY_AFTER` or `ALWAYS_FOR`.
#[derive(Clone, Copy, Debug, PartialEq, Eq, Hash, PartialOrd, Ord)]
pub enum BoundForm {
    /// At some tick, at most so many ticks ahead.
    Within,
    /// At some tick, at least so many ticks ahead.
    After,
    /// At each tick, up to so many ticks ahead.
    Always,
}

/// How an UNTIL is bounded: not at all, or as `UNTIL_WITHIN` or `UNTIL_AFTER`.
#[derive(Clone, Copy, Debug, PartialEq, Eq, Hash, PartialOrd, Ord)]
pub enum UntilForm {
    /// At some tick.
    Plain,
    /// At some tick, at most so many ticks ahead.
    Within,
    /// At some tick, at least so many ticks ahead.
    After,
}
