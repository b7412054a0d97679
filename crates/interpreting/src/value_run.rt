//! Runs of a term's value.
use formula::Value;
use tick_set::Span;

/// Ticks without a gap at each of which a term has the same value.
#[derive(Clone, Copy, Debug)]
pub struct ValueRun {
    pub span: Span,
    pub value: Value,
}
