//! What is told of registered queries.
ghost use Rattle.std.specs.Prelude.{◌≡◌};
ghost use Rattle.tick_set.specs.Runs.{pairs};

use fixed_point::Word;
use formula::{Binding, QueryKind};
use std::marker::Model;
use tick_set::Span;

/// A registered query: its name, whether it is watched or kept, the tick of its entry and its last tick.
#[derive(Clone, Copy, Debug)]
pub struct QueryInfo {
    pub name: Word,
    pub kind: QueryKind,
    pub entry: u32,
    pub expiry: u32,
}

/// A row of an answer: target objects by their numbers, and the runs of the ticks at which they satisfy the query.
/// Contracts see the numbers and the first and last ticks of the runs.
#[derive(Drop)]
pub struct AnswerRow {
    pub(crate) key: Binding,
    pub(crate) spans: Vec<Span>,
}

impl Model for AnswerRow {
    ghost use Rattle.tick_set.specs.Runs.{pairs};
    ghost use Rattle.meaning.specs.Answer.{Row};

    ghost Value = { Row };

    ghost view = { λ a. record { key = a.key; runs = pairs a.spans.items } };
}

impl AnswerRow {
    /// The target objects, in the order of the targets.
    #[inline]
    pub fn key(&self) -> &Binding
        ensures { result.now ≡ self.now.key }
    {
        &self.key
    }

    /// The runs, ascending.
    #[inline]
    pub fn spans(&self) -> &[Span]
        ensures { pairs result.now ≡ self.now.runs }
    {
        &self.spans
    }
}

/// What becomes otherwise for target objects of a query: the runs of the ticks that they gain and lose, and whether
/// they enter or leave now. Contracts see the runs as their first and last ticks.
#[derive(Drop)]
pub struct Move {
    pub(crate) query: Word,
    pub(crate) key: Binding,
    pub(crate) gained: Vec<Span>,
    pub(crate) lost: Vec<Span>,
    pub(crate) enters: bool,
    pub(crate) leaves: bool,
}

impl Model for Move {
    ghost use Rattle.tick_set.specs.Runs.{pairs};
    ghost use Rattle.live_queries.specs.Told.{Told};

    ghost Value = { Told };

    ghost view = { λ a. record { query = a.query; change = record { key = a.key; gained = pairs a.gained.items; lost = pairs a.lost.items; enters = a.enters; leaves = a.leaves } } };
}

impl Move {
    /// The name of the query.
    #[inline]
    pub fn query(&self) -> &Word
        ensures { result.now ≡ self.now.query }
    {
        &self.query
    }

    /// The target objects, in the order of the targets.
    #[inline]
    pub fn key(&self) -> &Binding
        ensures { result.now ≡ self.now.change.key }
    {
        &self.key
    }

    /// The runs of the ticks that they gain, ascending.
    #[inline]
    pub fn gained(&self) -> &[Span]
        ensures { pairs result.now ≡ self.now.change.gained }
    {
        &self.gained
    }

    /// The runs of the ticks that they lose, ascending.
    #[inline]
    pub fn lost(&self) -> &[Span]
        ensures { pairs result.now ≡ self.now.change.lost }
    {
        &self.lost
    }

    /// Whether they hold now and didn't before.
    #[inline]
    pub fn enters(&self) -> bool
        ensures { result ≡ self.now.change.enters }
    {
        self.enters
    }

    /// Whether they don't hold now and did before.
    #[inline]
    pub fn leaves(&self) -> bool
        ensures { result ≡ self.now.change.leaves }
    {
        self.leaves
    }
}
