//! Rows of answers.

ghost use Rattle.std.specs.Prelude.{◌≡◌};
ghost use Rattle.tick_set.specs.Runs.{pairs};
ghost use Rattle.answers.specs.Told.{told_row, told_rows};

use interval_set::IntervalSet;
use relation::Row;
use std::marker::Model;
use tick_set::{Span, runs_are_those_of_the_list};

/// The answer to a query: a row for each choice of objects for its targets that satisfies it at some tick, in
/// the order of first insertion, target by target. A contract sees the rows, each with the numbers of its
/// objects and the maximal runs of its ticks.
#[derive(Drop)]
pub struct Answer {
    pub(crate) rows: Vec<Row<IntervalSet>>,
}

impl Model for Answer {
    ghost use Rattle.std.specs.Prelude.{List};
    ghost use Rattle.meaning.specs.Answer.{Row};
    ghost use Rattle.answers.specs.Told.{told_rows};

    ghost Value = { List Row };

    ghost view = { λ a. told_rows a.rows.items };
}

impl Answer {
    /// The rows. The ticks of each are told by [`spans_of`].
    #[inline]
    pub fn rows(&self) -> &[Row<IntervalSet>]
        ensures { told_rows result.now ≡ self.now }
    {
        &self.rows
    }
}

/// The maximal runs of the ticks of a row, ascending.
pub fn spans_of(row: &Row<IntervalSet>) -> &[Span]
    ensures { pairs result.now ≡ (told_row row.now).runs }
{
    runs_are_those_of_the_list();
    row.set.spans()
}
