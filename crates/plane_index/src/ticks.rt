//! The ticks of a row.
ghost use Rattle.std.specs.Prelude.{◌≡◌, [], ◌∷◌, IfSome};
ghost use Rattle.tick_set.specs.Runs.{IsNormal};
ghost use Rattle.plane_index.specs.Ticks.{runs_found, HasRun};

use interval_set::IntervalSet;
use std::marker::Model;
use tick_set::Span;

/// Some ticks as their maximal runs. One run alone takes no memory.
#[derive(Drop)]
pub struct Ticks {
    held: Held,
}

#[derive(Drop)]
enum Held {
    Single([Span; 1]),
    Several(IntervalSet),
}

impl Model for Ticks {
    ghost use Rattle.std.specs.Prelude.{List};
    ghost use Rattle.tick_set.specs.declared.spans.Span.{Span};
    ghost use Rattle.tick_set.specs.Runs.{IsNormal};
    ghost use Rattle.plane_index.specs.Ticks.{runs_held};

    ghost Value = { List Span };

    ghost view = { λ t. runs_held t.held };

    ghost invariant = { λ t. IsNormal (runs_held t.held) };
}

impl Ticks {
    /// Those of one run.
    pub fn single(run: Span) -> Ticks
        ensures { result ≡ run ∷ [] }
    {
        Ticks {
            held: Held::Single([run]),
        }
    }

    /// Those of these maximal runs. None exactly where there is none.
    pub fn of(runs: Vec<Span>) -> Option<Ticks>
        requires { IsNormal runs.items }
        ensures runs { runs_found result ≡ runs.items }
        ensures some { IfSome result HasRun }
    {
        if runs.is_empty() {
            return None;
        }
        Some(Ticks {
            held: Held::Several(IntervalSet::from_runs(runs)),
        })
    }

    /// Their maximal runs, ascending. It takes no memory.
    #[inline]
    pub fn spans(&self) -> &[Span]
        ensures value { result.now ≡ self.now }
        ensures normal { IsNormal result.now }
    {
        match &self.held {
            Held::Single(run) => run.as_slice(),
            Held::Several(set) => set.spans(),
        }
    }
}
