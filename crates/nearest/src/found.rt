//! The runs of ticks that are found for the objects, from the first tick to the last.
ghost use Rattle.std.specs.Prelude.{◌≡◌, ◌==◌, ◌<◌, ◌&&◌, ◌||◌, ℕ, true, [], length, IfOk, OnOk};
ghost use Rattle.tick_set.specs.Runs.{IsNormal, spans_have};
ghost use Rattle.nearest.specs.Found.{runs_at};
ghost use Rattle.exact.specs.Lists.{SameLength};

use std::alloc::{AllocError, Global};
use tick_set::{Runs, Span};

/// No runs for each of so many objects.
pub fn none_found(alloc: Global, count: usize) -> Result<Vec<Runs>, AllocError>
    ensures length { IfOk result (λ found. length found.items ≡ count) }
    ensures none { IfOk result (λ found. (i : ℕ) → runs_at found.items i ≡ []) }
{
    let mut found = Vec::with_capacity(alloc, count)?;
    'objects: while found.len() < count {
        found.push(Runs::new(alloc))?;
    }
    Ok(found)
}

/// Adds runs, which are past those that are there, to those of an index.
pub fn append_at(found: &mut Vec<Runs>, index: usize, runs: &[Span]) -> Result<(), AllocError>
    requires index { index < length found.old.items }
    requires normal { IsNormal runs.now }
    requires past { (t u : ℕ) → spans_have (runs_at found.old.items index) t ≡ true → spans_have runs.now u ≡ true → t < u }
    ensures length { SameLength found.new.items found.old.items }
    ensures runs { OnOk result ((i t : ℕ) → i < length found.old.items → spans_have (runs_at found.new.items i) t
        ≡ (spans_have (runs_at found.old.items i) t || ((index == i) && spans_have runs.now t))) }
{
    append_all(&mut found[index], runs)
}

fn append_all(runs: &mut Runs, more: &[Span]) -> Result<(), AllocError>
    requires normal { IsNormal more.now }
    requires past { (t u : ℕ) → spans_have runs.old t ≡ true → spans_have more.now u ≡ true → t < u }
    ensures { OnOk result ((t : ℕ) → spans_have runs.new t ≡ (spans_have runs.old t || spans_have more.now t)) }
{
    'spans: for span in more {
        runs.append(Some(*span))?;
    }
    Ok(())
}
