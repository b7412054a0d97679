//! The ticks of a part at which some objects fit a circle.
ghost use Rattle.std.specs.Prelude.{◌≡◌, ◌==◌, ◌+◌, ◌-◌, ◌<◌, ◌≤◌, ◌&&◌, ℕ, true, false, All, None, Some, IfSome, IsTrue, length, option_map, take};
ghost use Rattle.std.specs.List.{list_any};
ghost use Rattle.std.specs.Option.{option_map_or};
ghost use Rattle.distance_crossing.specs.NearTicks.{positions_after};
ghost use Rattle.geometry.specs.Circle.{IsRadius, fits};
ghost use Rattle.linear_crossing.specs.Moving.{IsInReach};
ghost use Rattle.meaning.specs.Atom.{positions_of};
ghost use Rattle.tick_set.specs.Ticks.{within};
ghost use Rattle.tick_set.specs.Windows.{IsQuerySpan};
ghost use Rattle.formula_shape.specs.declared.limits.TheConstants.{OBJECT_LIMIT};
ghost use Rattle.formula_shape.specs.Sizes.{FitInQuery};
ghost use Rattle.atoms.specs.Found.{AreRunsWhere};
ghost use Rattle.atoms.specs.Naming.{asks_place};
ghost use Rattle.atoms.specs.Parts.{AreSteady, epoch_of, shown};

use crate::found::{nowhere, one_run};
use crate::parts::Part;
use crate::positions::line_of;
use distance_crossing::{Triple, together};
use fixed_point::{Fix, Point, Slope};
use formula::OBJECT_LIMIT;
use linear_crossing::Line;
use std::sync::ledger::Ledger;
use steps::Steps;

// The lines of up to four objects.
#[derive(Clone, Copy)]
struct Lines {
    items: [Line; OBJECT_LIMIT],
    len: usize,
}

/// The ticks of the part at which the objects of the variables have places that fit a circle of radius `r`.
pub fn in_circle<M: Ledger>(r: Fix, vs: &[u8], part: &Part, probes: &mut Steps<M>) -> Triple
    requires radius { IsRadius r }
    requires few { FitInQuery vs.now }
    requires steady { AreSteady part.now }
    requires asked { IsTrue (asks_place part.now.asked) }
    requires length { IsQuerySpan part.now.span }
    ensures runs { AreRunsWhere (λ t. within part.now.span.lo part.now.span.hi t
        && option_map_or (fits r) (positions_of (shown part.now) t vs.now) false) result }
    ensures cost { probes.new ≤ probes.old + 360 }
    ensures absent { (v : ℕ) → list_any (λ u. u == v) vs.now ≡ true → epoch_of part.now v ≡ None → probes.new ≡ probes.old }
{
    match lines_of(vs, part) {
        Some(lines) => one_run(together(r, &lines.items[..lines.len], part.span.window(), probes)),
        None => nowhere(),
    }
}

// The lines of the objects of the variables. None where one of them has no place.
fn lines_of(vs: &[u8], part: &Part) -> Option<Lines>
    requires few { FitInQuery vs.now }
    requires steady { AreSteady part.now }
    requires asked { IsTrue (asks_place part.now.asked) }
    ensures count { IfSome result (λ lines. lines.len ≤ OBJECT_LIMIT) }
    ensures reach { IfSome result (λ lines. All IsInReach (take lines.len lines.items)) }
    ensures places { (t : ℕ) → part.now.span.lo ≤ t → t ≤ part.now.span.hi
        → positions_of (shown part.now) t vs.now
        ≡ option_map (λ lines. positions_after (take lines.len lines.items) (t - part.now.span.lo)) result }
    ensures absent { (v : ℕ) → list_any (λ u. u == v) vs.now ≡ true → epoch_of part.now v ≡ None → result ≡ None }
{
    let mut lines = [still(); OBJECT_LIMIT];
    let mut len = 0;
    let mut rest = vs;
    'placing: while let Some((v, later)) = rest.split_first() {
        lines[len] = line_of(part, *v)?;
        len += 1;
        rest = later;
    }
    Some(Lines { items: lines, len })
}

// A line for the places that no object has taken.
fn still() -> Line {
    let zero = Fix::of(0).unwrap();
    let rest = Slope::of(0).unwrap();
    Line {
        at: Point { x: zero, y: zero },
        dx: rest,
        dy: rest,
    }
}
