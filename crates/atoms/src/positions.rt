//! Where the objects of a part are, and the ticks at which they are in a region.
ghost use Rattle.std.specs.Prelude.{◌≡◌, ◌-◌, ◌≤◌, ◌&&◌, ℕ, false, not, None, Some, IfNone, IfSome, option_map, option_to_list, IsTrue};
ghost use Rattle.std.specs.Option.{option_map_or};
ghost use Rattle.linear_crossing.specs.Moving.{IsInReach, position_after};
ghost use Rattle.meaning.specs.Atom.{is_in_region, position_in};
ghost use Rattle.tick_set.specs.Runs.{IsRuns};
ghost use Rattle.tick_set.specs.Ticks.{within};
ghost use Rattle.atoms.specs.Found.{AreRunsWhere};
ghost use Rattle.atoms.specs.Naming.{asks_place};
ghost use Rattle.atoms.specs.Parts.{AreSteady, epoch_of, shown};

use crate::found::{nowhere, one_run, outside_of};
use crate::parts::Part;
use courses::place_line;
use distance_crossing::Triple;
use linear_crossing::Line;
use polygon::Regions;
use tick_set::Span;

/// The line along which the object of a variable moves in the part. None where it has no place.
pub fn line_of(part: &Part, v: u8) -> Option<Line>
    requires steady { AreSteady part.now }
    requires asked { IsTrue (asks_place part.now.asked) }
    ensures reach { IfSome result IsInReach }
    ensures places { (t : ℕ) → part.now.span.lo ≤ t → t ≤ part.now.span.hi
        → position_in t (shown part.now v t) ≡ option_map (λ l. position_after l (t - part.now.span.lo)) result }
    ensures absent { epoch_of part.now v ≡ None → result ≡ None }
{
    place_line(part.epoch(v)?, part.span)
}

/// The ticks of the part at which the object of a variable is in the region of a number.
pub fn inside(v: u8, n: u32, part: &Part, regions: &Regions) -> Triple
    requires steady { AreSteady part.now }
    requires asked { IsTrue (asks_place part.now.asked) }
    ensures { AreRunsWhere (λ t. within part.now.span.lo part.now.span.hi t
        && option_map_or (is_in_region regions.now n) (position_in t (shown part.now v t)) false) result }
{
    match line_of(part, v) {
        Some(line) => one_run(inside_run(&line, n, part.span, regions)),
        None => nowhere(),
    }
}

/// The ticks of the part at which the object of a variable has a place that is not in the region of a number.
pub fn outside(v: u8, n: u32, part: &Part, regions: &Regions) -> Triple
    requires steady { AreSteady part.now }
    requires asked { IsTrue (asks_place part.now.asked) }
    ensures { AreRunsWhere (λ t. within part.now.span.lo part.now.span.hi t
        && option_map_or (λ p. not (is_in_region regions.now n p)) (position_in t (shown part.now v t)) false) result }
{
    match line_of(part, v) {
        Some(line) => outside_of(part.span, inside_run(&line, n, part.span, regions)),
        None => nowhere(),
    }
}

/// The ticks of the span at which a moving point is in the region of a number; none where there is no such
/// region.
#[inline(always)]
pub fn inside_run(line: &Line, n: u32, span: Span, regions: &Regions) -> Option<Span>
    ensures { IsRuns (λ t. within span.lo span.hi t && is_in_region regions.now n (position_after line.now (t - span.lo)))
        (option_to_list result) }
{
    regions.get(n)?.inside_ticks(line, span.window())
}
