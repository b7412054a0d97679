//! The ticks of a part at which the distance of two objects compares with a number.
ghost use Rattle.std.specs.Prelude.{◌≡◌, ◌+◌, ◌-◌, ◌≤◌, ◌&&◌, None, Some, IsTrue, nat_le, if◌then◌else◌};
ghost use Rattle.distance_crossing.specs.declared.near.TheConstants.{SHORT_WINDOW};
ghost use Rattle.fixed_point.specs.declared.number.TheConstants.{READ_LIMIT};
ghost use Rattle.formula.specs.Resolved.{is_within};
ghost use Rattle.linear_crossing.specs.Moving.{IsInReach, position_after};
ghost use Rattle.meaning.specs.Atom.{distance_holds, position_in};
ghost use Rattle.tick_set.specs.Ticks.{within};
ghost use Rattle.tick_set.specs.Windows.{IsQuerySpan, IsQueryWindow};
ghost use Rattle.atoms.specs.Found.{AreRunsWhere};
ghost use Rattle.atoms.specs.Naming.{asks_place};
ghost use Rattle.atoms.specs.Parts.{AreSteady, epoch_of, shown};

use crate::found::nowhere;
use crate::parts::Part;
use crate::positions::line_of;
use case_table::Op;
use distance_crossing::{Triple, compare_motions};
use fixed_point::Fix;
use linear_crossing::Line;
use std::sync::ledger::Ledger;
use steps::Steps;
use tick_set::Window;

/// The ticks of the part at which the objects of two variables have places whose distance compares so with a
/// number of thousandths.
pub fn at_distance<M: Ledger>(
    from: u8,
    to: u8,
    op: Op,
    c: Fix,
    part: &Part,
    probes: &mut Steps<M>,
) -> Triple
    requires sized { IsTrue (is_within READ_LIMIT c) }
    requires steady { AreSteady part.now }
    requires asked { IsTrue (asks_place part.now.asked) }
    requires length { IsQuerySpan part.now.span }
    ensures runs { AreRunsWhere (λ t. within part.now.span.lo part.now.span.hi t
        && distance_holds op c (position_in t (shown part.now from t)) (position_in t (shown part.now to t))) result }
    ensures cost { probes.new ≤ probes.old + (if nat_le (part.now.span.hi - part.now.span.lo) SHORT_WINDOW then 47 else 63) }
    ensures from_absent { epoch_of part.now from ≡ None → probes.new ≡ probes.old }
    ensures to_absent { epoch_of part.now to ≡ None → probes.new ≡ probes.old }
{
    match line_of(part, from) {
        Some(first) => match line_of(part, to) {
            Some(second) => compare_motions(&first, &second, op, c, part.span.window(), probes),
            None => nowhere(),
        },
        None => nowhere(),
    }
}

/// The ticks of the window at which the distance of two motions compares so with a number of thousandths.
pub fn apart<M: Ledger>(
    first: &Line,
    second: &Line,
    op: Op,
    c: Fix,
    w: Window,
    probes: &mut Steps<M>,
) -> Triple
    requires first_in_reach { IsInReach first.now }
    requires second_in_reach { IsInReach second.now }
    requires sized { IsTrue (is_within READ_LIMIT c) }
    requires length { IsQueryWindow w }
    ensures runs { AreRunsWhere (λ t. within w.lo w.hi t
        && distance_holds op c (Some (position_after first.now (t - w.lo))) (Some (position_after second.now (t - w.lo)))) result }
    ensures cost { probes.new ≤ probes.old + (if nat_le (w.hi - w.lo) SHORT_WINDOW then 47 else 63) }
{
    compare_motions(first, second, op, c, w, probes)
}
