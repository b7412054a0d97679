//! The ticks of a part at which an atom holds.
ghost use Rattle.std.specs.Prelude.{◌≡◌, ◌+◌, ◌-◌, ◌≤◌, ◌&&◌, ℕ, true, None, IsTrue};
ghost use Rattle.formula.specs.Variables.{atom_has};
ghost use Rattle.meaning.specs.Atom.{atom_holds};
ghost use Rattle.tick_set.specs.Ticks.{within};
ghost use Rattle.tick_set.specs.Windows.{IsQuerySpan};
ghost use Rattle.atoms.specs.Found.{AreRunsWhere};
ghost use Rattle.atoms.specs.Naming.{asks_atom};
ghost use Rattle.atoms.specs.Parts.{AreSteady, epoch_of, shown};
ghost use Rattle.atoms.specs.Probes.{probe_limit};
ghost use Rattle.atoms.specs.Sizes.{is_sized};

use crate::circles::in_circle;
use crate::comparisons::compared;
use crate::distances::at_distance;
use crate::parts::Part;
use crate::positions::{inside, outside};
use distance_crossing::Triple;
use formula::{Env, RAtom};
use polygon::Regions;
use std::sync::ledger::Ledger;
use steps::Steps;

/// The ticks of the part at which the atom holds. Where one of its objects is not there yet, it takes no probe.
pub fn judged<M: Ledger>(
    a: &RAtom,
    part: &Part,
    env: &Env,
    regions: &Regions,
    probes: &mut Steps<M>,
) -> Triple
    requires sized { IsTrue (is_sized a.now) }
    requires steady { AreSteady part.now }
    requires asked { IsTrue (asks_atom part.now.asked a.now) }
    requires length { IsQuerySpan part.now.span }
    ensures runs { AreRunsWhere (λ t. within part.now.span.lo part.now.span.hi t
        && atom_holds regions.now (shown part.now) a.now env.now t) result }
    ensures cost { probes.new ≤ probes.old + probe_limit a.now (part.now.span.hi - part.now.span.lo) }
    ensures absent { (v : ℕ) → atom_has v a.now ≡ true → epoch_of part.now v ≡ None → probes.new ≡ probes.old }
{
    match a {
        RAtom::Compare(left, op, right) => compared(left, *op, right, part, env),
        RAtom::Inside(v, n) => inside(*v, *n, part, regions),
        RAtom::Outside(v, n) => outside(*v, *n, part, regions),
        RAtom::Dist(from, to, op, c) => at_distance(*from, *to, *op, *c, part, probes),
        RAtom::Sphere(r, vs) => in_circle(*r, vs.items(), part, probes),
    }
}
