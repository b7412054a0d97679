//! The attributes that an atom names.
ghost use Rattle.std.specs.Prelude.{IsTrue};
ghost use Rattle.atoms.specs.Naming.{asks_atom};

use formula::RAtom;
use motion::Asked;

/// Attributes that are all that an atom names: x and y of whose place it tells, and each for a comparison.
pub fn named_by(atom: &RAtom) -> Asked<'static>
    ensures { IsTrue (asks_atom result atom.now) }
{
    match atom {
        RAtom::Compare(_, _, _) => Asked::All,
        RAtom::Inside(_, _)
        | RAtom::Outside(_, _)
        | RAtom::Dist(_, _, _, _)
        | RAtom::Sphere(_, _) => Asked::These(&[0, 1]),
    }
}
