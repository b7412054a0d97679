//! Laws of the definitions, as calls without a body.
ghost use Rattle.std.specs.Prelude.{◌≡◌, ℕ, true, IsTrue};
ghost use Rattle.formula.specs.Resolved.{Scope, is_atom, is_term};
ghost use Rattle.formula.specs.declared.tree.RAtom.{RAtom};
ghost use Rattle.formula.specs.declared.tree.RTerm.{RTerm};
ghost use Rattle.atoms.specs.Sizes.{is_sized, is_sized_term};

/// Atoms and terms that are right by number are of the sizes that are asked here.
pub fn resolved_atoms_and_terms_are_sized()
    ensures atoms { (count : ℕ) (scope : Scope) (a : RAtom) → is_atom count scope a ≡ true → IsTrue (is_sized a) }
    ensures terms { (count : ℕ) (scope : Scope) (q : RTerm) → is_term count scope q ≡ true → IsTrue (is_sized_term q) }
{}
