//! Laws of what may be asked, as calls without a result.

ghost use Rattle.std.specs.Prelude.{◌≡◌, ◌<◌, ◌≤◌, ◌-◌, ℕ, true, List, length};
ghost use Rattle.geometry.specs.Region.{Region};
ghost use Rattle.tick_set.specs.declared.spans.TheConstants.{LAST_TICK, SPAN_LIMIT};
ghost use Rattle.formula.specs.Resolved.{IsResolved};
ghost use Rattle.formula.specs.Tree.{ResolvedQuery};
ghost use Rattle.formula.specs.Value.{no_values};
ghost use Rattle.meaning.specs.Fits.{FitsItsClasses};
ghost use Rattle.object_store.specs.Contents.{Contents, catalog_of};
ghost use Rattle.relation.specs.Key.{has_id, ids_of_variable};
ghost use Rattle.evaluator.specs.Interpreting.{CanAsk, IsOver};
ghost use Rattle.atoms.specs.Asked.{CanAskAtom, CanAskTerm, told_by, world_in};
ghost use Rattle.answers.specs.Objects.{AreOfItsClasses, IsOfAcceptedWrites};

use atoms::resolved_atoms_and_terms_are_sized;
use formula::a_resolved_formula_has_the_variables_that_there_are;
use meaning::{accepted_writes_lead_to_reachable_states, values_are_within_their_bounds};

/// Of the store of a session each atom and term of a query may be asked that is right by number and fits its
/// classes, where the variables have objects of their classes, and by all values that its assignments bind.
pub fn fitting_queries_can_be_asked()
    ensures asked { (s : Contents) (regions : List Region) (q : ResolvedQuery) (domains : List (List ℕ)) (lo hi : ℕ)
        → IsOfAcceptedWrites s → IsResolved q → FitsItsClasses (world_in s regions) q
        → AreOfItsClasses (catalog_of s) q domains → hi ≤ LAST_TICK → hi - lo ≤ SPAN_LIMIT
        → CanAsk (told_by s regions) (λ b a x. CanAskAtom s lo hi b a) (λ b p x. CanAskTerm s lo hi b p x)
        domains lo hi q.formula no_values }

    // The variables of such a query are those of its classes, and its objects are those of the store.
    ensures over { (q : ResolvedQuery) → IsResolved q → IsOver (length q.classes) q.formula }
    ensures objects { (s : Contents) (q : ResolvedQuery) (domains : List (List ℕ))
        → AreOfItsClasses (catalog_of s) q domains
        → (v id : ℕ) → has_id (ids_of_variable domains v) id ≡ true → id < length s.objects }
{
    accepted_writes_lead_to_reachable_states();
    values_are_within_their_bounds();
    resolved_atoms_and_terms_are_sized();
    a_resolved_formula_has_the_variables_that_there_are();
}
