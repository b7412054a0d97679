//! The limits by their numbers, laws of the definitions, and a formula worked out by hand, as calls that do
//! nothing.

ghost use Rattle.std.specs.Prelude.{◌≡◌, ◌<◌, ◌*◌, ◌^◌, ◌==◌, ℕ, Bool, false, true, Some, None};
ghost use Rattle.formula.specs.Example.{HasBounds, HasSizes, HasVariables, IsRightByNumber};
ghost use Rattle.formula.specs.Resolved.{Scope, is_formula};
ghost use Rattle.formula.specs.Tree.{ResolvedTree};
ghost use Rattle.formula.specs.Value.{no_values, value_in, with_value};
ghost use Rattle.formula.specs.Variables.{has_variable, variables_in};
ghost use Rattle.formula.specs.declared.value.Env.{Env};
ghost use Rattle.formula.specs.declared.value.Value.{Value};

use crate::limits::{DYNAMIC_BOUND, QUERY_LIMIT, TIME_BOUND};
use formula_shape::{NESTING_LIMIT, OBJECT_LIMIT};
use tick_set::LAST_TICK;

/// The limits of this crate, in numbers; those of queries are `formula_shape`'s.
pub fn limits_in_numbers()
    ensures dynamic { DYNAMIC_BOUND ≡ 1001 * 10 ^ 12 }
    ensures time { TIME_BOUND ≡ 1000 * LAST_TICK }
    ensures queries { QUERY_LIMIT ≡ 2 ^ 8 }
{}

/// A value is found at the depth at which it was bound last, up to the limit of nesting, and nowhere else.
pub fn values_are_found_by_depth()
    ensures none { (d : ℕ) → value_in no_values d ≡ None }
    ensures bound { (x : Env) (d : ℕ) (v : Value) → d < NESTING_LIMIT → value_in (with_value x d v) d ≡ Some v }
    ensures others { (x : Env) (d e : ℕ) (v : Value) → (d == e) ≡ false
        → value_in (with_value x d v) e ≡ value_in x e }
{}

/// Tests that agree on all variables have the same variables.
pub fn tests_that_agree_have_the_same_variables()
    ensures { (p q : ℕ → Bool) → ((v : ℕ) → v < OBJECT_LIMIT → p v ≡ q v) → variables_in p ≡ variables_in q }
{}

/// The object variables of a formula are those of its atoms and of the terms that it binds, each once.
pub fn a_small_formula_has_its_variables()
    ensures { HasVariables }
{}

/// The bound of a term by the table of units.
pub fn small_terms_have_their_bounds()
    ensures { HasBounds }
{}

/// The sizes of a formula.
pub fn a_small_formula_has_its_sizes()
    ensures { HasSizes }
{}

/// What is right of queries by number, and what isn't.
pub fn small_formulas_are_right_by_number()
    ensures { IsRightByNumber }
{}

/// The variables of a formula that is right are some of those that there are.
pub fn a_resolved_formula_has_the_variables_that_there_are()
    ensures { (count around : ℕ) (scope : Scope) (f : ResolvedTree) → is_formula count around scope f ≡ true
        → (v : ℕ) → has_variable v f ≡ true → v < count }
{}
