//! Laws of the definitions, as calls without a body.
ghost use Rattle.std.specs.Prelude.{◌≡◌, ◌==◌, ◌<◌, ◌≤◌, ◌↔◌, ◌+◌, ℕ, ℤ, pos, unsigned_abs, Bool, true, false, min, nat_le, nat_lt, ◌&&◌, Option, None, Some, List, ◌++◌, length, slice_get};
ghost use Rattle.std.specs.List.{list_all};
ghost use Rattle.std.specs.Option.{option_map_or};
ghost use Rattle.std.specs.Str.{bytes_eq};
ghost use Rattle.case_table.specs.declared.compare.Op.{Op};
ghost use Rattle.geometry.specs.Distance.{distance_compares};
ghost use Rattle.geometry.specs.Region.{Region};
ghost use Rattle.tick_set.specs.Ticks.{AgreeIn};
ghost use Rattle.tick_set.specs.declared.spans.TheConstants.{LAST_TICK};
ghost use Rattle.motion.specs.declared.cell.Cell.{Cell};
ghost use Rattle.history.specs.Catalog.{Catalog, ClassInfo, ObjectInfo, catalog, empty_catalog};
ghost use Rattle.history.specs.History.{ChangesFrom, History, cells_at, history};
ghost use Rattle.history.specs.Write.{Write};
ghost use Rattle.history.specs.World.{World, world_of};
ghost use Rattle.formula_shape.specs.Sizes.{has_not};
ghost use Rattle.formula.specs.Bounds.{term_bound};
ghost use Rattle.formula.specs.Reach.{reach};
ghost use Rattle.formula.specs.Resolved.{Scope, is_term, no_scope, with_bound};
ghost use Rattle.formula.specs.Tree.{ResolvedQuery, ResolvedTree};
ghost use Rattle.formula.specs.Value.{no_values, with_value};
ghost use Rattle.formula.specs.Variables.{atom_has, term_has};
ghost use Rattle.formula.specs.declared.tree.RAtom.{RAtom};
ghost use Rattle.formula.specs.declared.tree.RAtom.TheVariants as atoms;
ghost use Rattle.formula.specs.declared.tree.RTerm.{RTerm};
ghost use Rattle.formula.specs.declared.value.Env.{Env};
ghost use Rattle.formula.specs.declared.value.Value.{Value};
ghost use Rattle.formula.specs.declared.value.Value.TheVariants as values;
ghost use Rattle.formula.specs.declared.value.ValueKind.{ValueKind};
ghost use Rattle.meaning.specs.Accepted.{are_accepted};
ghost use Rattle.meaning.specs.Agreement.{Agree, HasMore, SameStates, SeesItsClasses, world_with};
ghost use Rattle.meaning.specs.Answer.{answer, full_rows, rows_have};
ghost use Rattle.meaning.specs.Atom.{atom_holds, position_in};
ghost use Rattle.meaning.specs.Binding.{holds_full, tuple_of};
ghost use Rattle.meaning.specs.Fits.{BindsItsClasses, BindsKinds, FitsItsClasses, term_kind, value_kind};
ghost use Rattle.meaning.specs.Needs.{Needs, needs_of};
ghost use Rattle.meaning.specs.Reachable.{AreReachable, AreWithinBounds, FitTheirClasses, IsReachable};
ghost use Rattle.meaning.specs.Reads.{query_reads};
ghost use Rattle.meaning.specs.Registered.{RegisteredQuery, first_tick, registered_answer};
ghost use Rattle.meaning.specs.Satisfaction.{Interpretation, plain, sat};
ghost use Rattle.meaning.specs.Trace.{Trace, trace_of};
ghost use Rattle.meaning.specs.Value.{term_value};

/// Where two interpretations agree on the atoms of a formula, and on the terms that it binds, at the ticks of
/// `lo` to `hi`, they give the formula the same truth there. So a formula sees the ticks up to the last that
/// counts, and at a tick those from it on.
pub fn interpretations_that_agree_give_the_same_truth()
    ensures { (j k : Interpretation) (lo hi : ℕ) (f : ResolvedTree) → Agree j k lo hi f
        → (e : ℕ) → e ≤ hi → (x : Env) → AgreeIn lo hi (sat j f x e) (sat k f x e) }
{}

/// At a tick a formula sees the ticks from it on as far as its reach, if no further than the last tick that
/// counts, and nowhere else.
pub fn formulas_see_so_far_ahead_alone()
    ensures { (j k : Interpretation) (f : ResolvedTree) (n : ℕ) → reach f ≡ Some n → (e t : ℕ) → t ≤ e
        → Agree j k t (min (t + n) e) f → (x : Env) → sat j f x e t ≡ sat k f x e t }
{}

/// Where none of the atoms that a formula needs holds at a tick, the formula holds at none.
pub fn formulas_need_their_atoms()
    ensures needed { (passes : RAtom → Bool) (is_better : List RAtom → List RAtom → Bool) (f : ResolvedTree)
        (atoms : List RAtom) → needs_of passes is_better f ≡ Some atoms → Needs f atoms }
    ensures passing { (passes : RAtom → Bool) (is_better : List RAtom → List RAtom → Bool) (f : ResolvedTree)
        (atoms : List RAtom) → needs_of passes is_better f ≡ Some atoms → list_all passes atoms ≡ true }
{}

/// A formula sees the states of its own variables, and nothing else of a history.
pub fn a_formula_sees_its_variables_alone()
    ensures { (regions : List Region) (h k : Trace) (lo hi : ℕ) (f : ResolvedTree) → SameStates h k lo hi f
        → (e : ℕ) → e ≤ hi → (x : Env)
        → AgreeIn lo hi (sat (plain regions h) f x e) (sat (plain regions k) f x e) }
{}

/// Where a formula has no NOT, atoms that hold at more ticks make it hold at more.
pub fn atoms_that_hold_more_make_it_hold_more()
    ensures { (j k : Interpretation) (f : ResolvedTree) → HasMore j k f → has_not f ≡ false → (x : Env) (e t : ℕ)
        → sat j f x e t ≡ true → sat k f x e t ≡ true }
{}

/// The row of some target objects has exactly the ticks of the rows of the bindings that give the targets
/// these objects: the answer is the union over the other variables.
pub fn the_answer_is_the_union_of_the_full_rows()
    ensures rows { (w : World) (q : ResolvedQuery) → list_all (λ v. nat_lt v (length q.classes)) q.targets ≡ true
        → (from e : ℕ) (key : List ℕ) (t : ℕ)
        → rows_have (answer w q from e) (λ k. bytes_eq k key) t
        ≡ rows_have (full_rows w q from e) (λ b. bytes_eq (tuple_of q b) key) t }

    // So the rows that are kept from an entry on tell each later answer.
    ensures later { (w : World) (q : ResolvedQuery) → list_all (λ v. nat_lt v (length q.classes)) q.targets ≡ true
        → (entry from e : ℕ) → entry ≤ from → (key : List ℕ) (t : ℕ)
        → rows_have (answer w q from e) (λ k. bytes_eq k key) t
        ≡ (nat_le from t && rows_have (full_rows w q entry e) (λ b. bytes_eq (tuple_of q b) key) t) }
{}

/// What a registered query answers later is what is left of what it answered, from the first tick that it
/// still tells: of a watched query from then on, and of a kept one all.
pub fn a_later_answer_is_what_is_left()
    ensures { (w : World) (r : RegisteredQuery)
        → list_all (λ v. nat_lt v (length r.query.classes)) r.query.targets ≡ true
        → (n m : ℕ) → n ≤ m → (key : List ℕ) (t : ℕ)
        → rows_have (registered_answer w r m) (λ k. bytes_eq k key) t
        ≡ (nat_le (first_tick r.kind r.entry m) t && rows_have (registered_answer w r n) (λ k. bytes_eq k key) t) }
{}

/// A binding of an object that is absent at a tick doesn't satisfy the query there, whatever its formula is.
pub fn absent_objects_satisfy_no_query()
    ensures { (w : World) (q : ResolvedQuery) (e : ℕ) (b : ℕ → ℕ) (t v : ℕ) → v < length q.classes
        → cells_at w.history (b v) t ≡ None → holds_full w q e b t ≡ false }
{}

/// An atom is false where one of its objects is absent, OUTSIDE and `!=` too.
pub fn atoms_of_absent_objects_are_false()
    ensures { (regions : List Region) (h : Trace) (a : RAtom) (x : Env) (t v : ℕ)
        → atom_has v a ≡ true → h v t ≡ None → atom_holds regions h a x t ≡ false }
{}

/// Two variables that have one object are at the distance 0, wherever it has a position.
pub fn one_object_is_at_distance_0()
    ensures { (regions : List Region) (h : History) (b : ℕ → ℕ) (v u : ℕ) (op : Op) (c : ℤ) (x : Env) (t : ℕ)
        → b v ≡ b u
        → atom_holds regions (trace_of h b) (atoms.Dist v u op c) x t
        ≡ option_map_or (λ p. distance_compares op c (pos 0)) (position_in t (cells_at h (b v) t)) false }
{}

/// A write to an object leaves each binding without it as it was, at each tick up to the expiry.
pub fn other_objects_stay()
    ensures { (id now : ℕ) (old new : History) → ChangesFrom id now old new → (regions : List Region)
        (q : ResolvedQuery) → SeesItsClasses q → (b : ℕ → ℕ)
        → ((v : ℕ) → v < length q.classes → (b v == id) ≡ false) → (e t : ℕ) → t ≤ e
        → holds_full (world_with old regions) q e b t ≡ holds_full (world_with new regions) q e b t }
{}

/// A write after the expiry of a query leaves it as it was.
pub fn expired_queries_stay()
    ensures { (id now : ℕ) (old new : History) → ChangesFrom id now old new → (regions : List Region)
        (q : ResolvedQuery) → SeesItsClasses q → (b : ℕ → ℕ) (e t : ℕ) → t ≤ e → e < now
        → holds_full (world_with old regions) q e b t ≡ holds_full (world_with new regions) q e b t }
{}

/// A write changes what a binding satisfies before it only where it changes the states of its objects from
/// then on: the recorded past is the same, and a formula may look ahead from it.
pub fn the_past_changes_by_what_comes_after()
    ensures { (id now : ℕ) (old new : History) → ChangesFrom id now old new → (regions : List Region)
        (q : ResolvedQuery) → SeesItsClasses q → (b : ℕ → ℕ) (e : ℕ)
        → ((v : ℕ) → v < length q.classes → (t : ℕ) → now ≤ t → t ≤ e
        → cells_at old (b v) t ≡ cells_at new (b v) t)
        → (t : ℕ) → t ≤ e
        → holds_full (world_with old regions) q e b t ≡ holds_full (world_with new regions) q e b t }
{}

/// A write changes what a binding satisfies no further back than the formula's reach.
pub fn the_past_changes_as_far_back_as_the_reach()
    ensures { (id now : ℕ) (old new : History) → ChangesFrom id now old new → (regions : List Region)
        (q : ResolvedQuery) → SeesItsClasses q → (n : ℕ) → reach q.formula ≡ Some n → (b : ℕ → ℕ) (e t : ℕ)
        → t ≤ e → t + n < now
        → holds_full (world_with old regions) q e b t ≡ holds_full (world_with new regions) q e b t }
{}

/// A query goes on fitting its classes where classes and regions are added.
pub fn queries_go_on_fitting_their_classes()
    ensures { (old new : World) (m : List ClassInfo) (n : List Region)
        → new.history.catalog.classes ≡ old.history.catalog.classes ++ m → new.regions ≡ old.regions ++ n
        → (q : ResolvedQuery) → FitsItsClasses old q → FitsItsClasses new q }
{}

/// In states that fit their classes, and with values bound of the kinds that the scope tells, a term that has a
/// kind has no value exactly where one of its objects is absent, and else a value of that kind.
pub fn terms_have_values_of_their_kinds()
    ensures none { (c : Catalog) (classes : List ℕ) (scope : ℕ → Option ValueKind) (h : Trace) (x : Env) (t : ℕ)
        → FitTheirClasses c classes h t → BindsKinds scope x
        → (q : RTerm) (k : ValueKind) → term_kind c classes scope q ≡ Some k
        → (term_value h q x t ≡ None) ↔ ((v : ℕ) × (term_has v q ≡ true) × (h v t ≡ None)) }
    ensures kind { (c : Catalog) (classes : List ℕ) (scope : ℕ → Option ValueKind) (h : Trace) (x : Env) (t : ℕ)
        → FitTheirClasses c classes h t → BindsKinds scope x
        → (q : RTerm) (k : ValueKind) → term_kind c classes scope q ≡ Some k
        → (v : Value) → term_value h q x t ≡ Some v → value_kind v ≡ k }

    // The states that accepted writes lead to fit their classes.
    ensures reachable { (c : Catalog) (classes : List ℕ) (h : Trace) (t : ℕ)
        → AreReachable c classes h t → FitTheirClasses c classes h t }
{}

/// Accepted writes lead to states of bounded size alone: one cell for each attribute of the object's class,
/// of its kind, with numbers within the limits.
pub fn accepted_writes_lead_to_reachable_states()
    ensures objects { (writes : List Write) → are_accepted empty_catalog 0 writes ≡ true
        → (id t : ℕ) (x : ObjectInfo) (k : ClassInfo) (cells : List Cell)
        → slice_get (catalog writes).objects id ≡ Some x → slice_get (catalog writes).classes x.class ≡ Some k
        → cells_at (history writes) id t ≡ Some cells → IsReachable k.attributes t cells }

    // And so do the objects of a binding.
    ensures bindings { (writes : List Write) (regions : List Region) (q : ResolvedQuery) (b : ℕ → ℕ)
        → are_accepted empty_catalog 0 writes ≡ true → BindsItsClasses (world_of writes regions) q b
        → (t : ℕ) → AreReachable (catalog writes) q.classes (trace_of (history writes) b) t }
{}

/// In such states the value of a term that is right by number and fits its classes is within the term's
/// bound, where each value that is bound is within the bound beside its variable.
pub fn values_are_within_their_bounds()
    ensures term { (c : Catalog) (classes : List ℕ) (scope : Scope) (known : ℕ → Option ValueKind) (h : Trace)
        (x : Env) (t count : ℕ) → AreReachable c classes h t → AreWithinBounds scope x → t ≤ LAST_TICK
        → (q : RTerm) → is_term count scope q ≡ true → (k : ValueKind) → term_kind c classes known q ≡ Some k
        → (n : ℤ) → term_value h q x t ≡ Some (values.Num n) → unsigned_abs n ≤ term_bound q }

    // Nothing is bound at first, and an assignment binds a value within the bound of its term.
    ensures none { AreWithinBounds no_scope no_values }
    ensures assigned { (c : Catalog) (classes : List ℕ) (scope : Scope) (known : ℕ → Option ValueKind) (h : Trace)
        (x : Env) (t count : ℕ) → AreReachable c classes h t → AreWithinBounds scope x → t ≤ LAST_TICK
        → (q : RTerm) → is_term count scope q ≡ true → (k : ValueKind) → term_kind c classes known q ≡ Some k
        → (d : ℕ) (v : Value) → term_value h q x t ≡ Some v
        → AreWithinBounds (with_bound scope d (term_bound q)) (with_value x d v) }
{}

/// The fewer objects the variables have, the fewer looks at timelines a query may take.
pub fn fewer_objects_take_fewer_looks()
    ensures { (fewer more : ℕ → ℕ) → ((v : ℕ) → fewer v ≤ more v) → (ticks : ℕ) (q : ResolvedQuery)
        → query_reads fewer ticks q ≤ query_reads more ticks q }
{}
