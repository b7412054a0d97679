//! The rows that give a variable one object.

ghost use Rattle.std.specs.Prelude.{◌≡◌, ◌==◌, ◌&&◌, ◌||◌, ◌∷◌, [], not, ℕ, Bool, List, true, if◌then◌else◌, slice_index, slice_set, IfOk, OnOk};
ghost use Rattle.std.specs.List.{list_all};
ghost use Rattle.std.specs.Str.{bytes_eq};
ghost use Rattle.tick_set.specs.Ticks.{LiesIn};
ghost use Rattle.relation.specs.Frames.{IsIn, SameFrame, frame};
ghost use Rattle.relation.specs.Key.{has_id, ids_of_variable, key_below, key_in};
ghost use Rattle.relation.specs.Rows.{IsSameHead, has_at, table_has};

use crate::operation::Operation;
use crate::projection::place_of;
use crate::{Relation, Row};
use std::alloc::{AllocError, Global};
use until_merge::Temporal;

impl<'d, S: Temporal> Relation<'d, S> {
    /// The relation with other rows for one object of a variable: those of `part`, whose domains are the same but
    /// for the variable's, which is this object alone. In time linear in the rows of both, but for searches among
    /// them and copies of their sets.
    pub fn replace_column(
        &self,
        alloc: Global,
        var: u8,
        id: u32,
        part: &Self,
    ) -> Result<Self, AllocError>
        requires vars { part.now.vars ≡ self.now.vars }
        requires window { (part.now.lo ≡ self.now.lo) × (part.now.hi ≡ self.now.hi) }
        requires domains { part.now.domains ≡ slice_set self.now.domains var (id ∷ []) }
        requires owned { has_id self.now.vars var ≡ true }
        requires inside { has_id (ids_of_variable self.now.domains var) id ≡ true }
        ensures ticks { IfOk result (λ r. (b : ℕ → ℕ) → IsIn self.now.domains b → (t : ℕ) → table_has S.member r b t
            ≡ (if b var == id then table_has S.member part.now b t else table_has S.member self.now b t)) }
        ensures vars { IfOk result (λ r. r.vars ≡ self.now.vars) }
        ensures frame { IfOk result (λ r. SameFrame r self.now) }
    {
        // That the part is a relation says that its rows have the object.
        let _ = part.rows();
        let kept = self.without(alloc, var, id)?;
        let column = part.widen(alloc, self.domains())?;
        let made = kept.walked(alloc, Operation::Union, self.vars(), &column)?;
        Ok(made)
    }

    // The rows that give the variable another object.
    fn without(&self, alloc: Global, var: u8, id: u32) -> Result<Self, AllocError>
        requires { has_id self.now.vars var ≡ true }
        ensures ticks { IfOk result (λ r. (b : ℕ → ℕ) (t : ℕ) → table_has S.member r b t
            ≡ (not (b var == id) && table_has S.member self.now b t)) }
        ensures head { IfOk result (λ r. IsSameHead self.now r) }
    {
        let place = place_of(self.vars(), var);
        let mut made = Relation::empty(alloc, self.vars(), self.domains(), self.window());
        'rows: for row in self.rows() {
            put_unless(alloc, &mut made, row, place, id)?;
        }
        Ok(made)
    }
}

// Adds a row, unless it has the object at the place.
fn put_unless<S: Temporal>(
    alloc: Global,
    made: &mut Relation<'_, S>,
    row: &Row<S>,
    place: usize,
    id: u32,
) -> Result<(), AllocError>
    requires above { list_all (λ r. key_below r.key row.now.key) made.old.rows ≡ true }
    requires inside { key_in made.old.domains made.old.vars row.now.key ≡ true }
    requires lies { LiesIn made.old.lo made.old.hi (S.member row.now.set) }
    ensures ticks { OnOk result ((k : List ℕ) (t : ℕ) → has_at S.member made.new.rows k t
        ≡ (has_at S.member made.old.rows k t
        || (not (slice_index k place == id) && (bytes_eq row.now.key k && S.member row.now.set t)))) }
    ensures keys { (p : List ℕ → Bool) → list_all (λ r. p r.key) made.old.rows ≡ true → p row.now.key ≡ true
        → list_all (λ r. p r.key) made.new.rows ≡ true }
    ensures head { IsSameHead made.old made.new }
{
    if row.id_at(place) == id {
        return Ok(());
    }
    let set = row.set.copy(alloc)?;
    made.put(row.key, set)
}
