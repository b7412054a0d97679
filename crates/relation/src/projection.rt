//! Relations over some of their variables.

ghost use Rattle.std.specs.Prelude.{◌≡◌, ℕ, List, true, IfOk};
ghost use Rattle.std.specs.List.{All, list_all};
ghost use Rattle.formula_shape.specs.Sizes.{FitInQuery};
ghost use Rattle.relation.specs.Entries.{AreEntries, IsEntry, entries_have};
ghost use Rattle.relation.specs.Frames.{SameFrame, frame};
ghost use Rattle.formula.specs.Resolved.{are_distinct};
ghost use Rattle.relation.specs.Key.{has_id};
ghost use Rattle.relation.specs.Projection.{IsPicked, variable_place, picked, rows_over};
ghost use Rattle.relation.specs.Rows.{AreRows, table_has};

use crate::entries::{Entry, put_groups};
use crate::{Relation, Row};
use formula::Binding;
use std::alloc::{AllocError, Global};
use until_merge::Temporal;

impl<'d, S: Temporal> Relation<'d, S> {
    /// The ticks at which the binding of these variables has objects for the others: the union over the other
    /// variables. The result has these variables in this order. In time linear in the rows, but for sorting them
    /// and uniting their sets.
    pub fn project(&self, alloc: Global, vars: &[u8]) -> Result<Self, AllocError>
        requires among { list_all (has_id self.now.vars) vars.now ≡ true }
        requires distinct { are_distinct vars.now ≡ true }
        ensures all { IfOk result (λ r. (b : ℕ → ℕ) (t : ℕ) → table_has S.member self.now b t ≡ true
            → table_has S.member r b t ≡ true) }
        ensures some { IfOk result (λ r. (b : ℕ → ℕ) (t : ℕ) → table_has S.member r b t ≡ true
            → IsPicked S.member self.now vars.now b t) }
        ensures vars { IfOk result (λ r. r.vars ≡ vars.now) }
        ensures frame { IfOk result (λ r. SameFrame r self.now) }
    {
        let own = self.vars();
        let rows = self.rows();
        let entries = entries_over(alloc, own, rows, vars)?;
        let mut made = Relation::empty(alloc, vars, self.domains(), self.window());
        put_groups(alloc, &mut made, rows, &entries)?;
        Ok(made)
    }
}

// Rows over `own` under the objects of these variables, ascending.
fn entries_over<S: Temporal>(
    alloc: Global,
    own: &[u8],
    rows: &[Row<S>],
    vars: &[u8],
) -> Result<Vec<Entry>, AllocError>
    requires few { FitInQuery vars.now }
    requires among { list_all (has_id own.now) vars.now ≡ true }
    ensures entries { IfOk result (λ es. (domains : List (List ℕ)) (lo hi : ℕ)
        → AreRows S.member domains own.now lo hi 0 rows.now
        → AreEntries S.member rows.now domains vars.now lo hi es.items) }
    ensures ticks { IfOk result (λ es. (key : List ℕ) (t : ℕ) → entries_have S.member rows.now es.items key t
        ≡ rows_over S.member own.now vars.now rows.now key t) }
{
    let mut made = entries_of(alloc, own, rows, vars)?;
    made.sort_by_key(|entry| entry.key)?;
    Ok(made)
}

// The same in the order of the rows.
fn entries_of<S: Temporal>(
    alloc: Global,
    own: &[u8],
    rows: &[Row<S>],
    vars: &[u8],
) -> Result<Vec<Entry>, AllocError>
    requires few { FitInQuery vars.now }
    requires among { list_all (has_id own.now) vars.now ≡ true }
    ensures each { IfOk result (λ es. (domains : List (List ℕ)) (lo hi : ℕ)
        → AreRows S.member domains own.now lo hi 0 rows.now → All (IsEntry S.member rows.now domains vars.now lo hi) es.items) }
    ensures ticks { IfOk result (λ es. (key : List ℕ) (t : ℕ) → entries_have S.member rows.now es.items key t
        ≡ rows_over S.member own.now vars.now rows.now key t) }
{
    let mut made = Vec::new(alloc);
    'rows: for (place, row) in rows.iter().enumerate() {
        let key = picked(own, row, vars);
        made.push(Entry { key, place })?;
    }
    Ok(made)
}

// The objects that a row over `own` gives these variables.
fn picked<S>(own: &[u8], row: &Row<S>, vars: &[u8]) -> Binding
    requires { FitInQuery vars.now }
    ensures { result ≡ picked own.now row.now.key vars.now }
{
    let mut made = Binding::new();
    for var in vars {
        made.push(row.id_at(place_of(own, *var)));
    }
    made
}

// The place of a variable in a list, or the length of the list where it is not there.
pub(crate) fn place_of(vars: &[u8], var: u8) -> usize
    ensures { result ≡ variable_place vars.now var }
{
    let mut place = 0;
    while place < vars.len() && vars[place] != var {
        place += 1;
    }
    place
}
