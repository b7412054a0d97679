//! Parts of relations.

ghost use Rattle.std.specs.Prelude.{◌≡◌, ◌≤◌, ◌+◌, ℕ, List, true, length};
ghost use Rattle.formula_shape.specs.declared.limits.TheConstants.{OBJECT_LIMIT};
ghost use Rattle.relation.specs.Group.{IsNextIn, ids_at};
ghost use Rattle.relation.specs.Part.{IsFixed, IsRowPart, offers, vars_after};

use crate::Row;
use crate::search::{group, next_in_rows};
use until_merge::Temporal;

// The rows of a relation that give its first variables certain objects, and the variables after these, which begin
// at a place of the keys.
#[derive(Drop)]
pub(crate) struct Part<'a, S> {
    pub(crate) vars: &'a [u8],
    pub(crate) rows: &'a [Row<S>],
    pub(crate) place: usize,
}

impl<'a, S: Temporal> Part<'a, S> {
    // Whether the rows tell the objects that they give the variable: it is the next one, or there is no row.
    #[inline]
    pub(crate) fn offers(&self, var: u8) -> bool
        ensures { result ≡ offers var self.now }
    {
        match self.vars.first() {
            Some(next) => *next == var || self.rows.is_empty(),
            None => self.rows.is_empty(),
        }
    }

    // The first object from `from` on that the rows give the variable, where they tell them.
    #[inline]
    pub(crate) fn next(&self, from: u64) -> Option<u32>
        ensures { (domains : List (List ℕ)) (lo hi var : ℕ) → IsRowPart S.member domains lo hi self.now
            → offers var self.now ≡ true → IsNextIn (ids_at self.now.place self.now.rows.now) from result }
    {
        next_in_rows(self.rows, self.place, from)
    }

    // The rows that give the variable the object: all rows where it is not the next one.
    pub(crate) fn fixed(&self, var: u8, id: u32) -> Part<'a, S>
        requires { self.now.place + length self.now.vars.now ≤ OBJECT_LIMIT }
        ensures room { result.place + length result.vars.now ≡ self.now.place + length self.now.vars.now }
        ensures vars { result.vars.now ≡ vars_after var self.now.vars.now }
        ensures fixed { (domains : List (List ℕ)) (lo hi : ℕ) → IsRowPart S.member domains lo hi self.now
            → IsFixed S.member domains lo hi var id self.now result }
    {
        match self.vars.split_first() {
            Some((next, later)) if *next == var => Part {
                vars: later,
                rows: group(self.rows, self.place, id),
                place: self.place + 1,
            },
            _ => Part {
                vars: self.vars,
                rows: self.rows,
                place: self.place,
            },
        }
    }
}
