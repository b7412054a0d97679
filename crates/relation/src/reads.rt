//! What a relation can be asked without memory.

ghost use Rattle.std.specs.Prelude.{◌≡◌, ◌<◌, ◌↔◌, ℕ, List, [], true, false, length, map, slice_get, slice_index_or, option_map, IfNone, IfSome, IsTrue};
ghost use Rattle.std.specs.Option.{option_copied};
ghost use Rattle.std.specs.List.{filter};
ghost use Rattle.relation.specs.Order.{has_row, keys_over};
ghost use Rattle.relation.specs.Rows.{has_at};

use crate::{Relation, Row};
use formula::Binding;
use until_merge::Temporal;

impl<S: Temporal> Relation<'_, S> {
    /// The ticks of a binding. None exactly where it has none.
    pub fn row(&self, key: &Binding) -> Option<&S>
        ensures ticks { IfSome result (λ s. (t : ℕ) → S.member s.now t ≡ has_at S.member self.now.rows key.now t) }
        ensures some { IfSome result (λ s. ((t : ℕ) → has_at S.member self.now.rows key.now t ≡ false) → ⊥) }
        ensures none { IfNone result ((t : ℕ) → has_at S.member self.now.rows key.now t ≡ false) }
    {
        let rows = self.rows();
        match rows.binary_search_by_key(key, |row| row.key) {
            Ok(at) => Some(&rows[at].set),
            Err(_) => None,
        }
    }

    /// The rows are those of the bindings of the domains that have a tick, in ascending order, each with the ticks of
    /// its binding. A call that does nothing.
    pub fn rows_stand_in_order(&self)
        ensures keys { map (λ r. r.key) self.now.rows
            ≡ filter (has_row self.now.rows) (keys_over self.now.domains self.now.vars) }
        ensures ticks { (i : ℕ) (d : Row S) → i < length self.now.rows → (t : ℕ)
            → has_at S.member self.now.rows (slice_index_or self.now.rows i d).key t
            ≡ S.member (slice_index_or self.now.rows i d).set t }
        ensures some { (key : List ℕ) → has_row self.now.rows key ≡ true
            → ((t : ℕ) → has_at S.member self.now.rows key t ≡ false) → ⊥ }
        ensures none { (key : List ℕ) → has_row self.now.rows key ≡ false
            → (t : ℕ) → has_at S.member self.now.rows key t ≡ false }
    {
        let _ = self.domains().len();
        let _ = self.rows();
    }

    /// How many bindings have a tick.
    #[inline]
    pub fn len(&self) -> usize
        ensures { result ≡ length self.now.rows }
    {
        self.rows().len()
    }

    /// Whether no binding has a tick.
    #[inline]
    pub fn is_empty(&self) -> bool
        ensures { IsTrue result ↔ (self.now.rows ≡ []) }
    {
        self.rows().is_empty()
    }

    /// The binding of the row at a place, from 0, in ascending order.
    #[inline]
    pub fn key_at(&self, place: usize) -> Option<Binding>
        ensures { result ≡ option_map (λ r. r.key) (slice_get self.now.rows place) }
    {
        match self.rows().get(place) {
            Some(row) => Some(row.key),
            None => None,
        }
    }

    /// The ticks of the row at a place.
    #[inline]
    pub fn set_at(&self, place: usize) -> Option<&S>
        ensures { option_copied result ≡ option_map (λ r. r.set) (slice_get self.now.rows place) }
    {
        match self.rows().get(place) {
            Some(row) => Some(&row.set),
            None => None,
        }
    }
}
