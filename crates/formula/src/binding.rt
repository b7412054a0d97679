//! Bindings of objects to variables.

ghost use Rattle.std.specs.Prelude.{◌≡◌, ◌<◌, ◌≤◌, ◌↔◌, ◌∷◌, [], ◌++◌, length, slice_get, IsTrue, Some, refl};
ghost use Rattle.std.specs.Ordering.{nat_cmp};
ghost use Rattle.std.specs.Str.{bytes_eq};
ghost use Rattle.std.specs.Cmp.{partial_equiv_from_equiv};
ghost use Rattle.std.specs.Cmp.Lexicographic.{slice_cmp, nat_list_cmp_total, nat_list_eq_equiv, texts_po, texts_ties};
ghost use Rattle.formula_shape.specs.Sizes.{FitInQuery, OneMoreFits};

use formula_shape::OBJECT_LIMIT;
use std::cmp::Ordering;
use std::marker::Model;

/// The objects of at most four variables, by their numbers, in the order of the variables. A contract sees
/// the list of the numbers. Bindings are ordered by the first number that differs, and one comes before its
/// own continuations.
#[derive(Clone, Copy, Debug)]
pub struct Binding {
    // Those past the length are 0, so that a binding has one form alone.
    ids: [u32; OBJECT_LIMIT],
    len: u8,
}

impl Model for Binding {
    ghost use Rattle.std.specs.Prelude.{List, ℕ, length, take};
    ghost use Rattle.exact.proofs.PaddedLemmas.{length-front, padded-front};
    ghost use Rattle.exact.specs.Padded.{IsPadded, padded};
    ghost use Rattle.formula_shape.specs.declared.limits.TheConstants.{OBJECT_LIMIT};

    ghost Value = { List ℕ };

    ghost view = { λ a. take a.len a.ids };

    ghost invariant = { λ a. IsPadded 0 OBJECT_LIMIT a.ids a.len };

    ghost inverse = { λ ids. record { ids = padded 0 OBJECT_LIMIT ids; len = length ids } };

    ghost inverse_ok = { λ a h i. record {
      ids = padded-front 0 OBJECT_LIMIT a.ids a.len h i;
      len = length-front 0 OBJECT_LIMIT a.ids a.len h i;
    } };
}

impl Binding {
    /// No object.
    pub fn new() -> Binding
        ensures { result ≡ [] }
    {
        Binding {
            ids: [0; OBJECT_LIMIT],
            len: 0,
        }
    }

    /// Adds the object of the next variable.
    pub fn push(&mut self, id: u32)
        requires { OneMoreFits self.old }
        ensures { self.new ≡ self.old ++ id ∷ [] }
    {
        self.ids[self.len as usize] = id;
        self.len += 1;
    }

    /// The numbers of the objects, in order.
    #[inline]
    pub fn ids(&self) -> &[u32]
        ensures value { result.now ≡ self.now }
        ensures few { FitInQuery self.now }
    {
        &self.ids[..self.len as usize]
    }

    /// The number of the object of this index, if there is one.
    #[inline]
    pub fn get(&self, index: usize) -> Option<u32>
        ensures { result ≡ slice_get self.now index }
    {
        self.ids().get(index).copied()
    }

    /// How many objects there are.
    #[inline]
    pub fn len(&self) -> usize
        ensures count { result ≡ length self.now }
        ensures few { result ≤ OBJECT_LIMIT }
    {
        self.ids().len()
    }

    /// Whether there is no object.
    #[inline]
    pub fn is_empty(&self) -> bool
        ensures { IsTrue result ↔ (self.now ≡ []) }
    {
        self.ids().is_empty()
    }

    /// Whether both have the same objects in the same order.
    #[inline]
    pub fn same(&self, other: &Binding) -> bool
        ensures { result ≡ bytes_eq self.now other.now }
    {
        self.ids() == other.ids()
    }
}

impl PartialEq for Binding {
    ghost eq = { bytes_eq };

    ghost laws = { partial_equiv_from_equiv nat_list_eq_equiv };

    #[inline]
    fn eq(&self, other: &Self) -> bool {
        self.same(other)
    }
}

impl Eq for Binding {
    ghost laws = { nat_list_eq_equiv };
}

impl PartialOrd for Binding {
    ghost partial_cmp = { λ a b. Some (slice_cmp nat_cmp a b) };

    ghost laws = { texts_po };

    #[inline]
    fn partial_cmp(&self, other: &Self) -> Option<Ordering> {
        Some(self.cmp(other))
    }
}

impl Ord for Binding {
    ghost cmp = { slice_cmp nat_cmp };

    ghost total = { nat_list_cmp_total };

    ghost matches_partial_cmp = { λ a b. refl };

    ghost matches_eq = { texts_ties };

    #[inline]
    fn cmp(&self, other: &Self) -> Ordering {
        self.ids().cmp(other.ids())
    }
}
