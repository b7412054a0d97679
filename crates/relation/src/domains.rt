//! The objects that each variable ranges over.

ghost use Rattle.std.specs.Prelude.{◌≡◌, ◌<◌, ◌≤◌, ℕ, ◌∷◌, [], ◌++◌, length, slice_index_or, IsOk, OnOk, OnErr};
ghost use Rattle.std.specs.List.Sorted.{IsStrictlyIncreasing};
ghost use Rattle.relation.specs.Key.{ids_of_variable};
ghost use Rattle.formula_shape.specs.Sizes.{OneMoreFits};

use crate::Few;
use formula::OBJECT_LIMIT;
use std::alloc::{AllocError, Global};
use std::marker::Model;

/// An ascending list of objects for each variable, by their numbers. A contract sees the list of these lists.
#[derive(Drop)]
pub struct Domains {
    // Those past the count have no object.
    lists: [Few<u32>; OBJECT_LIMIT],
    count: usize,
}

impl Model for Domains {
    ghost use Rattle.std.specs.Prelude.{List, ℕ, take};
    ghost use Rattle.relation.specs.Held.{AreHeld};

    ghost Value = { List (List ℕ) };

    ghost view = { λ a. take a.count a.lists };

    ghost invariant = { λ a. AreHeld a.lists a.count };
}

impl Domains {
    /// No variable. Takes no memory.
    pub fn new(alloc: Global) -> Domains
        ensures { result ≡ [] }
    {
        Domains {
            lists: [
                Few::none(alloc),
                Few::none(alloc),
                Few::none(alloc),
                Few::none(alloc),
            ],
            count: 0,
        }
    }

    /// Adds the objects of the next variable. None or one takes no memory. An `Err` changes nothing.
    #[tactic(auto, using(crate::proofs::HeldLemmas::held_more, crate::proofs::HeldLemmas::held_front))]
    pub fn push(&mut self, alloc: Global, ids: &[u32]) -> Result<(), AllocError>
        requires ascending { IsStrictlyIncreasing ids.now }
        requires few { OneMoreFits self.old }
        ensures ok { OnOk result (self.new ≡ self.old ++ ids.now ∷ []) }
        ensures err { OnErr result (self.new ≡ self.old) }
        ensures memory { length ids.now ≤ 1 → IsOk result }
    {
        let ids = Few::from_slice(alloc, ids)?;
        self.lists[self.count] = ids;
        self.count += 1;
        Ok(())
    }

    /// How many variables there are.
    #[inline]
    #[tactic(auto, using(crate::proofs::HeldLemmas::held_count))]
    pub fn len(&self) -> usize
        ensures count { result ≡ length self.now }
        ensures few { result ≤ OBJECT_LIMIT }
        ensures ascending { (var : ℕ) → IsStrictlyIncreasing (ids_of_variable self.now var) }
    {
        self.count
    }

    /// The objects of a variable, ascending.
    #[inline]
    pub fn of(&self, var: u8) -> &[u32]
        requires { var < length self.now }
        ensures value { result.now ≡ slice_index_or self.now var [] }
        ensures ascending { IsStrictlyIncreasing result.now }
    {
        self.lists[var as usize].items()
    }
}
