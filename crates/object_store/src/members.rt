//! The objects of one class.
ghost use Rattle.std.specs.Prelude.{◌≡◌, ◌<◌, ◌-◌, ◌++◌, ◌∷◌, [], take, length, OnOk, OnErr};

use std::alloc::{AllocError, Global};
use std::marker::Model;

/// The ids of the objects of one class, in the order of first insertion.
#[derive(Drop)]
pub struct Members {
    ids: Vec<u32>,
}

impl Model for Members {
    ghost use Rattle.std.specs.Prelude.{List, ℕ};

    ghost Value = { List ℕ };

    ghost view = { λ a. a.ids.items };
}

impl Members {
    /// No objects. It takes no memory.
    pub fn new(alloc: Global) -> Members
        ensures { result ≡ [] }
    {
        Members {
            ids: Vec::new(alloc),
        }
    }

    #[inline]
    pub fn ids(&self) -> &[u32]
        ensures { result.now ≡ self.now }
    {
        &self.ids
    }

    pub fn push(&mut self, id: u32) -> Result<(), AllocError>
        ensures ok { OnOk result (self.new ≡ self.old ++ id ∷ []) }
        ensures err { OnErr result (self.new ≡ self.old) }
    {
        self.ids.push(id)?;
        Ok(())
    }

    /// Takes the last id away. It takes no memory.
    pub fn pop(&mut self)
        ensures { self.new ≡ take (length self.old - 1) self.old }
    {
        self.ids.pop();
    }
}
