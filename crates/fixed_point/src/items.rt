//! Lists, each seen as the list of its items.

ghost use Rattle.std.specs.Prelude.{◌≡◌, ◌∷◌, [], ◌++◌, OnOk, OnErr};

use std::alloc::{AllocError, Global};
use std::marker::Model;

/// Items in their order.
#[derive(Drop)]
pub struct Items<T> {
    items: Vec<T>,
}

impl<T> Model for Items<T> {
    ghost use Rattle.std.specs.Prelude.{List};

    ghost Value = { List T };

    ghost view = { λ a. a.items.items };
}

impl<T> Items<T> {
    /// No items. Takes no memory.
    pub fn new(alloc: Global) -> Items<T>
        ensures { result ≡ [] }
    {
        Items {
            items: Vec::new(alloc),
        }
    }

    /// The items, in order.
    #[inline]
    pub fn items(&self) -> &[T]
        ensures { result.now ≡ self.now }
    {
        &self.items
    }
}

impl<T: Drop> Items<T> {
    /// Adds an item at the end. An `Err` changes nothing.
    pub fn push(&mut self, item: T) -> Result<(), AllocError>
        ensures ok { OnOk result (self.new ≡ self.old ++ item ∷ []) }
        ensures err { OnErr result (self.new ≡ self.old) }
    {
        self.items.push(item)?;
        Ok(())
    }
}
