//! One value, or a list of any number.

ghost use Rattle.std.specs.Prelude.{◌≡◌, ◌≤◌, [], ◌∷◌, length, IsOk, IfOk};

use std::alloc::{AllocError, Global};
use std::marker::Model;

// One value stands in the holder itself, so that it takes no memory.
#[derive(Drop)]
enum Held<T> {
    One([T; 1]),
    Any(Vec<T>),
}

/// Values, in order: one in the holder itself, or any number. A contract sees their list.
#[derive(Drop)]
pub struct Few<T> {
    held: Held<T>,
}

impl<T> Model for Few<T> {
    ghost use Rattle.std.specs.Prelude.{List};
    ghost use Rattle.relation.specs.Held.{held_values};

    ghost Value = { List T };

    ghost view = { λ a. held_values a.held };
}

impl<T> Few<T> {
    /// No value. Takes no memory.
    #[inline]
    pub fn none(alloc: Global) -> Few<T>
        ensures { result ≡ [] }
    {
        Few::from_vec(Vec::new(alloc))
    }

    /// One value. Takes no memory.
    #[inline]
    pub fn one(value: T) -> Few<T>
        ensures { result ≡ value ∷ [] }
    {
        Few {
            held: Held::One([value]),
        }
    }

    /// The values of a vector.
    #[inline]
    pub fn from_vec(values: Vec<T>) -> Few<T>
        ensures { result ≡ values.items }
    {
        Few {
            held: Held::Any(values),
        }
    }

    /// All of them.
    #[inline]
    pub fn items(&self) -> &[T]
        ensures { result.now ≡ self.now }
    {
        match &self.held {
            Held::One(value) => value,
            Held::Any(values) => values,
        }
    }
}

impl<T: Copy> Few<T> {
    /// These values. None or one takes no memory.
    #[inline]
    pub fn from_slice(alloc: Global, values: &[T]) -> Result<Few<T>, AllocError>
        ensures items { IfOk result (λ few. few ≡ values.now) }
        ensures memory { length values.now ≤ 1 → IsOk result }
    {
        let few = match values {
            [] => Few::none(alloc),
            [value] => Few::one(*value),
            _ => Few::from_vec(Vec::from_slice(alloc, values)?),
        };
        Ok(few)
    }
}
