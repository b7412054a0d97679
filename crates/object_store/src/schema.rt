//! The classes of a store.
ghost use Rattle.std.specs.Prelude.{◌≡◌, ◌<◌, ◌-◌, ◌++◌, ◌∷◌, [], None, Some, is_some, take, length, slice_get, IfSome, IfOk, OnOk, OnErr};
ghost use Rattle.std.specs.List.{find, position};
ghost use Rattle.std.specs.Option.{option_copied, option_map};
ghost use Rattle.std.specs.Str.{bytes_eq};
ghost use Rattle.object_store.specs.Sound.{AreClasses};

use crate::class::Class;
use fixed_point::Word;
use indexmap::IndexMap;
use std::alloc::{AllocError, Global};
use std::marker::Model;

/// The number of a class, from 0 in the order of making.
pub type ClassId = u32;

/// The most classes of a store.
pub const CLASS_LIMIT: usize = 64;

/// The classes of a store, in the order of making. No two have the same name.
#[derive(Drop)]
pub struct Schema {
    classes: IndexMap<Word, Class>,
}

impl Model for Schema {
    ghost use Rattle.std.specs.Prelude.{List};
    ghost use Rattle.history.specs.Catalog.{ClassInfo};
    ghost use Rattle.std.specs.Map.{values_of};
    ghost use Rattle.object_store.specs.ClassMap.{AreKeyed};

    ghost Value = { List ClassInfo };

    ghost view = { λ a. values_of a.classes.entries };

    ghost invariant = { λ a. AreKeyed a.classes.entries };
}

impl Schema {
    /// No classes. It takes no memory.
    pub(crate) fn new(alloc: Global) -> Schema
        ensures { result ≡ [] }
    {
        Schema {
            classes: IndexMap::new(alloc),
        }
    }

    /// The number of the class of a name. None exactly where there is none.
    pub fn class_of(&self, name: &Word) -> Option<ClassId>
        ensures { result ≡ position (λ k. bytes_eq name.now k.name) self.now }
    {
        match self.find(name) {
            Some((number, _)) => Some(number),
            None => None,
        }
    }

    /// The class of a number. None exactly where there is none.
    pub fn class(&self, c: ClassId) -> Option<&Class>
        ensures { option_copied result ≡ slice_get self.now c }
    {
        let (_, class) = self.classes.get_index(c as usize)?;
        Some(class)
    }

    /// How many classes there are.
    pub fn count(&self) -> u32
        ensures value { result ≡ length self.now }
        ensures sound { AreClasses self.now }
    {
        self.classes.len() as u32
    }

    /// Whether there is a class of this name.
    pub(crate) fn has(&self, name: &Word) -> bool
        ensures { result ≡ is_some (find (λ k. bytes_eq name.now k.name) self.now) }
    {
        self.find(name).is_some()
    }

    /// The number of the class of a name, and the class.
    pub(crate) fn find(&self, name: &Word) -> Option<(u32, &Class)>
        ensures number { option_map (λ found. found.0) result ≡ position (λ k. bytes_eq name.now k.name) self.now }
        ensures class { option_map (λ found. found.1.now) result ≡ find (λ k. bytes_eq name.now k.name) self.now }
        ensures at { IfSome result (λ found. slice_get self.now found.0 ≡ Some found.1.now) }
    {
        match self.classes.get_full(name) {
            Some((number, _, class)) => Some((number as u32, class)),
            None => None,
        }
    }

    /// Adds a class of a new name, and answers its number. After an error nothing has changed.
    pub(crate) fn add(&mut self, class: Class) -> Result<ClassId, AllocError>
        requires few { length self.old < CLASS_LIMIT }
        requires new { find (λ k. bytes_eq class.name k.name) self.old ≡ None }
        ensures ok { OnOk result (self.new ≡ self.old ++ class ∷ []) }
        ensures number { IfOk result (λ number. number ≡ length self.old) }
        ensures sound { AreClasses self.new }
        ensures err { OnErr result (self.new ≡ self.old) }
    {
        let number = self.classes.len() as u32;
        self.classes.insert(*class.name(), class)?;
        Ok(number)
    }

    /// Takes the last class away. It takes no memory.
    pub(crate) fn remove_last(&mut self)
        requires { 0 < length self.old }
        ensures { self.new ≡ take (length self.old - 1) self.old }
    {
        let count = self.classes.len();
        self.classes.truncate(count - 1);
    }
}
