//! Classes and their attributes.
ghost use Rattle.std.specs.Prelude.{◌≡◌, ◌+◌, ◌<◌, ◌≤◌, false, length, take, IsTrue, OnOk, IfOk};
ghost use Rattle.std.specs.List.{list_any, position};
ghost use Rattle.std.specs.Option.{option_copied};
ghost use Rattle.std.specs.Str.{bytes_eq};
ghost use Rattle.history.specs.Catalog.{with_coordinates, coordinates};
ghost use Rattle.object_store.specs.Faults.{attribute_named, repeats_attribute};
ghost use Rattle.object_store.specs.Sound.{IsClass};
ghost use Rattle.motion.specs.declared.cell.AttrKind.TheVariants.{Dyn};
ghost use Rattle.motion.specs.Cells.{AreFewAttributes, IsCapacity};

use crate::names::{x_name, y_name};
use fixed_point::Word;
use motion::{ATTRIBUTE_LIMIT, AttrKind};
use std::alloc::{AllocError, Global};
use std::marker::Model;

/// An attribute of a class.
#[derive(Clone, Copy, Debug)]
pub struct AttrDef {
    pub name: Word,
    pub kind: AttrKind,
}

impl Model for AttrDef {
    ghost use Rattle.history.specs.Write.{Attribute};

    ghost Value = { Attribute };

    ghost view = { λ a. record { name = a.name; kind = a.kind } };

    ghost inverse = { λ a. record { name = a.name; kind = a.kind } };
}

/// A class of objects: how many may ever be inserted, and their attributes in order. No two
/// attributes have the same name.
#[derive(Drop)]
pub struct Class {
    name: Word,
    capacity: u32,
    point: bool,
    attrs: Vec<AttrDef>,
}

impl Model for Class {
    ghost use Rattle.history.specs.Catalog.{ClassInfo};
    ghost use Rattle.object_store.specs.Sound.{IsClass};
    ghost use Rattle.motion.specs.declared.cell.AttrKind.TheVariants.{Dyn};

    ghost Value = { ClassInfo };

    ghost view = { λ k. record { name = k.name; capacity = k.capacity; point = k.point; attributes = k.attrs.items } };

    ghost invariant = { λ k. IsClass (record { name = k.name; capacity = k.capacity; point = k.point; attributes = k.attrs.items }) };
}

impl Class {
    /// A class with these written attributes, after `x` and `y` where it is a point class.
    pub(crate) fn new(
        alloc: Global,
        name: Word,
        capacity: u32,
        point: bool,
        attrs: &[AttrDef],
    ) -> Result<Class, AllocError>
        requires capacity { IsCapacity capacity }
        requires few { AreFewAttributes attrs.now }
        requires differ { repeats_attribute (with_coordinates point attrs.now) ≡ false }
        ensures { IfOk result (λ k.
            k ≡ record { name = name; capacity = capacity; point = point; attributes = with_coordinates point attrs.now }) }
    {
        let attrs = all_attributes(alloc, point, attrs)?;
        Ok(Class {
            name,
            capacity,
            point,
            attrs,
        })
    }

    /// Its name.
    #[inline]
    pub fn name(&self) -> &Word
        ensures value { result.now ≡ self.now.name }
        ensures sound { IsClass self.now }
    {
        &self.name
    }

    /// How many objects may ever be inserted, from 1 to 100,000.
    #[inline]
    pub fn capacity(&self) -> u32
        ensures value { result ≡ self.now.capacity }
        ensures sound { IsClass self.now }
    {
        self.capacity
    }

    /// Whether its objects have positions. The first two attributes are then the dynamic `x` and `y`.
    #[inline]
    pub fn is_point(&self) -> bool
        ensures value { result ≡ self.now.point }
        ensures positions { IsTrue result → take 2 self.now.attributes ≡ coordinates }
    {
        self.point
    }

    /// Its attributes, in order.
    #[inline]
    pub fn attrs(&self) -> &[AttrDef]
        ensures value { result.now ≡ self.now.attributes }
        ensures few { length result.now ≤ ATTRIBUTE_LIMIT + 2 }
    {
        &self.attrs
    }

    /// The index of the attribute of a name. None exactly where there is none.
    pub fn attr_of(&self, name: &Word) -> Option<usize>
        ensures { result ≡ position (λ a. bytes_eq name.now a.name) self.now.attributes }
    {
        self.attrs.iter().position(|attr| *name == attr.name)
    }

    /// The attribute of a name.
    pub(crate) fn attribute(&self, name: &Word) -> Option<&AttrDef>
        ensures { option_copied result ≡ attribute_named self.now.attributes name.now }
    {
        self.attrs.iter().find(|attr| *name == attr.name)
    }
}

/// These attributes, after `x` and `y` in a point class.
fn all_attributes(alloc: Global, point: bool, attrs: &[AttrDef]) -> Result<Vec<AttrDef>, AllocError>
    requires { AreFewAttributes attrs.now }
    ensures { IfOk result (λ v. v.items ≡ with_coordinates point attrs.now) }
{
    let mut all = Vec::with_capacity(alloc, attrs.len() + 2)?;
    if point {
        all.push(position_attr(x_name()))?;
        all.push(position_attr(y_name()))?;
    }
    all.extend_from_slice(attrs)?;
    Ok(all)
}

/// A coordinate of a position.
fn position_attr(name: Word) -> AttrDef
    ensures { result ≡ record { name = name; kind = Dyn } }
{
    AttrDef {
        name,
        kind: AttrKind::Dyn,
    }
}

/// Whether a class may not have these written attributes, since a name stands twice.
pub fn repeats_attribute(point: bool, attrs: &[AttrDef]) -> bool
    ensures { result ≡ repeats_attribute (with_coordinates point attrs.now) }
{
    if point && names_attribute(attrs, &x_name()) {
        return true;
    }
    if point && names_attribute(attrs, &y_name()) {
        return true;
    }
    repeats_name(attrs)
}

fn repeats_name(attrs: &[AttrDef]) -> bool
    ensures { result ≡ repeats_attribute attrs.now }
{
    let mut rest = attrs;
    while let Some((attr, later)) = rest.split_first() {
        if names_attribute(later, &attr.name) {
            return true;
        }
        rest = later;
    }
    false
}

fn names_attribute(attrs: &[AttrDef], name: &Word) -> bool
    ensures { result ≡ list_any (λ a. bytes_eq name.now a.name) attrs.now }
{
    attrs.iter().any(|attr| *name == attr.name)
}
