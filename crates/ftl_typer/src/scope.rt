//! What the names in a query stand for.
#![tactic(auto, unfolding(crate::specs::Context::scope_in))]

ghost use Rattle.std.specs.Prelude.{◌≡◌, ◌+◌, ◌<◌, ◌≤◌, is_some, length, IfSome};
ghost use Rattle.std.specs.List.{find, position};
ghost use Rattle.std.specs.Option.{option_copied, option_map};
ghost use Rattle.std.specs.Str.{bytes_eq};
ghost use Rattle.formula_shape.specs.declared.limits.TheConstants.{NESTING_LIMIT};
ghost use Rattle.formula_shape.specs.declared.limits.TheConstants.{OBJECT_LIMIT};
ghost use Rattle.formula_shape.specs.Sizes.{FitInQuery};
ghost use Rattle.ftl_typer.specs.Context.{scope_in};
ghost use Rattle.ftl_typer.specs.Scope.{attribute_position, class_named, has_no_parts, is_name_taken, is_no_object, is_no_point, is_point, is_unknown, is_value, is_variable, lacks_attribute, named_attribute_kind, scope_inside, scope_of, value_named, value_of};

use crate::values::{Assigned, Values};
use fixed_point::Word;
use ftl_parser::FromPart;
use motion::AttrKind;
use object_store::{Class, Schema};
use polygon::Regions;
use std::marker::Model;

/// The classes and regions, the parts of FROM, and the value variables in whose scope one stands.
#[derive(Drop)]
pub struct Scope<'a> {
    schema: &'a Schema,
    regions: &'a Regions,
    from: &'a [FromPart],
    values: Values,
}

impl<'a> Model for Scope<'a> {
    ghost use Rattle.std.specs.Prelude.{◌≤◌, length};
    ghost use Rattle.formula_shape.specs.declared.limits.TheConstants.{OBJECT_LIMIT};
    ghost use Rattle.ftl_typer.specs.Context.{Context};
    ghost use Rattle.ftl_typer.specs.Values.{assigned_in};

    ghost Value = { Context };

    ghost view = { λ a. record {
      classes = a.schema.now;
      regions = a.regions.now;
      from = a.from.now;
      values = assigned_in a.values;
    } };

    ghost invariant = { λ a. length a.from.now ≤ OBJECT_LIMIT };
}

impl<'a> Scope<'a> {
    /// Around the formula of a query, where no value variable is in scope.
    pub fn new(schema: &'a Schema, regions: &'a Regions, from: &'a [FromPart]) -> Scope<'a>
        requires { FitInQuery from.now }
        ensures { scope_in result ≡ scope_of schema.now regions.now from.now }
    {
        Scope {
            schema,
            regions,
            from,
            values: Values::Empty,
        }
    }

    /// In the scope of one more assignment.
    pub fn inside(&self, value: Assigned) -> Scope<'a>
        requires { length (scope_in self.now).values < NESTING_LIMIT }
        ensures { scope_in result ≡ scope_inside (scope_in self.now) value }
    {
        Scope {
            schema: self.schema,
            regions: self.regions,
            from: self.from,
            values: self.values.with(value),
        }
    }

    /// The number of assignments around.
    pub fn depth(&self) -> u8
        ensures { result ≡ length (scope_in self.now).values }
    {
        self.values.len()
    }

    /// The number of the first variable of FROM of a name.
    pub fn variable(&self, name: &Word) -> Option<u8>
        ensures { result ≡ (scope_in self.now).variable name.now }
    {
        let place = place_of(self.from, name)?;
        Some(place as u8)
    }

    /// Whether a name is a variable of FROM.
    pub fn is_variable(&self, name: &Word) -> bool
        ensures { result ≡ is_variable (scope_in self.now) name.now }
    {
        self.variable(name).is_some()
    }

    /// The depth of the value variable of a name, and the value variable.
    pub fn value(&self, name: &Word) -> Option<(u8, Assigned)>
        ensures depth { option_map (λ found. found.0) result ≡ value_of (scope_in self.now) name.now }
        ensures value { option_map (λ found. found.1) result ≡ value_named (scope_in self.now) name.now }
    {
        self.values.find(name)
    }

    /// Whether a name is a value variable in whose scope one stands.
    pub fn is_value(&self, name: &Word) -> bool
        ensures { result ≡ is_value (scope_in self.now) name.now }
    {
        self.value(name).is_some()
    }

    /// The class of a variable of FROM.
    fn class(&self, name: &Word) -> Option<&'a Class>
        ensures { option_copied result ≡ (scope_in self.now).class name.now }
    {
        let part = part_of(self.from, name)?;
        class_named(self.schema, &part.class)
    }

    /// Whether a variable of FROM is of a point class.
    pub fn is_point(&self, name: &Word) -> bool
        ensures { result ≡ is_point (scope_in self.now) name.now }
    {
        match self.class(name) {
            Some(class) => class.is_point(),
            None => false,
        }
    }

    /// The number of an attribute of a variable of FROM, and its kind.
    pub fn attribute(&self, variable: &Word, name: &Word) -> Option<(u8, AttrKind)>
        ensures number { option_map (λ found. found.0) result ≡ attribute_position (scope_in self.now) variable.now name.now }
        ensures kind { option_map (λ found. found.1) result ≡ named_attribute_kind (scope_in self.now) variable.now name.now }
    {
        let class = self.class(variable)?;
        attribute_in(class, name)
    }

    /// Whether a name is neither.
    pub fn is_unknown(&self, name: &Word) -> bool
        ensures { result ≡ is_unknown (scope_in self.now) name.now }
    {
        !self.is_variable(name) && !self.is_value(name)
    }

    /// Whether a name is a value variable alone.
    pub fn is_no_object(&self, name: &Word) -> bool
        ensures { result ≡ is_no_object (scope_in self.now) name.now }
    {
        !self.is_variable(name) && self.is_value(name)
    }

    /// Whether a name is a variable of FROM, and not of a point class.
    pub fn is_no_point(&self, name: &Word) -> bool
        ensures { result ≡ is_no_point (scope_in self.now) name.now }
    {
        self.is_variable(name) && !self.is_point(name)
    }

    /// Whether a name is a variable of FROM or a value variable in whose scope one stands.
    pub fn is_taken(&self, name: &Word) -> bool
        ensures { result ≡ is_name_taken (scope_in self.now) name.now }
    {
        self.is_variable(name) || self.is_value(name)
    }

    /// The kind of an attribute of a variable of FROM.
    pub fn attribute_kind(&self, variable: &Word, name: &Word) -> Option<AttrKind>
        ensures { result ≡ named_attribute_kind (scope_in self.now) variable.now name.now }
    {
        let (_, kind) = self.attribute(variable, name)?;
        Some(kind)
    }

    /// Whether the class of a variable of FROM has no such attribute.
    pub fn lacks_attribute(&self, variable: &Word, name: &Word) -> bool
        ensures { result ≡ lacks_attribute (scope_in self.now) variable.now name.now }
    {
        self.is_variable(variable) && self.attribute_kind(variable, name).is_none()
    }

    /// Whether an attribute is there and isn't dynamic.
    pub fn has_no_parts(&self, variable: &Word, name: &Word) -> bool
        ensures { result ≡ has_no_parts (scope_in self.now) variable.now name.now }
    {
        match self.attribute_kind(variable, name) {
            Some(AttrKind::Num | AttrKind::Text) => true,
            Some(AttrKind::Dyn) | None => false,
        }
    }

    /// The number of the region of a name.
    pub fn region(&self, name: &Word) -> Option<u32>
        ensures { result ≡ (scope_in self.now).region name.now }
    {
        self.regions.number_of(name)
    }
}

/// The place of the first part of FROM whose variable has the name.
fn place_of(from: &[FromPart], name: &Word) -> Option<usize>
    ensures place { result ≡ position (λ part. bytes_eq name.now part.var) from.now }
    ensures in_range { IfSome result (λ place. place < length from.now) }
{
    from.iter().position(|part| *name == part.var)
}

/// The first part of FROM whose variable has the name.
fn part_of<'a>(from: &'a [FromPart], name: &Word) -> Option<&'a FromPart>
    ensures { option_copied result ≡ find (λ part. bytes_eq name.now part.var) from.now }
{
    from.iter().find(|part| *name == part.var)
}

/// The number of an attribute of a class, and its kind.
#[tactic(auto, using(crate::proofs::AttributeLemmas::no_kind, crate::proofs::AttributeLemmas::kind_there))]
fn attribute_in(class: &Class, name: &Word) -> Option<(u8, AttrKind)>
    ensures number { option_map (λ found. found.0) result ≡ position (λ attribute. bytes_eq name.now attribute.name) class.now.attributes }
    ensures kind { option_map (λ found. found.1) result
        ≡ option_map (λ attribute. attribute.kind) (find (λ attribute. bytes_eq name.now attribute.name) class.now.attributes) }
{
    match class.attr_of(name) {
        Some(place) => {
            let attribute = class.attrs().get(place)?;
            Some((place as u8, attribute.kind))
        }
        None => None,
    }
}

/// The class of a name.
fn class_named<'a>(schema: &'a Schema, name: &Word) -> Option<&'a Class>
    ensures { option_copied result ≡ class_named schema.now name.now }
{
    let number = schema.class_of(name)?;
    schema.class(number)
}
