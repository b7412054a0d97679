//! The objects of variables.
ghost use Rattle.std.specs.Prelude.{◌≡◌, ◌<◌, ◌≤◌, ◌+◌, ◌==◌, ◌∷◌, ◌++◌, ℕ, [], length, map, slice_index, slice_index_or, true, IfOk};
ghost use Rattle.std.specs.List.Sorted.{IsStrictlyIncreasing};
ghost use Rattle.formula_shape.specs.Sizes.{FitInQuery};
ghost use Rattle.kept_rows.specs.Numbers.{IsBindingCount, size_of};
ghost use Rattle.relation.specs.Key.{has_id};
ghost use Rattle.live_queries.specs.Columns.{column_variables, object_or};
ghost use Rattle.live_queries.specs.Prepared.{AreColumnsWith, HaveRoomFor, IsColumnWith, is_of_class};
ghost use Rattle.live_queries.specs.Written.{IsVariableWith, ids_with};

use formula::{Binding, ClassNo};
use kept_rows::Variable;
use std::alloc::{AllocError, Global};
use std::marker::Model;

/// A variable of a registered query by its place in FROM, and the objects that it ranges over. Contracts see the
/// variable, how many objects there are and may be, and the objects.
#[derive(Drop)]
pub(crate) struct Objects {
    variable: u8,
    numbers: Variable,
    // Has memory for as many as there may be.
    ids: Vec<u32>,
}

impl Model for Objects {
    ghost use Rattle.std.specs.Prelude.{◌≡◌, ◌≤◌, length, vec_capacity};
    ghost use Rattle.live_queries.specs.Columns.{Column};

    ghost Value = { Column };

    ghost view = { λ a. record { variable = a.variable; numbers = a.numbers; ids = a.ids.items } };

    ghost invariant = { λ a. (a.numbers.count ≡ length a.ids.items) × (a.numbers.capacity ≤ vec_capacity a.ids) };
}

impl Objects {
    /// The objects of a variable, by their numbers, and how many there may be.
    pub(crate) fn new(
        alloc: Global,
        variable: u8,
        capacity: u32,
        ids: &[u32],
    ) -> Result<Objects, AllocError>
        requires some { 1 ≤ capacity }
        requires room { length ids.now ≤ capacity }
        ensures variable { IfOk result (λ a. a.variable ≡ variable) }
        ensures capacity { IfOk result (λ a. a.numbers.capacity ≡ capacity) }
        ensures count { IfOk result (λ a. a.numbers.count ≡ length ids.now) }
        ensures ids { IfOk result (λ a. a.ids ≡ ids.now) }
    {
        let mut all = Vec::with_capacity(alloc, capacity as usize)?;
        all.extend_from_slice(ids)?;
        Ok(Objects {
            variable,
            numbers: Variable {
                count: ids.len() as u32,
                capacity,
                own: capacity,
            },
            ids: all,
        })
    }

    /// Adds an object after the others, if the variable takes it. It takes no memory.
    fn add_if(&mut self, takes: bool, id: u32)
        requires { takes ≡ true → self.old.numbers.count < self.old.numbers.capacity }
        ensures { IsColumnWith takes id self.old self.new }
    {
        let numbers = self.numbers;
        if !takes {
            return;
        }
        self.numbers = Variable {
            count: numbers.count + 1,
            capacity: numbers.capacity,
            own: numbers.own,
        };
        self.ids.push(id).unwrap();
    }

    /// How many objects there are and may be, with one more if the variable takes it, and the place of that object
    /// among them, which is looked for at a likely one first.
    pub(crate) fn numbers_with(&self, takes: bool, id: u32, likely: usize) -> Variable
        requires room { takes ≡ true → self.now.numbers.count < self.now.numbers.capacity }
        requires ascending { IsStrictlyIncreasing (ids_with takes id self.now) }
        ensures { IsVariableWith takes id self.now result }
    {
        let numbers = self.numbers;
        if takes {
            return Variable {
                count: numbers.count + 1,
                capacity: numbers.capacity,
                own: numbers.count,
            };
        }
        Variable {
            count: numbers.count,
            capacity: numbers.capacity,
            own: place_of(&self.ids, id, likely, numbers.capacity),
        }
    }

    /// Which of the query's variables it is.
    #[inline]
    pub(crate) fn variable(&self) -> u8
        ensures { result ≡ self.now.variable }
    {
        self.variable
    }

    /// How many objects there are and may be.
    #[inline]
    pub(crate) fn numbers(&self) -> Variable
        ensures value { result ≡ self.now.numbers }
        ensures counted { self.now.numbers.count ≡ length self.now.ids }
    {
        self.numbers
    }

    /// The objects, by first insertion.
    #[inline]
    pub(crate) fn ids(&self) -> &[u32]
        ensures { result.now ≡ self.now.ids }
    {
        &self.ids
    }
}

/// How many numbers the bindings of these variables may have.
pub(crate) fn width(columns: &[Objects]) -> u32
    requires { IsBindingCount (size_of (column_variables columns.now)) }
    ensures value { result ≡ size_of (column_variables columns.now) }
    ensures some { 0 < result }
{
    match columns.split_first() {
        Some((first, later)) => first.numbers().capacity * width(later),
        None => 1,
    }
}

/// The object that the binding of a number gives a variable; at a place past the last it is the one that is added.
pub(crate) fn object_in(columns: &[Objects], number: u32, variable: u8, added: u32) -> u32
    requires { IsBindingCount (size_of (column_variables columns.now)) }
    ensures { result ≡ object_or added columns.now number variable }
{
    let Some((first, later)) = columns.split_first() else {
        return 0;
    };
    let width = width(later);
    if variable == first.variable() {
        return object_at(first.ids(), number / width, added);
    }
    object_in(later, number % width, variable, added)
}

/// The objects that the binding of a number gives some variables, in their order.
pub(crate) fn objects_of(columns: &[Objects], number: u32, variables: &[u8], added: u32) -> Binding
    requires size { IsBindingCount (size_of (column_variables columns.now)) }
    requires few { FitInQuery variables.now }
    ensures { result ≡ map (object_or added columns.now number) variables.now }
{
    let mut objects = Binding::new();
    'variables: for variable in variables {
        objects.push(object_in(columns, number, *variable, added));
    }
    objects
}

/// Adds an object of a class to the variables of the class, if it is to be added. It takes no memory.
pub(crate) fn add_object(
    columns: &mut [Objects],
    grows: bool,
    classes: &[ClassNo],
    class: ClassNo,
    id: u32,
)
    requires { grows ≡ true → HaveRoomFor class classes.now columns.old }
    ensures { AreColumnsWith grows class classes.now id columns.old columns.new }
{
    let Some((first, later)) = columns.split_first_mut() else {
        return;
    };
    let takes = grows && is_of_class(classes, first.variable(), class);
    first.add_if(takes, id);
    add_object(later, grows, classes, class, id);
}

// The place of an object in a list that ascends, which is looked for at a likely one first, or another one where it
// isn't there.
fn place_of(ids: &[u32], id: u32, likely: usize, other: u32) -> u32
    requires ascending { IsStrictlyIncreasing ids.now }
    requires other { length ids.now ≤ other }
    ensures { (p : ℕ) → p < length ids.now → (p == result) ≡ (slice_index ids.now p == id) }
{
    if is_at(ids, likely, id) {
        return likely as u32;
    }
    match ids.binary_search(&id) {
        Ok(place) => place as u32,
        Err(_) => other,
    }
}

/// The place of an object in a list that ascends and has it.
pub(crate) fn place_in(ids: &[u32], count: u32, id: u32) -> u32
    requires ascend { IsStrictlyIncreasing ids.now }
    requires count { length ids.now ≤ count }
    requires there { has_id ids.now id ≡ true }
    ensures below { result < length ids.now }
    ensures object { slice_index ids.now result ≡ id }
{
    place_among(ids, count, id)
}

/// The place of an object in a list that ascends, or another one where it isn't there. Objects that were inserted one after
/// another have numbers that follow each other, so it is looked for first where it then stands.
pub(crate) fn place_among(ids: &[u32], other: u32, id: u32) -> u32
    requires ascending { IsStrictlyIncreasing ids.now }
    requires other { length ids.now ≤ other }
    ensures { (p : ℕ) → p < length ids.now → (p == result) ≡ (slice_index ids.now p == id) }
{
    let first = ids.first().copied().unwrap_or(0);
    let likely = id.saturating_sub(first) as usize;
    place_of(ids, id, likely, other)
}

// Whether an object stands at this place.
#[inline]
fn is_at(ids: &[u32], place: usize, id: u32) -> bool
    ensures { result ≡ true → (place < length ids.now) × (slice_index ids.now place ≡ id) }
{
    place < ids.len() && ids[place] == id
}

/// Whether a variable is of the class.
#[inline]
pub(crate) fn is_of_class(classes: &[ClassNo], variable: u8, class: ClassNo) -> bool
    ensures { result ≡ is_of_class classes.now class variable }
{
    match classes.get(variable as usize) {
        Some(k) => *k == class,
        None => false,
    }
}

// The object at a place.
#[inline]
fn object_at(ids: &[u32], place: u32, added: u32) -> u32
    ensures { result ≡ slice_index_or ids.now place added }
{
    ids.get(place as usize).copied().unwrap_or(added)
}
