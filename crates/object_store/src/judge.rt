//! The first fault of a writing call.
ghost use Rattle.std.specs.Prelude.{◌≡◌, Some};
ghost use Rattle.std.specs.List.{list_any};
ghost use Rattle.std.specs.Str.{bytes_eq};
ghost use Rattle.object_store.specs.Faults.{repeats, repeats_set, takes, has_unknown, has_misfit, is_misfit, is_misplaced, is_placed, fault_of_insert, fault_of_update};

use crate::class::Class;
use crate::fault::StoreFault;
use crate::names::{x_name, y_name};
use fixed_point::Word;
use motion::{AttrKind, Given, NamedSet, Place};

/// What an insert finds of its name.
#[derive(Clone, Copy, Debug)]
pub struct Found {
    /// It belongs to another class.
    pub elsewhere: bool,
    /// Its object is present.
    pub present: bool,
    /// It is new, and the class has had as many names as its capacity.
    pub past_capacity: bool,
}

/// The first fault of an insert into the class.
pub fn insert_fault(
    class: &Class,
    found: &Found,
    place: &Place,
    sets: &[NamedSet],
) -> Option<StoreFault>
    ensures { result ≡ fault_of_insert (Some class.now) found.now.elsewhere found.now.present found.now.past_capacity place.now sets.now }
{
    if has_unknown(class, sets) {
        Some(StoreFault::UnknownName)
    } else if found.elsewhere || repeats_set(place, sets) {
        Some(StoreFault::NameTaken)
    } else if is_misplaced(class, place) || has_misfit(class, sets) {
        Some(StoreFault::WrongKind)
    } else if found.present {
        Some(StoreFault::Presence)
    } else if found.past_capacity {
        Some(StoreFault::ClassFull)
    } else {
        None
    }
}

/// The first fault of an update of an object of the class.
pub fn update_fault(
    class: &Class,
    present: bool,
    place: &Place,
    sets: &[NamedSet],
) -> Option<StoreFault>
    ensures { result ≡ fault_of_update (Some class.now) present place.now sets.now }
{
    if has_unknown(class, sets) {
        Some(StoreFault::UnknownName)
    } else if repeats_set(place, sets) {
        Some(StoreFault::NameTaken)
    } else if is_misplaced(class, place) || has_misfit(class, sets) {
        Some(StoreFault::WrongKind)
    } else if !present {
        Some(StoreFault::Presence)
    } else {
        None
    }
}

/// Whether a setting names an attribute that isn't there.
fn has_unknown(class: &Class, sets: &[NamedSet]) -> bool
    ensures { result ≡ has_unknown class.now.attributes sets.now }
{
    sets.iter().any(|set| class.attribute(&set.name).is_none())
}

/// Whether a setting gives what its attribute doesn't take.
fn has_misfit(class: &Class, sets: &[NamedSet]) -> bool
    ensures { result ≡ has_misfit class.now.attributes sets.now }
{
    sets.iter().any(|set| is_misfit(class, set))
}

fn is_misfit(class: &Class, set: &NamedSet) -> bool
    ensures { result ≡ is_misfit class.now.attributes set.now }
{
    match class.attribute(&set.name) {
        Some(attr) => !takes(attr.kind, &set.given),
        None => false,
    }
}

/// Whether an attribute of a kind takes what is given.
fn takes(kind: AttrKind, given: &Given) -> bool
    ensures { result ≡ takes kind given.now }
{
    match (kind, given) {
        (AttrKind::Num, Given::Num(_)) => true,
        (AttrKind::Text, Given::Text(_)) => true,
        (AttrKind::Dyn, Given::Num(_) | Given::Rate(_) | Given::Both(_, _)) => true,
        _ => false,
    }
}

/// Whether `at` or `move` is given for a class without positions.
fn is_misplaced(class: &Class, place: &Place) -> bool
    ensures { result ≡ is_misplaced (Some class.now) place.now }
{
    is_placed(place) && !class.is_point()
}

fn is_placed(place: &Place) -> bool
    ensures { result ≡ is_placed place.now }
{
    place.at.is_some() || place.moving.is_some()
}

/// Whether a command writes an attribute twice; `at` and `move` write x and y.
fn repeats_set(place: &Place, sets: &[NamedSet]) -> bool
    ensures { result ≡ repeats_set place.now sets.now }
{
    if sets.is_empty() {
        return false;
    }
    let placed = is_placed(place);
    if placed && names_set(sets, &x_name()) {
        return true;
    }
    if placed && names_set(sets, &y_name()) {
        return true;
    }
    repeats_name(sets)
}

fn repeats_name(sets: &[NamedSet]) -> bool
    ensures { result ≡ repeats (λ set. set.name) sets.now }
{
    let mut rest = sets;
    while let Some((set, later)) = rest.split_first() {
        if names_set(later, &set.name) {
            return true;
        }
        rest = later;
    }
    false
}

fn names_set(sets: &[NamedSet], name: &Word) -> bool
    ensures { result ≡ list_any (λ set. bytes_eq name.now set.name) sets.now }
{
    sets.iter().any(|set| *name == set.name)
}
