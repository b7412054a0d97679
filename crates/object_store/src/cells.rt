//! What a command writes to the cells of an object.
ghost use Rattle.std.specs.Prelude.{◌≡◌, ◌<◌, ◌++◌, ◌∷◌, [], codes, length, IfOk, OnOk};
ghost use Rattle.std.specs.Option.{option_map_or};
ghost use Rattle.motion.specs.Cells.{AreCellsAt, AreChanges, changed, place_sets};
ghost use Rattle.tick_set.specs.Ticks.{IsTick};
ghost use Rattle.history.specs.Catalog.{coordinates};
ghost use Rattle.object_store.specs.Changes.{fresh_cells, setting_changes};

use crate::class::Class;
use crate::names::{x_name, y_name};
use motion::{Cell, Given, NamedSet, Place, write_cells};
use std::alloc::{AllocError, Global};

/// Writes to the cells of these indexes, in their order.
pub type Changes = Vec<(usize, Given)>;

/// Fills the buffer with what a command writes.
#[tactic(auto, using(crate::proofs::CellLemmas::placed_both))]
pub fn fill(
    changes: &mut Changes,
    class: &Class,
    place: &Place,
    sets: &[NamedSet],
) -> Result<(), AllocError>
    ensures { OnOk result (changes.new.items ≡ setting_changes class.now.attributes (place_sets place.now ++ sets.now)) }
{
    changes.clear();
    if class.is_point() {
        push_place(changes, place)?;
    } else if let Some(sets) = coordinates(place) {
        push(changes, class, &sets)?;
    }
    push(changes, class, sets)?;
    Ok(())
}

/// Appends what a place gives for x and y, the first two attributes of a point class.
fn push_place(changes: &mut Changes, place: &Place) -> Result<(), AllocError>
    ensures { OnOk result (changes.new.items ≡ changes.old.items ++ setting_changes coordinates (place_sets place.now)) }
{
    match (&place.at, &place.moving) {
        (None, None) => Ok(()),
        (Some(at), None) => push_both(changes, Given::Num(at.x), Given::Num(at.y)),
        (None, Some(moving)) => push_both(changes, Given::Rate(moving.0), Given::Rate(moving.1)),
        (Some(at), Some(moving)) => push_both(
            changes,
            Given::Both(at.x, moving.0),
            Given::Both(at.y, moving.1),
        ),
    }
}

/// Appends what is given for the first two attributes.
fn push_both(changes: &mut Changes, x: Given, y: Given) -> Result<(), AllocError>
    ensures { OnOk result (changes.new.items ≡ changes.old.items ++ (0, x) ∷ (1, y) ∷ []) }
{
    changes.push((0, x))?;
    changes.push((1, y))?;
    Ok(())
}

/// What a place gives for x and y by their names.
fn coordinates(place: &Place) -> Option<[NamedSet; 2]>
    ensures { place_sets place.now ≡ option_map_or (λ sets. sets) result [] }
{
    match (&place.at, &place.moving) {
        (None, None) => None,
        (Some(at), None) => Some(named(Given::Num(at.x), Given::Num(at.y))),
        (None, Some(moving)) => Some(named(Given::Rate(moving.0), Given::Rate(moving.1))),
        (Some(at), Some(moving)) => Some(named(
            Given::Both(at.x, moving.0),
            Given::Both(at.y, moving.1),
        )),
    }
}

fn named(x: Given, y: Given) -> [NamedSet; 2]
    ensures { result ≡ record { name = codes "x"; given = x } ∷ record { name = codes "y"; given = y } ∷ [] }
{
    [
        NamedSet {
            name: x_name(),
            given: x,
        },
        NamedSet {
            name: y_name(),
            given: y,
        },
    ]
}

/// Appends these settings, by the indexes of their attributes.
fn push(changes: &mut Changes, class: &Class, sets: &[NamedSet]) -> Result<(), AllocError>
    ensures { OnOk result (changes.new.items ≡ changes.old.items ++ setting_changes class.now.attributes sets.now) }
{
    let mut rest = sets;
    while let Some((set, later)) = rest.split_first() {
        if let Some(index) = class.attr_of(&set.name) {
            changes.push((index, set.given))?;
        }
        rest = later;
    }
    Ok(())
}

/// The cells that an insert at tick `now` begins with, after these writes.
pub fn inserted(
    alloc: Global,
    now: u32,
    class: &Class,
    changes: &[(usize, Given)],
) -> Result<Vec<Cell>, AllocError>
    requires tick { IsTick now }
    requires given { AreChanges changes.now }
    ensures cells { IfOk result (λ v. v.items ≡ changed now changes.now (fresh_cells now class.now.attributes)) }
    ensures written { IfOk result (λ v. AreCellsAt v.items now) }
{
    let mut cells = fresh(alloc, now, class)?;
    write_cells(&mut cells, now, changes);
    Ok(cells)
}

fn fresh(alloc: Global, now: u32, class: &Class) -> Result<Vec<Cell>, AllocError>
    requires { IsTick now }
    ensures cells { IfOk result (λ v. v.items ≡ fresh_cells now class.now.attributes) }
    ensures written { IfOk result (λ v. AreCellsAt v.items now) }
{
    let attrs = class.attrs();
    let mut cells = Vec::with_capacity(alloc, attrs.len())?;
    for attr in attrs {
        cells.push(Cell::fresh(attr.kind, now))?;
    }
    Ok(cells)
}
