//! The objects that can come into an area, by their patches.
ghost use Rattle.std.specs.Prelude.{◌≡◌, ◌||◌, [], IfOk, IfSome};
ghost use Rattle.std.specs.List.{filter};
ghost use Rattle.object_store.specs.Contents.{ids_in};
ghost use Rattle.object_store.specs.ObjectView.{objects_of};
ghost use Rattle.object_store.specs.Placing.{is_in_class, ArePlaced};
ghost use Rattle.object_store.specs.Run.{is_in_run};
ghost use Rattle.object_store.specs.Searching.{IsNowhere, IsSearched};

use crate::areas::Area;
use crate::objects::Objects;
use crate::run::{Run, is_in_run, run_of};
use places::Places;
use std::alloc::{AllocError, Global};
use tick_set::Window;

/// The objects of a store, and the ids of those of a class.
#[derive(Clone, Copy)]
pub struct Among<'a> {
    pub objects: &'a Objects,
    pub class: u32,
    pub own: &'a [u32],
}

/// The objects of a class whose patches meet an area, ascending. None where no horizon has the window.
pub fn candidates(
    alloc: Global,
    among: &Among,
    places: &Places,
    area: &Area,
    w: Window,
) -> Result<Option<Vec<u32>>, AllocError>
    requires own { among.now.own.now ≡ ids_in (objects_of among.now.objects.now.entries) among.now.class }
    requires placed { ArePlaced places.now (objects_of among.now.objects.now.entries) }
    ensures { IfOk result (λ found. IfSome found (λ ids.
        IsSearched (IsNowhere (objects_of among.now.objects.now.entries) area.now w.lo w.hi) (ids_in (objects_of among.now.objects.now.entries) among.now.class) ids.items [])) }
{
    let patch = area.patch();
    match places.near(alloc, w.lo, w.hi, &patch)? {
        Some(numbers) => Ok(Some(of_class(numbers, among))),
        None => Ok(None),
    }
}

/// Those of these numbers that are of objects of a class.
fn of_class(numbers: Vec<u32>, among: &Among) -> Vec<u32>
    requires { among.now.own.now ≡ ids_in (objects_of among.now.objects.now.entries) among.now.class }
    ensures { result.items ≡ filter (is_in_class (objects_of among.now.objects.now.entries) among.now.class) numbers.items }
{
    let run = run_of(among.own);
    let mut ids = numbers;
    ids.retain(|id| is_in_either(run, among.objects, *id, among.class));
    ids
}

/// Whether a run has an id, or the object of the id is of a class. An object lies far from the last one that was asked.
fn is_in_either(run: Option<Run>, objects: &Objects, id: u32, class: u32) -> bool
    ensures { result ≡ (is_in_run run id || is_in_class (objects_of objects.now.entries) class id) }
{
    is_in_run(run, id) || is_in_class(objects, id, class)
}

/// Whether the object of an id is of a class.
fn is_in_class(objects: &Objects, id: u32, class: u32) -> bool
    ensures { result ≡ is_in_class (objects_of objects.now.entries) class id }
{
    match objects.get_index(id as usize) {
        Some((_, object)) => object.class == class,
        None => false,
    }
}
