//! The objects of a class, and how they move.
ghost use Rattle.std.specs.Prelude.{◌≡◌, ◌==◌, ◌+◌, ◌<◌, ◌++◌, ◌∷◌, [], not, All, IfOk, OnErr, OnOk, length, map};
ghost use Rattle.std.specs.List.{filter};
ghost use Rattle.history.specs.Catalog.{ids_of};
ghost use Rattle.nearness.specs.Nearest.{others_of};
ghost use Rattle.object_store.specs.Contents.{IsObjectId, catalog_of, history_of};
ghost use Rattle.nearest.specs.Courses.{AreNumbered, IsOfStore};
ghost use Rattle.steps.specs.Counting.{StepsAtMost};

use crate::sight::Sight;
use motion::Timeline;
use object_store::{ClassId, ObjectId, Store};
use std::alloc::{AllocError, Global};
use std::sync::ledger::Ledger;
use steps::Steps;

/// An object, and how it moves.
#[derive(Clone, Copy)]
pub struct Course<'a> {
    pub id: ObjectId,
    /// Its place among the objects that are asked for, counted from 0.
    pub index: usize,
    pub timeline: &'a Timeline,
    /// What is seen of it in a slice of time.
    pub sight: Sight,
}

/// The objects of a class, but for the object `to`. Each timeline is looked up once.
pub fn courses_of<'a, L: Ledger>(
    alloc: Global,
    class: ClassId,
    to: ObjectId,
    store: &'a Store,
    reads: &mut Steps<L>,
) -> Result<Vec<Course<'a>>, AllocError>
    ensures ids { IfOk result (λ courses. map (λ c. c.id) courses.items ≡ others_of (history_of store.now) class to) }
    ensures stored { IfOk result (λ courses. All (IsOfStore store.now) courses.items) }
    ensures numbered { IfOk result (λ courses. AreNumbered 0 courses.items) }
    ensures reads { StepsAtMost reads.old reads.new (length (ids_of (catalog_of store.now) class)) }
{
    let mut courses = Vec::new(alloc);
    'objects: for id in store.class_names(class) {
        add_course(&mut courses, *id, to, store, reads)?;
    }
    Ok(courses)
}

// Adds the course of an object, if that isn't the object `to`.
fn add_course<'a, L: Ledger>(
    courses: &mut Vec<Course<'a>>,
    id: ObjectId,
    to: ObjectId,
    store: &'a Store,
    reads: &mut Steps<L>,
) -> Result<(), AllocError>
    requires there { IsObjectId store.now id }
    requires stored { All (IsOfStore store.now) courses.old.items }
    requires numbered { AreNumbered 0 courses.old.items }
    ensures ids { OnOk result (map (λ c. c.id) courses.new.items
        ≡ map (λ c. c.id) courses.old.items ++ filter (λ n. not (n == to)) (id ∷ [])) }
    ensures stored { OnOk result (All (IsOfStore store.now) courses.new.items) }
    ensures numbered { OnOk result (AreNumbered 0 courses.new.items) }
    ensures reads { StepsAtMost reads.old reads.new 1 }
{
    if id == to {
        return Ok(());
    }
    let index = courses.len();
    courses.push(Course {
        id,
        index,
        timeline: store.timeline(id, reads),
        sight: Sight::Unknown,
    })?;
    Ok(())
}
