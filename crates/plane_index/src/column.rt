//! The strips of the objects of an index in one slice.
ghost use Rattle.std.specs.Prelude.{◌≡◌, ◌≤◌, ◌<◌, ◌||◌, ℕ, [], false, length, min, slice_index_or, slice_set};
ghost use Rattle.plane.specs.Boxes.{IsSlice};
ghost use Rattle.plane_index.specs.Columns.{narrow_at, narrow_meets, IsColumn};
ghost use Rattle.plane_index.specs.States.{AreWritten};
ghost use Rattle.exact.specs.Lists.{SameLength};

use crate::cover::Narrow;
use crate::grid::Grid;
use crate::state::State;
use std::alloc::{AllocError, Global};
use std::marker::Model;

/// The strips of the first objects, by their places among those of the index.
#[derive(Drop)]
pub struct Column {
    covers: Vec<Narrow>,
}

impl Model for Column {
    ghost use Rattle.std.specs.Prelude.{List};
    ghost use Rattle.plane_index.specs.declared.cover.Narrow.{Narrow};

    ghost Value = { List Narrow };

    ghost view = { λ c. c.covers.items };
}

impl Column {
    /// That of no objects. It takes no memory.
    pub fn new(alloc: Global) -> Column
        ensures { result ≡ [] }
    {
        Column {
            covers: Vec::new(alloc),
        }
    }

    /// How many objects it has.
    pub fn len(&self) -> usize
        ensures { result ≡ length self.now }
    {
        self.covers.len()
    }

    /// It has no objects from now on, and gives its memory back.
    pub fn clear(&mut self, alloc: Global)
        ensures { self.new ≡ [] }
    {
        self.covers = Vec::new(alloc);
    }

    /// Notes the strips of the objects that it hasn't. Where memory is out it has those of fewer.
    pub fn fill(&mut self, grid: &Grid, states: &[State], s: usize) -> Result<(), AllocError>
        requires slice { IsSlice s }
        requires written { AreWritten states.now }
        requires right { IsColumn grid.now states.now s self.old }
        ensures { IsColumn grid.now states.now s self.new }
    {
        'places: while self.covers.len() < states.len() {
            let place = self.covers.len();
            let cover = states[place].cover(grid, s);
            self.covers.push(cover.narrowed())?;
        }
        Ok(())
    }

    /// Sets the strips of a place.
    pub fn set(&mut self, place: usize, cover: Narrow)
        requires { place < length self.old }
        ensures { self.new ≡ slice_set self.old place cover }
    {
        self.covers[place] = cover;
    }

    /// Marks each place that it has, of as many as there are marks, whose strips share one with these. How many it has.
    pub fn mark(&self, marks: &mut [bool], asked: Narrow) -> usize
        ensures count { result ≡ min (length self.now) (length marks.old) }
        ensures length { SameLength marks.new marks.old }
        ensures marks { (k : ℕ) → k < result → slice_index_or marks.new k false
            ≡ (slice_index_or marks.old k false || narrow_meets (narrow_at self.now k) asked) }
        ensures rest { (k : ℕ) → result ≤ k → slice_index_or marks.new k false ≡ slice_index_or marks.old k false }
    {
        let count = self.covers.len().min(marks.len());
        mark_each(&self.covers[..count], marks, asked);
        count
    }
}

// Marks the place of each of these strips that share one with others.
fn mark_each(covers: &[Narrow], marks: &mut [bool], asked: Narrow)
    requires room { length covers.now ≤ length marks.old }
    ensures length { SameLength marks.new marks.old }
    ensures marks { (k : ℕ) → k < length covers.now → slice_index_or marks.new k false
        ≡ (slice_index_or marks.old k false || narrow_meets (narrow_at covers.now k) asked) }
    ensures rest { (k : ℕ) → length covers.now ≤ k → slice_index_or marks.new k false ≡ slice_index_or marks.old k false }
{
    let mut place = 0;
    'places: while place < covers.len() {
        marks[place] = marks[place] | covers[place].meets(&asked);
        place += 1;
    }
}
