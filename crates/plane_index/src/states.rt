//! What is kept of the objects of an index.
ghost use Rattle.std.specs.Prelude.{◌≡◌, ◌≤◌, ◌<◌, ◌||◌, ◌⊎◌, ℕ, [], false, length, IfOk, OnOk, slice_index_or, slice_set};
ghost use Rattle.plane.specs.Boxes.{IsSlice, Strips, strips_meet};
ghost use Rattle.plane.specs.declared.limits.TheConstants.{SLICES};
ghost use Rattle.plane_index.specs.Columns.{narrow_at, narrowed, AreColumns};
ghost use Rattle.plane_index.specs.Held.{kept_strips};
ghost use Rattle.plane_index.specs.Index.{fresh_at};
ghost use Rattle.plane_index.specs.Lines.{strips_as};
ghost use Rattle.plane_index.specs.States.{state_of_place, strips_at, strips_by_state, AreWritten, IsWritten, States};
ghost use Rattle.exact.specs.Lists.{SameLength};

use crate::column::Column;
use crate::cover::Cover;
use crate::grid::Grid;
use crate::state::State;
use plane::SLICES;
use std::alloc::{AllocError, Global};
use std::marker::Model;

/// The last states of the objects of an index, as far as they were looked at, and the strips that they cover in the slices
/// that were asked for: those of other slices are made from the states when they are wanted.
#[derive(Drop)]
pub struct States {
    grid: Grid,
    states: Vec<State>,
    columns: Vec<Column>,
}

impl Model for States {
    ghost Value = { States };

    ghost view = { λ a. record { grid = a.grid; states = a.states.items } };

    ghost invariant = { λ a. AreColumns a.grid a.states.items a.columns.items };
}

impl States {
    /// Those of no object.
    pub fn new(alloc: Global, grid: Grid) -> Result<States, AllocError>
        ensures { IfOk result (λ kept. kept ≡ record { grid = grid; states = [] }) }
    {
        let columns = no_columns(alloc)?;
        Ok(States {
            grid,
            states: Vec::new(alloc),
            columns,
        })
    }

    /// What the index is of.
    pub fn grid(&self) -> &Grid
        ensures { result.now ≡ self.now.grid }
    {
        &self.grid
    }

    /// Makes room for so many objects; the states of those that were there stay.
    pub fn lengthen(&mut self, count: usize) -> Result<(), AllocError>
        ensures grid { self.new.grid ≡ self.old.grid }
        ensures room { OnOk result (count ≤ length self.new.states) }
        ensures more { length self.old.states ≤ length self.new.states }
        ensures kept { (k : ℕ) → k < length self.old.states → state_of_place self.new.states k ≡ state_of_place self.old.states k }
    {
        if self.states.len() < count {
            self.states.resize(count, State::none())?;
        }
        Ok(())
    }

    /// Sets the state of a place. It takes no memory.
    pub fn set(&mut self, place: usize, state: State)
        requires place { place < length self.old.states }
        requires written { IsWritten state }
        ensures { self.new ≡ record self.old { states = slice_set self.old.states place state } }
    {
        self.states[place] = state;
        note(&self.grid, &mut self.columns, place, &state);
    }

    /// Makes the strips of the slices from the first to the last one ready to be asked for. Those of the slices before
    /// are given up. It fails only where memory is out.
    pub fn prepare(&mut self, alloc: Global, first: usize, last: usize) -> Result<(), AllocError>
        requires last { IsSlice last }
        ensures { self.new ≡ self.old }
    {
        forget(alloc, &mut self.columns, first);
        fill_from(&self.grid, &self.states, &mut self.columns, first, last)
    }

    /// Marks each place, of as many as there are marks, whose strips in a slice share one with these.
    pub fn mark(&self, s: usize, marks: &mut [bool], asked: &Cover)
        requires slice { IsSlice s }
        requires room { length marks.old ≤ length self.now.states }
        ensures length { SameLength marks.new marks.old }
        ensures marks { (k : ℕ) → k < length marks.old → fresh_at marks.new k
            ≡ (fresh_at marks.old k || strips_meet (strips_as asked.now) (strips_at self.now.grid self.now.states k s)) }
    {
        let known = mark_known(&self.columns[s], marks, asked);
        mark_rest(&self.grid, &self.states, s, known, marks, asked);
    }
}

// A column for each slice.
fn no_columns(alloc: Global) -> Result<Vec<Column>, AllocError>
    ensures length { IfOk result (λ columns. length columns.items ≡ SLICES) }
    ensures empty { IfOk result (λ columns. (s : ℕ) → slice_index_or columns.items s [] ≡ []) }
{
    let mut columns = Vec::with_capacity(alloc, SLICES as usize)?;
    'slices: while columns.len() < SLICES as usize {
        columns.push(Column::new(alloc))?;
    }
    Ok(columns)
}

// Notes the strips of the state of a place in the columns that have that.
fn note(grid: &Grid, columns: &mut [Column], place: usize, state: &State)
    requires slices { length columns.old ≡ SLICES }
    requires written { IsWritten state.now }
    ensures length { SameLength columns.new columns.old }
    ensures noted { (s : ℕ) → s < SLICES → slice_index_or columns.new s []
        ≡ slice_set (slice_index_or columns.old s []) place (narrowed (kept_strips (strips_by_state state.now grid.now s))) }
{
    let mut s = 0;
    'slices: while s < columns.len() {
        note_in(grid, &mut columns[s], s, place, state);
        s += 1;
    }
}

// Notes them in one slice.
fn note_in(grid: &Grid, column: &mut Column, s: usize, place: usize, state: &State)
    requires slice { IsSlice s }
    requires written { IsWritten state.now }
    ensures { column.new ≡ slice_set column.old place (narrowed (kept_strips (strips_by_state state.now grid.now s))) }
{
    if place < column.len() {
        column.set(place, state.cover(grid, s).narrowed());
    }
}

// Gives the strips of the slices before the first one up.
fn forget(alloc: Global, columns: &mut [Column], first: usize)
    ensures length { SameLength columns.new columns.old }
    ensures each { (s : ℕ) → (slice_index_or columns.new s [] ≡ []) ⊎ (slice_index_or columns.new s [] ≡ slice_index_or columns.old s []) }
{
    let end = first.min(columns.len());
    let mut s = 0;
    'slices: while s < end {
        columns[s].clear(alloc);
        s += 1;
    }
}

// Fills the columns of the slices from the first to the last one.
fn fill_from(
    grid: &Grid,
    states: &[State],
    columns: &mut [Column],
    first: usize,
    last: usize,
) -> Result<(), AllocError>
    requires last { IsSlice last }
    requires right { AreColumns grid.now states.now columns.old }
    ensures { AreColumns grid.now states.now columns.new }
{
    let mut s = first;
    'slices: while s <= last {
        columns[s].fill(grid, states, s)?;
        s += 1;
    }
    Ok(())
}

// Marks the places that a column has, where it tells exactly which of them share a strip with these. How many these are.
fn mark_known(column: &Column, marks: &mut [bool], asked: &Cover) -> usize
    ensures known { result ≤ length column.now }
    ensures length { SameLength marks.new marks.old }
    ensures marks { (k : ℕ) (p : Strips) → k < result → narrow_at column.now k ≡ narrowed p
        → fresh_at marks.new k ≡ (fresh_at marks.old k || strips_meet (strips_as asked.now) p) }
    ensures rest { (k : ℕ) → result ≤ k → fresh_at marks.new k ≡ fresh_at marks.old k }
{
    match asked.exact() {
        Some(narrow) => column.mark(marks, narrow),
        None => 0,
    }
}

// Marks the places from one on by their states.
fn mark_rest(
    grid: &Grid,
    states: &[State],
    s: usize,
    from: usize,
    marks: &mut [bool],
    asked: &Cover,
)
    requires slice { IsSlice s }
    requires room { length marks.old ≤ length states.now }
    requires written { AreWritten states.now }
    ensures length { SameLength marks.new marks.old }
    ensures marks { (k : ℕ) → from ≤ k → k < length marks.old → fresh_at marks.new k
        ≡ (fresh_at marks.old k || strips_meet (strips_as asked.now) (strips_at grid.now states.now k s)) }
    ensures before { (k : ℕ) → k < from → fresh_at marks.new k ≡ fresh_at marks.old k }
{
    let mut place = from;
    'places: while place < marks.len() {
        marks[place] = marks[place] | states[place].cover(grid, s).meets(asked);
        place += 1;
    }
}
