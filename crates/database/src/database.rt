//! What a journal tells, kept so that it is found quickly.
ghost use Rattle.std.specs.Prelude.{◌≡◌, []};
ghost use Rattle.database.specs.Keeping.{clock_of, Keeps};

use object_store::{Schema, Store};
use polygon::Regions;
use std::alloc::Global;

/// The objects, the regions and the clock. A contract sees what they tell, all that a query may ask of, and
/// the clock.
#[derive(Drop)]
pub struct Database {
    pub(crate) store: Store,
    pub(crate) regions: Regions,
    // Ticks since the beginning.
    pub(crate) clock: u32,
}

impl Database {
    /// A database without classes and regions, whose clock is at 0. It takes no memory.
    pub fn new(alloc: Global) -> Database
        ensures { Keeps [] result }
    {
        Database {
            store: Store::new(alloc),
            regions: Regions::new(alloc),
            clock: 0,
        }
    }

    /// The objects.
    #[inline]
    pub fn store(&self) -> &Store
        ensures { result.now ≡ self.now.store }
    {
        &self.store
    }

    /// The classes.
    #[inline]
    pub fn schema(&self) -> &Schema
        ensures { result.now ≡ self.now.store.classes }
    {
        self.store.schema()
    }

    /// The regions.
    #[inline]
    pub fn regions(&self) -> &Regions
        ensures { result.now ≡ self.now.regions }
    {
        &self.regions
    }

    /// The clock, in ticks since the beginning: at most 10^9.
    #[inline]
    pub fn clock(&self) -> u32
        ensures { result ≡ clock_of self.now }
    {
        self.clock
    }

    /// A query comes next: what is kept of where objects can be is made anew where it ends soon after the clock's tick.
    /// It takes no memory and no step, and nothing that can be seen changes.
    pub fn prepare_for_query(&mut self)
        ensures { self.new ≡ self.old }
    {
        self.store.stands_at(self.clock);
    }
}
