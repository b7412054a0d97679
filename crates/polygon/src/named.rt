//! Polygons by name.
ghost use Rattle.std.specs.Prelude.{◌≡◌, ◌+◌, ◌-◌, ◌<◌, ◌≤◌, ◌++◌, ◌∷◌, [], None, Some, length, slice_get, take, IfSome, OnOk, OnErr};
ghost use Rattle.std.specs.Option.{option_copied, option_map};
ghost use Rattle.geometry.specs.Region.{region_number};

use crate::shape::Polygon;
use fixed_point::Word;
use indexmap::IndexMap;
use std::alloc::{AllocError, Global};
use std::marker::Model;

/// The most regions that there may be.
pub const REGION_LIMIT: u32 = 1024;

/// Regions: polygons with names, numbered from 0 in the order in which they were added. No two have one name.
#[derive(Drop)]
pub struct Regions {
    polygons: IndexMap<Word, Polygon>,
}

impl Model for Regions {
    ghost use Rattle.std.specs.Prelude.{List};
    ghost use Rattle.geometry.specs.Region.{Region};
    ghost use Rattle.polygon.specs.Named.{named_regions, IsNamed};

    ghost Value = { List Region };

    ghost view = { λ a. named_regions a.polygons.entries };

    ghost invariant = { λ a. IsNamed a.polygons.entries };
}

impl Regions {
    /// No regions. It takes no memory.
    pub fn new(alloc: Global) -> Regions
        ensures { result ≡ [] }
    {
        Regions {
            polygons: IndexMap::new(alloc),
        }
    }

    /// Adds a region of a new name, where there are fewer than [`REGION_LIMIT`]. After an error nothing has
    /// changed.
    pub fn add(&mut self, name: Word, p: Polygon) -> Result<(), AllocError>
        requires new { region_number self.old name ≡ None }
        requires room { length self.old < REGION_LIMIT }
        ensures ok { OnOk result (self.new ≡ self.old ++ record { name = name; points = p } ∷ []) }
        ensures err { OnErr result (self.new ≡ self.old) }
    {
        self.polygons.insert(name, p)?;
        Ok(())
    }

    /// Takes the last region away again. It takes no memory.
    pub fn remove_last(&mut self)
        requires { 0 < length self.old }
        ensures { self.new ≡ take (length self.old - 1) self.old }
    {
        self.polygons.truncate(self.polygons.len() - 1);
    }

    /// The number of the region of that name. None exactly where there is none.
    pub fn number_of(&self, name: &Word) -> Option<u32>
        ensures number { result ≡ region_number self.now name.now }
        ensures in_range { IfSome result (λ n. n < length self.now) }
    {
        let place = self.polygons.get_index_of(name)?;
        Some(place as u32)
    }

    /// The region of that number. None exactly where the number is not below [`count`](Regions::count).
    pub fn get(&self, n: u32) -> Option<&Polygon>
        ensures { option_copied result ≡ option_map (λ r. r.points) (slice_get self.now n) }
    {
        let (_, polygon) = self.polygons.get_index(n as usize)?;
        Some(polygon)
    }

    /// The name of the region of that number. None exactly where the number is not below
    /// [`count`](Regions::count).
    pub fn name_of(&self, n: u32) -> Option<&Word>
        ensures name { option_copied result ≡ option_map (λ r. r.name) (slice_get self.now n) }

        // No other region has the name.
        ensures own { IfSome result (λ name. region_number self.now name.now ≡ Some n) }
    {
        let (name, _) = self.polygons.get_index(n as usize)?;
        Some(name)
    }

    /// The number of regions.
    pub fn count(&self) -> u32
        ensures count { result ≡ length self.now }
        ensures in_range { result ≤ REGION_LIMIT }
    {
        self.polygons.len() as u32
    }
}
