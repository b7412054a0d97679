//! Four horizons of one set of objects.
ghost use Rattle.std.specs.Prelude.{◌≡◌, ◌+◌, ◌-◌, ◌^◌, ◌<◌, ◌≤◌, ◌++◌, ◌∷◌, [], ℕ, length, nat_le, find, take, IfOk, OnOk, OnErr};
ghost use Rattle.std.specs.Option.{option_copied, option_map};
ghost use Rattle.places.specs.Places.{horizon_for, near_in, no_places, popped, pushed, replaced};

use crate::boxes::Boxes;
use crate::patch::Patch;
use std::alloc::{AllocError, Global};

/// How many ticks the horizons have, from the first tick that they tell of.
pub const HORIZONS: [u32; 4] = [256, 1_024, 4_096, 65_536];

/// How many objects that are appended get an order by where they are, apart from those before.
const RUN: usize = 8192;

/// The patches of objects for four horizons, each of which ends at a tick of its own. They tell where objects are from
/// one tick on, and have the same objects.
#[derive(Drop)]
pub struct Places {
    /// The first tick of which they tell.
    pub from: u32,
    pub short: Boxes,
    pub middle: Boxes,
    pub long: Boxes,
    pub longest: Boxes,
}

/// The patches of one object for each horizon.
#[derive(Clone, Copy, Debug)]
pub struct Patches {
    pub short: Patch,
    pub middle: Patch,
    pub long: Patch,
    pub longest: Patch,
}

impl Places {
    /// No objects, from tick 0 on. It takes no memory.
    pub fn new(alloc: Global) -> Places
        ensures { result ≡ no_places }
    {
        Places {
            from: 0,
            short: Boxes::new(alloc, HORIZONS[0]),
            middle: Boxes::new(alloc, HORIZONS[1]),
            long: Boxes::new(alloc, HORIZONS[2]),
            longest: Boxes::new(alloc, HORIZONS[3]),
        }
    }

    /// Appends the patches of the next object. After an error nothing has changed.
    pub fn push(&mut self, patches: &Patches) -> Result<(), AllocError>
        requires short { length self.old.short.patches < 2 ^ 32 }
        requires middle { length self.old.middle.patches < 2 ^ 32 }
        requires long { length self.old.long.patches < 2 ^ 32 }
        requires longest { length self.old.longest.patches < 2 ^ 32 }
        ensures ok { OnOk result (self.new ≡ pushed self.old patches.now) }
        ensures err { OnErr result (self.new ≡ self.old) }
    {
        push_both(
            &mut self.short,
            &mut self.middle,
            patches.short,
            patches.middle,
        )?;
        let result = push_both(
            &mut self.long,
            &mut self.longest,
            patches.long,
            patches.longest,
        );
        match result {
            Ok(()) => self.order_last(),
            Err(_) => {
                self.short.pop();
                self.middle.pop();
            }
        }
        result
    }

    /// Where a run of objects is whole, all horizons take the order of one: a sort takes longer than all else of a push.
    fn order_last(&mut self)
        ensures { self.new ≡ self.old }
    {
        let length = self.middle.len();
        if length % RUN == 0 {
            self.middle.arrange(length.saturating_sub(RUN));
            self.short.follow(&self.middle);
            self.long.follow(&self.middle);
            self.longest.follow(&self.middle);
        }
    }

    /// Writes the patches of an object in place. It takes no memory.
    pub fn set(&mut self, number: usize, patches: &Patches)
        requires short { number < length self.old.short.patches }
        requires middle { number < length self.old.middle.patches }
        requires long { number < length self.old.long.patches }
        requires longest { number < length self.old.longest.patches }
        ensures { self.new ≡ replaced self.old number patches.now }
    {
        self.short.set(number, patches.short);
        self.middle.set(number, patches.middle);
        self.long.set(number, patches.long);
        self.longest.set(number, patches.longest);
    }

    /// Takes the patches of the last object away. It takes no memory.
    pub fn pop(&mut self)
        ensures { self.new ≡ popped self.old }
    {
        self.short.pop();
        self.middle.pop();
        self.long.pop();
        self.longest.pop();
    }

    /// Exactly the numbers of the objects whose patches, for the shortest horizon that has all ticks from `lo` to `hi`,
    /// meet an area, ascending. None exactly where no horizon has them.
    pub fn near(
        &self,
        alloc: Global,
        lo: u32,
        hi: u32,
        area: &Patch,
    ) -> Result<Option<Vec<u32>>, AllocError>
        ensures { IfOk result (λ found. option_map (λ numbers. numbers.items) found ≡ near_in self.now lo hi area.now) }
    {
        if lo < self.from {
            return Ok(None);
        }
        match self.horizon_for(hi) {
            Some(boxes) => {
                let found = boxes.near(alloc, area)?;
                Ok(Some(found))
            }
            None => Ok(None),
        }
    }

    /// The shortest horizon that reaches up to a tick.
    fn horizon_for(&self, hi: u32) -> Option<&Boxes>
        ensures { option_copied result ≡ horizon_for self.now hi }
    {
        if hi <= self.short.upto() {
            Some(&self.short)
        } else if hi <= self.middle.upto() {
            Some(&self.middle)
        } else if hi <= self.long.upto() {
            Some(&self.long)
        } else if hi <= self.longest.upto() {
            Some(&self.longest)
        } else {
            None
        }
    }
}

/// Appends a patch to each of two horizons. After an error nothing has changed.
fn push_both(a: &mut Boxes, b: &mut Boxes, to_a: Patch, to_b: Patch) -> Result<(), AllocError>
    requires few_a { length a.old.patches < 2 ^ 32 }
    requires few_b { length b.old.patches < 2 ^ 32 }
    ensures ok_a { OnOk result (a.new ≡ record a.old { patches = a.old.patches ++ to_a ∷ [] }) }
    ensures ok_b { OnOk result (b.new ≡ record b.old { patches = b.old.patches ++ to_b ∷ [] }) }
    ensures err_a { OnErr result (a.new ≡ a.old) }
    ensures err_b { OnErr result (b.new ≡ b.old) }
{
    a.push(to_a)?;
    let result = b.push(to_b);
    if result.is_err() {
        a.pop();
    }
    result
}
