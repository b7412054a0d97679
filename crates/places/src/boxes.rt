//! The patches of all objects for one horizon.
ghost use Rattle.std.specs.Prelude.{◌≡◌, ◌+◌, ◌-◌, ◌*◌, ◌^◌, ◌<◌, ◌≤◌, ◌++◌, ◌∷◌, [], length, slice_set, take, IfOk, OnOk, OnErr};
ghost use Rattle.std.specs.Bool.{OnFalse, OnTrue};
ghost use Rattle.places.specs.Boxes.{covers_with, numbers_near, patch_at, AddsFound, AreCovers, AreFound, IsNear, AreCoverable};
ghost use Rattle.places.specs.Patches.{joined};
ghost use Rattle.exact.specs.Lists.{SameLength};

use crate::order::order_from;
use crate::patch::Patch;
use std::alloc::{AllocError, Global};
use std::marker::Model;

/// How many patches have one cover.
pub const BLOCK: usize = 32;

/// How many renewals keep an order of all patches.
const KEPT: u32 = 7;

/// The patches of objects, which have the numbers from 0, and the last tick up to which they tell where those are. There
/// are at most 2^32. Each number has a slot, and each 32 slots have a cover. Slots go by where the patches are, as far as
/// an order of them was made since: so few covers meet a small area.
#[derive(Drop)]
pub struct Boxes {
    upto: u32,
    patches: Vec<Patch>,
    /// The slots of the numbers.
    slots: Vec<u32>,
    /// The numbers by slots.
    numbers: Vec<u32>,
    covers: Vec<Patch>,
    /// How many renewals more keep the order.
    kept: u32,
}

impl Model for Boxes {
    ghost use Rattle.places.specs.Boxes.{Horizon};

    ghost Value = { Horizon };

    ghost view = { λ a. record { upto = a.upto; patches = a.patches.items } };

    ghost use Rattle.places.specs.Boxes.{AreArranged};

    ghost invariant = { λ a. AreArranged a.covers.items a.patches.items a.slots.items a.numbers.items };
}

impl Boxes {
    /// No patches. It takes no memory.
    pub fn new(alloc: Global, upto: u32) -> Boxes
        ensures { result ≡ record { upto = upto; patches = [] } }
    {
        Boxes {
            upto,
            patches: Vec::new(alloc),
            slots: Vec::new(alloc),
            numbers: Vec::new(alloc),
            covers: Vec::new(alloc),
            kept: 0,
        }
    }

    /// The last tick of the horizon.
    #[inline]
    pub fn upto(&self) -> u32
        ensures { result ≡ self.now.upto }
    {
        self.upto
    }

    /// How many patches there are.
    #[inline]
    pub fn len(&self) -> usize
        ensures { result ≡ length self.now.patches }
    {
        self.patches.len()
    }

    /// Appends the patch of the next number, in the next slot.
    pub fn push(&mut self, patch: Patch) -> Result<(), AllocError>
        requires few { length self.old.patches < 2 ^ 32 }
        ensures ok { OnOk result (self.new ≡ record self.old { patches = self.old.patches ++ patch ∷ [] }) }
        ensures err { OnErr result (self.new ≡ self.old) }
    {
        let number = self.patches.len();
        self.patches.reserve(1)?;
        self.slots.reserve(1)?;
        self.numbers.reserve(1)?;
        cover_next(&mut self.covers, number / BLOCK, &patch)?;
        self.patches.push_reserved(patch);
        self.slots.push_reserved(number as u32);
        self.numbers.push_reserved(number as u32);
        Ok(())
    }

    /// Takes the last patch away. It takes no memory.
    pub fn pop(&mut self)
        ensures { self.new ≡ record self.old { patches = take (length self.old.patches - 1) self.old.patches } }
    {
        if self.patches.is_empty() {
            return;
        }
        let last = self.patches.len() - 1;
        let slot = self.slots[last];
        let number = self.numbers[last];
        self.patches.pop();
        self.slots.pop();
        self.numbers.pop();
        // The number in the last slot comes into the one that became free.
        if (number as usize) < last {
            self.slots[number as usize] = slot;
            self.numbers[slot as usize] = number;
            let patch = self.patches[number as usize];
            widen(&mut self.covers, slot as usize / BLOCK, &patch);
        }
    }

    /// Writes the patch of a number in place. It takes no memory.
    pub fn set(&mut self, number: usize, patch: Patch)
        requires { number < length self.old.patches }
        ensures { self.new ≡ record self.old { patches = slice_set self.old.patches number patch } }
    {
        self.patches[number] = patch;
        let block = self.slots[number] as usize / BLOCK;
        widen(&mut self.covers, block, &patch);
    }

    /// The patches tell up to another tick, and the covers are made as small as they can be by the order of the slots,
    /// which is made anew at each eighth renewal. It takes no memory.
    pub fn renew(&mut self, upto: u32)
        ensures { self.new ≡ record self.old { upto = upto } }
    {
        if self.kept == 0 {
            self.kept = KEPT;
            self.arrange(0);
        } else {
            self.kept -= 1;
            self.cover();
        }
        self.upto = upto;
    }

    /// The slots from `start` on go by where their patches are. It takes no memory.
    pub fn arrange(&mut self, start: usize)
        requires { start ≤ length self.old.patches }
        ensures { self.new ≡ self.old }
    {
        order_from(&mut self.numbers, &mut self.slots, &self.patches, start);
        cover_all(&mut self.covers, &self.patches, &self.slots);
    }

    /// The slots are those of other boxes, if these have as many patches. It takes no memory.
    pub fn follow(&mut self, other: &Boxes)
        ensures { self.new ≡ self.old }
    {
        if self.patches.len() == other.patches.len() {
            self.slots.copy_from_slice(&other.slots);
            self.numbers.copy_from_slice(&other.numbers);
            cover_all(&mut self.covers, &self.patches, &self.slots);
        }
    }

    /// The covers are made as small as they can be.
    fn cover(&mut self)
        ensures { self.new ≡ self.old }
    {
        cover_all(&mut self.covers, &self.patches, &self.slots);
    }

    /// Exactly the numbers of the patches that meet an area, ascending.
    pub fn near(&self, alloc: Global, area: &Patch) -> Result<Vec<u32>, AllocError>
        ensures { IfOk result (λ found. found.items ≡ numbers_near self.now.patches area.now) }
    {
        let mut found = found_near(alloc, &self.covers, &self.numbers, &self.patches, area)?;
        found.sort_unstable();
        // No number stands in two slots, but it need not be known here.
        found.dedup();
        Ok(found)
    }
}

/// The numbers of the patches that meet an area, by the covers of the blocks of slots.
fn found_near(
    alloc: Global,
    covers: &[Patch],
    numbers: &[u32],
    patches: &[Patch],
    area: &Patch,
) -> Result<Vec<u32>, AllocError>
    requires blocks { length covers.now ≤ 2 ^ 32 }
    ensures { IfOk result (λ found. AreFound (BLOCK * length covers.now) covers.now numbers.now patches.now area.now found.items) }
{
    let mut found = Vec::new(alloc);
    'walk: for (block, cover) in covers.iter().enumerate() {
        if cover.meets(area) {
            push_near(&mut found, numbers, patches, block * BLOCK, area)?;
        }
    }
    Ok(found)
}

/// Appends the numbers of a block of slots, which begins at `start`, whose patches meet an area.
fn push_near(
    found: &mut Vec<u32>,
    numbers: &[u32],
    patches: &[Patch],
    start: usize,
    area: &Patch,
) -> Result<(), AllocError>
    requires start { start < 2 ^ 40 }
    ensures { OnOk result (AddsFound start (start + BLOCK) numbers.now patches.now area.now found.old.items found.new.items) }
{
    let end = numbers.len().min(start + BLOCK);
    'slots: for slot in start..end {
        let number = numbers[slot];
        if meets_at(patches, number, area) {
            found.push(number)?;
        }
    }
    Ok(())
}

/// Whether the patch of a number is there and meets an area.
#[inline]
fn meets_at(patches: &[Patch], number: u32, area: &Patch) -> bool
    ensures met { OnTrue result (IsNear patches.now area.now number) }
    ensures apart { OnFalse result (IsNear patches.now area.now number → ⊥) }
{
    match patches.get(number as usize) {
        Some(patch) => patch.meets(area),
        None => false,
    }
}

/// The cover of a block has a patch too.
fn widen(covers: &mut Vec<Patch>, block: usize, patch: &Patch)
    requires { block < length covers.old.items }
    ensures { covers.new.items ≡ slice_set covers.old.items block (joined (patch_at covers.old.items block) patch.now) }
{
    covers[block] = covers[block].joined(patch);
}

/// The cover of a block has a patch too, which may be the first of the block.
fn cover_next(covers: &mut Vec<Patch>, block: usize, patch: &Patch) -> Result<(), AllocError>
    ensures ok { OnOk result (covers.new.items ≡ covers_with covers.old.items block patch.now) }
    ensures err { OnErr result (covers.new.items ≡ covers.old.items) }
{
    if block < covers.len() {
        widen(covers, block, patch);
    } else {
        covers.push(*patch)?;
    }
    Ok(())
}

/// Makes covers as small as they can be.
fn cover_all(covers: &mut Vec<Patch>, patches: &[Patch], slots: &[u32])
    requires { AreCoverable patches.now slots.now covers.old.items }
    ensures { AreCovers covers.new.items patches.now slots.now }
{
    clear(covers);
    cover(covers, patches, slots);
}

/// Each cover is nowhere.
fn clear(covers: &mut Vec<Patch>)
    ensures { SameLength covers.new.items covers.old.items }
{
    for cover in covers.iter_mut() {
        *cover = Patch::nowhere();
    }
}

/// Widens the covers by all patches of their blocks.
fn cover(covers: &mut Vec<Patch>, patches: &[Patch], slots: &[u32])
    requires { AreCoverable patches.now slots.now covers.old.items }
    ensures { AreCovers covers.new.items patches.now slots.now }
{
    'numbers: for (number, patch) in patches.iter().enumerate() {
        let block = slots[number] as usize / BLOCK;
        widen(covers, block, patch);
    }
}
