//! The numbers of patches in the order of where those are.
ghost use Rattle.std.specs.Prelude.{◌^◌, ◌≤◌, length, IsPermutation};
ghost use Rattle.places.specs.Boxes.{AreSlots, AreSlotsBut};
ghost use Rattle.exact.specs.Lists.{SameLength};

use crate::patch::{Extent, Patch};
use std::cmp::Ordering;

/// Twice the middle of a patch on each axis, from 0 on.
#[derive(Clone, Copy)]
struct Middle {
    x: u64,
    y: u64,
}

/// Sorts the numbers in the slots from `start` on by where their patches are. It takes no memory.
pub fn order_from(numbers: &mut Vec<u32>, slots: &mut Vec<u32>, patches: &[Patch], start: usize)
    requires few { length slots.old.items ≤ 2 ^ 32 }
    requires start { start ≤ length slots.old.items }
    requires slots { AreSlots slots.old.items numbers.old.items }
    ensures long { SameLength slots.new.items slots.old.items }
    ensures slots { AreSlots slots.new.items numbers.new.items }
{
    sort_by_place(&mut numbers[start..], patches);
    renumber(slots, numbers, start);
}

/// Writes the slots of the numbers that stand in those from `start` on.
fn renumber(slots: &mut Vec<u32>, numbers: &[u32], start: usize)
    requires few { length slots.old.items ≤ 2 ^ 32 }
    requires slots { AreSlotsBut start slots.old.items numbers.now }
    ensures long { SameLength slots.new.items slots.old.items }
    ensures slots { AreSlots slots.new.items numbers.now }
{
    'slots: for slot in start..numbers.len() {
        let number = numbers[slot] as usize;
        if number < slots.len() {
            slots[number] = slot as u32;
        }
    }
}

/// Sorts numbers by where their patches are.
fn sort_by_place(numbers: &mut [u32], patches: &[Patch])
    ensures long { SameLength numbers.new numbers.old }
    ensures same { IsPermutation numbers.old numbers.new }
{
    numbers.sort_unstable_by(|a, b| by_place(middle_of(patches, *a), middle_of(patches, *b)));
}

/// Compares along a curve on which what is near each other mostly is so in the plane: by the bits of x and y in turn,
/// the highest first.
fn by_place(a: Middle, b: Middle) -> Ordering {
    let x = a.x ^ b.x;
    let y = a.y ^ b.y;
    if x < y && x < (x ^ y) {
        a.y.cmp(&b.y)
    } else {
        a.x.cmp(&b.x)
    }
}

/// The middle of the patch of a number.
fn middle_of(patches: &[Patch], number: u32) -> Middle {
    match patches.get(number as usize) {
        Some(patch) => Middle {
            x: twice_middle(&patch.x),
            y: twice_middle(&patch.y),
        },
        None => Middle { x: 0, y: 0 },
    }
}

/// Twice the middle of an extent, from 0 on.
fn twice_middle(extent: &Extent) -> u64 {
    (i64::from(extent.least) + i64::from(extent.greatest) + (1 << 32)) as u64
}
