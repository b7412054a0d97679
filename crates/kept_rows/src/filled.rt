//! Which numbers may have a row.
ghost use Rattle.std.specs.Prelude.{◌≡◌, ◌<◌, ◌≤◌, ◌^◌, ◌==◌, ◌/◌, ℕ, Bool, true, false, not, slice_index_or, if◌then◌else◌};
ghost use Rattle.kept_rows.specs.Filled.{AreFilled, HaveNoneIn};
ghost use Rattle.exact.specs.Lists.{SameLength};

use std::alloc::{AllocError, Global};

// How many numbers share a group.
const GROUP: usize = 1024;

/// Which groups of numbers of a table may have a row with ticks, so that those without are passed over.
#[derive(Drop)]
pub(crate) struct Filled {
    groups: Vec<bool>,
}

impl Filled {
    /// For so many numbers without ticks.
    pub(crate) fn new(alloc: Global, numbers: usize) -> Result<Filled, AllocError> {
        let groups = vec![in alloc; false; numbers / GROUP + 1]?;
        Ok(Filled { groups })
    }

    /// The number, or a later one before which there are no ticks.
    pub(crate) fn past_none(&self, from: usize, to: u32) -> usize
        requires small { from ≤ 2 ^ 33 }
        ensures least { from ≤ result }
        ensures most { result ≤ 2 ^ 33 }
        ensures none { HaveNoneIn self.now from result }
    {
        let mut number = from;
        'groups: while number < to as usize {
            if !is_unset(&self.groups, number / GROUP) {
                return number;
            }
            number = (number / GROUP + 1) * GROUP;
        }
        number
    }

    /// Notes that the row of a number is written, and whether it has ticks.
    pub(crate) fn note(&mut self, number: usize, has_ticks: bool)
        ensures { (rows : ℕ → ℕ → Bool) (ticks : ℕ → Bool) → AreFilled rows self.old
            → (has_ticks ≡ false → (t : ℕ) → ticks t ≡ false)
            → AreFilled (λ c t. if c == number then ticks t else rows c t) self.new }
    {
        if has_ticks {
            set_at(&mut self.groups, number / GROUP);
        }
    }
}

// Whether a place isn't set; nothing is known past the last.
#[inline]
fn is_unset(flags: &[bool], at: usize) -> bool
    ensures { result ≡ not (slice_index_or flags.now at true) }
{
    match flags.get(at) {
        Some(flag) => !*flag,
        None => false,
    }
}

// Sets a place, if it is there.
fn set_at(flags: &mut [bool], at: usize)
    ensures len { SameLength flags.new flags.old }
    ensures here { slice_index_or flags.new at true ≡ true }
    ensures others { (i : ℕ) → slice_index_or flags.new i true ≡ false → (i == at) ≡ false → slice_index_or flags.old i true ≡ false }
{
    if at < flags.len() {
        flags[at] = true;
    }
}
