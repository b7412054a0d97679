//! Slots of ticks, so that rows which share no tick are told apart without a look at them.
ghost use Rattle.std.specs.Prelude.{◌≡◌, ◌/◌, ◌%◌, ◌==◌, ◌&&◌, ◌||◌, ℕ, false, true};
ghost use Rattle.tick_set.specs.Ticks.{within};
ghost use Rattle.kept_rows.specs.Slots.{has_slot};

use tick_set::Span;

// How many ticks one after the other share a slot.
const SLOT: u32 = 64;

// How many slots there are. After the last one comes the first again.
const SLOTS: u32 = 64;

/// Some of 64 slots of ticks.
#[derive(Clone, Copy)]
pub struct Slots {
    // A bit for each.
    bits: u64,
}

impl Slots {
    /// None of them.
    #[inline]
    pub(crate) fn none() -> Slots
        ensures { (t : ℕ) → has_slot result t ≡ false }
    {
        Slots { bits: 0 }
    }

    /// All of them.
    #[inline]
    pub(crate) fn all() -> Slots
        ensures { (t : ℕ) → has_slot result t ≡ true }
    {
        Slots { bits: u64::MAX }
    }

    /// That of a tick.
    #[inline]
    pub(crate) fn of_tick(tick: u32) -> Slots
        ensures { has_slot result tick ≡ true }
    {
        Slots::none().with_slot(tick / SLOT)
    }

    // These, and one by its number from tick 0 on.
    #[inline]
    fn with_slot(self, slot: u32) -> Slots
        ensures { (t : ℕ) → has_slot result t ≡ (has_slot self t || (t / 64 % 64 == slot % 64)) }
    {
        Slots {
            bits: self.bits | 1 << (slot % SLOTS),
        }
    }

    /// These, and those of the ticks of a span.
    pub(crate) fn with_span(self, s: Span) -> Slots
        ensures { (t : ℕ) → (has_slot self t || within s.lo s.hi t) ≡ true → has_slot result t ≡ true }
    {
        let first = s.lo / SLOT;
        let last = s.hi / SLOT;
        if last - first >= SLOTS {
            return Slots::all();
        }
        let mut slots = self;
        let mut slot = first;
        'slots: while slot <= last {
            slots = slots.with_slot(slot);
            slot += 1;
        }
        slots
    }

    /// These and those of others.
    #[inline]
    pub(crate) fn or(self, other: Slots) -> Slots
        ensures { (t : ℕ) → has_slot result t ≡ (has_slot self t || has_slot other t) }
    {
        Slots {
            bits: self.bits | other.bits,
        }
    }

    /// Whether one of them is one of others.
    #[inline]
    pub(crate) fn meet(self, other: Slots) -> bool
        ensures { result ≡ false → (t : ℕ) → (has_slot self t && has_slot other t) ≡ false }
    {
        self.bits & other.bits != 0
    }
}
