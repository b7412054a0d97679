//! Which numbers have ticks.
ghost use Rattle.std.specs.Prelude.{◌≡◌, ◌<◌, ◌==◌, ◌/◌, ℕ, Bool, false, not, slice_get, if◌then◌else◌};
ghost use Rattle.std.specs.Int.{bit_at};
ghost use Rattle.std.specs.Option.{option_copied};
ghost use Rattle.kept_rows.specs.Flags.{AreFlagged, is_flagged};

use std::alloc::{AllocError, Global};

// How many numbers share a word.
const WORD: u32 = 64;

/// Which numbers of a table may have ticks, a bit for each, so that it is told without a look at their rows.
#[derive(Drop)]
pub(crate) struct Flags {
    words: Vec<u64>,
}

impl Flags {
    /// For so many numbers without ticks.
    pub(crate) fn new(alloc: Global, numbers: usize) -> Result<Flags, AllocError> {
        let words = vec![in alloc; 0; numbers / WORD as usize + 1]?;
        Ok(Flags { words })
    }

    /// Whether a number has no ticks.
    #[inline]
    pub(crate) fn is_unset(&self, number: u32) -> bool
        ensures { result ≡ not (is_flagged self.now.words.items number) }
    {
        match word_of(&self.words, number) {
            Some(word) => (*word >> (number % WORD)) & 1 == 0,
            None => false,
        }
    }

    /// Notes that the row of a number is written, and whether it has ticks.
    #[inline]
    pub(crate) fn note(&mut self, number: u32, has_ticks: bool)
        ensures { (rows : ℕ → ℕ → Bool) (ticks : ℕ → Bool) → AreFlagged rows self.old
            → (has_ticks ≡ false → (t : ℕ) → ticks t ≡ false)
            → AreFlagged (λ c t. if c == number then ticks t else rows c t) self.new }
    {
        let at = (number / WORD) as usize;
        if at < self.words.len() {
            let word = with_bit(self.words[at], number % WORD, has_ticks);
            self.words[at] = word;
        }
    }
}

// The word of a number, if there is one.
#[inline]
fn word_of(words: &[u64], number: u32) -> Option<&u64>
    ensures { option_copied result ≡ slice_get words.now (number / 64) }
{
    words.get((number / WORD) as usize)
}

// A word with the bit of a place, or without it.
#[inline]
fn with_bit(word: u64, at: u32, is_set: bool) -> u64
    requires { at < 64 }
    ensures { (i : ℕ) → i < 64 → (bit_at result i == 1) ≡ (if i == at then is_set else bit_at word i == 1) }
{
    if is_set {
        word | 1 << at
    } else {
        word & !(1 << at)
    }
}
