//! Names and texts.
ghost use Rattle.std.specs.Prelude.{◌≡◌, ◌≤◌, ◌∷◌, [], length, nat_eq, SomeIff};
ghost use Rattle.std.specs.Str.{bytes_eq};
ghost use Rattle.std.specs.Cmp.{on_equiv, on_per, partial_equiv_from_equiv};
ghost use Rattle.std.specs.Cmp.Lexicographic.{bytes_decides, nat_list_eq_equiv};
ghost use Rattle.std.proofs.Common.{ap};

use std::hash::{Hash, Hasher};
use std::marker::Model;

/// The most bytes of a `Word`.
pub const WORD_LIMIT: usize = 32;

/// A name or a text of at most 32 bytes, which lie in the value itself. A contract sees it as the list
/// of its bytes, and two words are equal exactly where these lists are.
#[derive(Clone, Copy, Debug)]
pub struct Word {
    // Those past the length are 0, so that a word has one form alone.
    bytes: [u8; WORD_LIMIT],
    len: u8,
}

impl Model for Word {
    ghost use Rattle.std.specs.Prelude.{List, ℕ, length, take};
    ghost use Rattle.exact.specs.Padded.{IsPadded, padded};
    ghost use Rattle.exact.proofs.PaddedLemmas.{length-front, padded-front};
    ghost use Rattle.fixed_point.specs.declared.short_text.TheConstants.{WORD_LIMIT};

    ghost Value = { List ℕ };

    ghost view = { λ a. take a.len a.bytes };

    ghost invariant = { λ a. IsPadded 0 WORD_LIMIT a.bytes a.len };

    ghost inverse = { λ text. record { bytes = padded 0 WORD_LIMIT text; len = length text } };

    ghost inverse_ok = { λ a h i. record { bytes = padded-front 0 WORD_LIMIT a.bytes a.len h i; len = length-front 0 WORD_LIMIT a.bytes a.len h i } };
}

impl Word {
    /// The word of these bytes. None exactly where there are more than 32.
    pub fn of(bytes: &[u8]) -> Option<Word>
        ensures { SomeIff result (length bytes.now ≤ WORD_LIMIT) bytes.now }
    {
        let len = bytes.len();
        if len > WORD_LIMIT {
            return None;
        }
        let mut padded = [0; WORD_LIMIT];
        padded[..len].copy_from_slice(bytes);
        Some(Word {
            bytes: padded,
            len: len as u8,
        })
    }

    /// The bytes.
    #[inline]
    pub fn bytes(&self) -> &[u8]
        ensures value { result.now ≡ self.now }
        ensures short { length self.now ≤ WORD_LIMIT }
    {
        &self.bytes[..self.len as usize]
    }
}

impl PartialEq for Word {
    ghost eq = { bytes_eq };

    ghost laws = { partial_equiv_from_equiv nat_list_eq_equiv };

    #[inline]
    fn eq(&self, other: &Self) -> bool {
        self.bytes() == other.bytes()
    }
}

impl Eq for Word {
    ghost laws = { nat_list_eq_equiv };
}

impl Hash for Word {
    ghost hash_input = { λ text. text ∷ [] };

    ghost respects_eq = { λ a b h. ap (λ text. text ∷ []) ((bytes_decides a b).0 h) };

    #[inline]
    fn hash<H: Hasher>(&self, state: &mut H) {
        state.write(self.bytes());
    }
}
