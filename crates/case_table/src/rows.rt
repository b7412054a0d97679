//! Tables of words with a code each.

ghost use Rattle.std.specs.Prelude.{◌≡◌, ℕ, List, ◌+◌, ◌<◌, ◌≤◌, ◌↔◌, [], ◌∷◌, ◌++◌, Contains, IsTrue, take, if◌then◌else◌, length, option_copied};
ghost use Rattle.case_table.specs.Rows.{code_of, word_of, has_room_for};

use std::marker::Model;

/// The most bytes of a word of a `Table`.
pub const ROW_WORD_LIMIT: usize = 20;

// A word by its first `len` bytes, with its code. The bytes after the word are 0, so that equal rows
// have equal fields.
#[derive(Clone, Copy)]
struct Row {
    bytes: [u8; ROW_WORD_LIMIT],
    len: usize,
    code: u8,
}

impl Model for Row {
    ghost use Rattle.std.specs.Prelude.{ℕ, List, take, length};
    ghost use Rattle.exact.specs.Padded.{padded, IsPadded};
    ghost use Rattle.exact.proofs.PaddedLemmas.{length-front, padded-front};
    ghost use Rattle.case_table.specs.declared.rows.TheConstants.{ROW_WORD_LIMIT};

    ghost Value = { List ℕ × ℕ };

    ghost view = { λ r. (take r.len r.bytes, r.code) };

    ghost invariant = { λ r. IsPadded 0 ROW_WORD_LIMIT r.bytes r.len };

    ghost inverse = { λ v. record { bytes = padded 0 ROW_WORD_LIMIT v.0; len = length v.0; code = v.1 } };

    ghost inverse_ok = { λ a h i. record {
      bytes = padded-front 0 ROW_WORD_LIMIT a.bytes a.len h i;
      len = length-front 0 ROW_WORD_LIMIT a.bytes a.len h i;
      code = a.code;
    } };
}

impl Row {
    #[inline]
    fn word(&self) -> &[u8]
        ensures { result.now ≡ self.now.0 }
    {
        &self.bytes[..self.len]
    }

    fn of(word: &[u8], code: u8) -> Row
        requires { length word.now ≤ ROW_WORD_LIMIT }
        ensures { result ≡ (word.now, code) }
    {
        let mut bytes = [0; ROW_WORD_LIMIT];
        bytes[..word.len()].copy_from_slice(word);
        Row {
            bytes,
            len: word.len(),
            code,
        }
    }
}

fn code_in(rows: &[Row], word: &[u8]) -> Option<u8>
    ensures { result ≡ code_of rows.now word.now }
{
    rows.iter()
        .find(|row| row.word() == word)
        .map(|row| row.code)
}

fn word_in(rows: &[Row], code: u8) -> Option<&[u8]>
    ensures { option_copied result ≡ word_of rows.now code }
{
    rows.iter()
        .find(|row| row.code == code)
        .map(|row| row.word())
}

/// A table of at most `N` rows, each with a word of at most 20 bytes and a code. No two rows have the
/// same word or the same code. A contract sees the rows in the order in which they were added. It gives the fixed
/// words as data; the program itself asks `reserved_code`.
#[derive(Drop)]
pub struct Table<const N: usize> {
    rows: [Row; N],
    len: usize,
}

impl<const N: usize> Model for Table<N> {
    ghost use Rattle.std.specs.Prelude.{ℕ, List, ◌≤◌, map, take, IsTrue};
    ghost use Rattle.case_table.specs.Rows.{are_distinct_rows};

    ghost Value = { List (List ℕ × ℕ) };

    ghost view = { λ t. take t.len t.rows };

    ghost invariant = { λ t. (t.len ≤ N) × IsTrue (are_distinct_rows (take t.len t.rows)) };
}

impl<const N: usize> Table<N> {
    /// A table with no row.
    pub fn new() -> Self
        ensures { result ≡ [] }
    {
        Table {
            rows: [Row {
                bytes: [0; ROW_WORD_LIMIT],
                len: 0,
                code: 0,
            }; N],
            len: 0,
        }
    }

    /// The code of the row that has this word.
    pub fn code_of(&self, word: &[u8]) -> Option<u8>
        ensures value { result ≡ code_of self.now word.now }
        ensures row { (code : ℕ) → (result ≡ Some code) ↔ Contains self.now (word.now, code) }
    {
        code_in(&self.rows[..self.len], word)
    }

    /// Adds a row. Answers false, and leaves the table as it was, exactly where there are `N` rows, the
    /// word has more than 20 bytes, or a row has this word or this code.
    pub fn add(&mut self, word: &[u8], code: u8) -> bool
        ensures accepted { result ≡ has_room_for N self.old word.now code }
        ensures rows { self.new ≡ (if result then self.old ++ (word.now, code) ∷ [] else self.old) }
    {
        if self.len == N
            || word.len() > ROW_WORD_LIMIT
            || self.code_of(word).is_some()
            || self.word_of(code).is_some()
        {
            return false;
        }
        self.rows[self.len] = Row::of(word, code);
        self.len += 1;
        true
    }

    /// The word of the row that has this code.
    pub fn word_of(&self, code: u8) -> Option<&[u8]>
        ensures value { option_copied result ≡ word_of self.now code }
        ensures row { (word : List ℕ) → (option_copied result ≡ Some word) ↔ Contains self.now (word, code) }
    {
        word_in(&self.rows[..self.len], code)
    }
}
