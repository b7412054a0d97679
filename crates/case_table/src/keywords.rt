//! The reserved words by their first byte, for a look-up that needs no table.

ghost use Rattle.std.specs.Prelude.{◌≡◌, ℕ, List, ◌==◌, map, filter, find, option_map, bytes_eq, slice_index};
ghost use Rattle.case_table.specs.Rows.{code_of};
ghost use Rattle.case_table.specs.Language.{reserved_words};

fn among(word: &[u8], rows: &[(&[u8], u8)]) -> Option<u8>
    ensures { result ≡ option_map (λ r. r.1) (find (λ r. bytes_eq r.0.now word.now) rows.now) }
{
    rows.iter().find(|row| row.0 == word).map(|row| row.1)
}

// The rows of the reserved words that begin with this byte.
#[tactic(auto, unfolding(crate::specs::Language::reserved_words))]
fn beginning_with(first: u8) -> &'static [(&'static [u8], u8)]
    ensures { map (λ r. (r.0.now, r.1)) result.now ≡ filter (λ r. slice_index r.0 0 == first) reserved_words }
{
    match first {
        b'A' => &[(b"AND", 6), (b"ALWAYS", 15), (b"ALWAYS_FOR", 16)],
        b'D' => &[(b"DIST", 19)],
        b'E' => &[
            (b"EVENTUALLY", 12),
            (b"EVENTUALLY_WITHIN", 13),
            (b"EVENTUALLY_AFTER", 14),
        ],
        b'F' => &[(b"FROM", 1), (b"FALSE", 4)],
        b'I' => &[(b"INSIDE", 17)],
        b'N' => &[(b"NOT", 5), (b"NEXTTIME", 11)],
        b'O' => &[(b"OR", 7), (b"OUTSIDE", 18)],
        b'R' => &[(b"RETRIEVE", 0)],
        b'T' => &[(b"TRUE", 3), (b"TIME", 21)],
        b'U' => &[(b"UNTIL", 8), (b"UNTIL_WITHIN", 9), (b"UNTIL_AFTER", 10)],
        b'W' => &[(b"WHERE", 2), (b"WITHIN_SPHERE", 20)],
        b'a' => &[(b"ask", 31), (b"at", 45)],
        b'c' => &[(b"class", 25)],
        b'd' => &[(b"drop", 35), (b"dyn", 44)],
        b'e' => &[(b"export", 39)],
        b'f' => &[(b"function", 24)],
        b'i' => &[(b"insert", 27), (b"import", 38)],
        b'k' => &[(b"keep", 33)],
        b'l' => &[(b"list", 36)],
        b'm' => &[(b"move", 46)],
        b'n' => &[(b"num", 42)],
        b'p' => &[(b"point", 41)],
        b'q' => &[(b"quit", 40)],
        b'r' => &[(b"region", 26), (b"remove", 29), (b"rate", 47)],
        b's' => &[(b"show", 34), (b"save", 37)],
        b't' => &[(b"tick", 30), (b"text", 43)],
        b'u' => &[(b"updatetime", 23), (b"update", 28)],
        b'v' => &[(b"value", 22)],
        b'w' => &[(b"watch", 32)],
        _ => &[],
    }
}

/// The code of a reserved word, and None where the word isn't reserved: what `words().code_of(word)`
/// answers, without building the table.
pub fn reserved_code(word: &[u8]) -> Option<u8>
    ensures { result ≡ code_of reserved_words word.now }
{
    match word {
        [first, ..] => among(word, beginning_with(*first)),
        [] => None,
    }
}
