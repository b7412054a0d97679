//! The six comparisons, and tables that give a truth for each sign of a difference.

ghost use Rattle.std.specs.Prelude.{◌≡◌, ℕ, ℤ, Bool, pos, negsuc, ◌≤ℤ◌, ◌-ℤ◌, ◌==◌, if◌then◌else◌};
ghost use Rattle.std.specs.List.{list_any};
ghost use Rattle.case_table.specs.Comparison.{compares, op_code, sign_holds};
ghost use Rattle.case_table.specs.SignRows.{truth_of, codes_differ, comparison_rows};

use std::marker::Model;

/// A comparison of two numbers, as `left op right`.
#[derive(Clone, Copy, Debug, PartialEq, Eq)]
pub enum Op {
    Lt,
    Le,
    Eq,
    Ne,
    Ge,
    Gt,
}

impl Op {
    /// The place of the comparison in the order of its declaration, from 0 to 5: its code in `comparisons`.
    #[inline]
    pub fn code(self) -> u8
        ensures { result ≡ op_code self }
    {
        self as u8
    }

    /// Whether `left op right` holds where left minus right has this sign: below 0, 0 or above 0.
    #[inline]
    pub fn holds(self, sign: i8) -> bool
        ensures value { result ≡ sign_holds self sign }
        ensures meaning { (x y : ℤ) → x -ℤ y ≡ sign → result ≡ compares self x y }
    {
        match self {
            Op::Lt => sign < 0,
            Op::Le => sign <= 0,
            Op::Eq => sign == 0,
            Op::Ne => sign != 0,
            Op::Ge => sign >= 0,
            Op::Gt => sign > 0,
        }
    }
}

/// A table of codes, no two alike, each with a truth for the signs -1, 0 and 1. A contract sees the
/// rows in their order. It gives the comparisons as data, for who prints or checks a language; the program itself
/// asks `Op::holds`.
#[derive(Clone, Copy, Debug)]
pub struct Signs<const N: usize> {
    rows: [(u8, bool, bool, bool); N],
}

impl<const N: usize> Model for Signs<N> {
    ghost use Rattle.std.specs.Prelude.{ℕ, Bool, List, IsTrue};
    ghost use Rattle.case_table.specs.SignRows.{codes_differ};

    ghost Value = { List (ℕ × Bool × Bool × Bool) };

    ghost view = { λ s. s.rows };

    ghost invariant = { λ s. IsTrue (codes_differ s.rows) };

    ghost inverse = { λ rows. record { rows = rows } };
}

fn has_code(rows: &[(u8, bool, bool, bool)], code: u8) -> bool
    ensures { result ≡ list_any (λ r. r.0 == code) rows.now }
{
    rows.iter().any(|row| row.0 == code)
}

// Whether no two rows have the same code.
fn differ(rows: &[(u8, bool, bool, bool)]) -> bool
    ensures { result ≡ codes_differ rows.now }
{
    let mut rest = rows;
    while let Some((row, later)) = rest.split_first() {
        if has_code(later, row.0) {
            return false;
        }
        rest = later;
    }
    true
}

impl<const N: usize> Signs<N> {
    /// The table of these rows: a code, and its truth at the signs -1, 0 and 1. None exactly where two
    /// rows have the same code.
    pub fn new(rows: [(u8, bool, bool, bool); N]) -> Option<Signs<N>>
        ensures { result ≡ (if codes_differ rows.entry then Some rows.entry else None) }
    {
        if differ(&rows) {
            Some(Signs { rows })
        } else {
            None
        }
    }

    /// The truth of the code at the sign -1, 0 or 1. None exactly where no row has the code.
    pub fn holds(&self, code: u8, sign: i8) -> Option<bool>
        requires least { negsuc 0 ≤ℤ sign }
        requires most { sign ≤ℤ pos 1 }
        ensures { result ≡ truth_of self.now code sign }
    {
        self.rows.iter().find(|row| row.0 == code).map(|row| {
            if sign < 0 {
                row.1
            } else if sign == 0 {
                row.2
            } else {
                row.3
            }
        })
    }
}

/// The truth of the comparisons by the sign of left minus right, each under the code of its `Op`. Tests alone call it.
pub fn comparisons() -> Signs<6>
    ensures rows { result ≡ comparison_rows }
    ensures meaning { (op : Op) (sign : ℤ) → truth_of result (op_code op) sign ≡ Some (sign_holds op sign) }
{
    Signs::new([
        (0, true, false, false),
        (1, true, true, false),
        (2, false, true, false),
        (3, true, false, true),
        (4, false, true, true),
        (5, false, false, true),
    ])
    .unwrap()
}
