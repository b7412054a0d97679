//! Laws of numbers and of rows, a small example worked out by hand, and the limit by its number, each a call
//! that does nothing.
ghost use Rattle.std.specs.Prelude.{◌≡◌, ◌<◌, ◌&&◌, ℕ, Bool, true, false, not, List, if◌then◌else◌};
ghost use Rattle.std.specs.Ordering.{nat_cmp};
ghost use Rattle.std.specs.Cmp.Lexicographic.{slice_cmp};
ghost use Rattle.kept_rows.specs.declared.binding.Variable.{Variable};
ghost use Rattle.kept_rows.specs.Exact.{AreFullRows, HaveOneMore};
ghost use Rattle.kept_rows.specs.Example.{HaveNumbers, HaveRows};
ghost use Rattle.kept_rows.specs.Listing.{line_of, lines_upto, passing_of, target_has};
ghost use Rattle.kept_rows.specs.Moves.{move_of};
ghost use Rattle.kept_rows.specs.Numbers.{ArePlaces, counts, holds_written, number_of, places_of, size_of};

use crate::binding::BINDING_LIMIT;

/// The limit, in numbers.
pub fn limits_in_numbers()
    ensures { BINDING_LIMIT ≡ 1000000 }
{}

/// Each number below the size has places below the capacities, and is the number of these.
pub fn numbers_have_places()
    ensures places { (vs : List Variable) (n : ℕ) → n < size_of vs → ArePlaces vs (places_of vs n) }
    ensures number { (vs : List Variable) (n : ℕ) → n < size_of vs → number_of vs (places_of vs n) ≡ n }
{}

/// Places below the capacities have a number below the size, and are the places of it.
pub fn places_have_a_number()
    ensures below { (vs : List Variable) (ps : List ℕ) → ArePlaces vs ps → number_of vs ps < size_of vs }
    ensures places { (vs : List Variable) (ps : List ℕ) → ArePlaces vs ps → places_of vs (number_of vs ps) ≡ ps }
{}

/// Numbers are ordered as the lists of their places: by the first place that differs.
pub fn the_order_is_that_of_bindings()
    ensures { (vs : List Variable) (n m : ℕ) → n < size_of vs → m < size_of vs
        → slice_cmp nat_cmp (places_of vs n) (places_of vs m) ≡ nat_cmp n m }
{}

/// The bindings have numbers below the size.
pub fn bindings_are_below_the_size()
    ensures { (vs : List Variable) (n : ℕ) → counts vs n ≡ true → n < size_of vs }
{}

/// An insert moves no number: the places of each stay, and of the bindings those are new that hold the object.
pub fn an_insert_adds_the_bindings_that_hold_it()
    ensures places { (vs ws : List Variable) (n : ℕ) → HaveOneMore vs ws → places_of ws n ≡ places_of vs n }
    ensures bindings { (vs ws : List Variable) (n : ℕ) → HaveOneMore vs ws → counts vs n ≡ (counts ws n && not (holds_written ws n)) }
{}

/// Rows that are exact stay exact, where the bindings that hold an object are judged anew and the others keep
/// their rows: bindings that don't hold it are the same as before, and full at the same ticks.
pub fn a_refresh_keeps_rows_exact()
    ensures { (rows rows' : ℕ → ℕ → Bool) (counts counts' holds_written : ℕ → Bool) (full full' : ℕ → ℕ → Bool)
        → AreFullRows rows counts full
        → ((c : ℕ) → counts c ≡ true → counts' c ≡ true)
        → ((c : ℕ) → holds_written c ≡ false → counts' c ≡ counts c)
        → ((c t : ℕ) → holds_written c ≡ false → full' c t ≡ full c t)
        → ((c t : ℕ) → rows' c t ≡ (if counts' c && holds_written c then full' c t else rows c t))
        → AreFullRows rows' counts' full' }
{}

/// Rows that are alike are listed alike: so what is listed of exact rows is told by when bindings are full.
pub fn rows_alike_are_listed_alike()
    ensures answer { (p q : ℕ → ℕ → Bool) (width from e n : ℕ) → ((c t : ℕ) → p c t ≡ q c t)
        → lines_upto (line_of (target_has p width) from e) n ≡ lines_upto (line_of (target_has q width) from e) n }
    ensures passed { (p q : ℕ → ℕ → Bool) (width e before now n : ℕ) → ((c t : ℕ) → p c t ≡ q c t)
        → lines_upto (passing_of (target_has p width) e before now) n ≡ lines_upto (passing_of (target_has q width) e before now) n }
    ensures moves { (p p' q q' : ℕ → ℕ → Bool) (width from e now n : ℕ) → ((c t : ℕ) → p c t ≡ q c t) → ((c t : ℕ) → p' c t ≡ q' c t)
        → lines_upto (move_of (target_has p width) (target_has p' width) from e now) n ≡ lines_upto (move_of (target_has q width) (target_has q' width) from e now) n }
{}

/// The numbers of the bindings of two variables, by computing.
pub fn small_bindings_have_numbers()
    ensures { HaveNumbers }
{}

/// The rows of a page, changes of them, and what targets have, by computing.
pub fn small_rows_change()
    ensures { HaveRows }
{}
