//! Laws of ticks, of runs and of the temporal operators, each a call without a body whose contract is the law.
ghost use Rattle.std.specs.Prelude.{◌≡◌, ◌↔◌, ◌≤◌, ◌+◌, min, ℕ, Bool, true, not, ◌&&◌, List, IsTrue};
ghost use Rattle.tick_set.specs.Operators.{Leads, always_at, always_for_at, eventually_after_at, eventually_at, eventually_within_at, next_at, until_after_at, until_at, until_in, until_within_at};
ghost use Rattle.tick_set.specs.Runs.{IsRuns, pairs, runs_of};
ghost use Rattle.tick_set.specs.TickList.{has};
ghost use Rattle.tick_set.specs.Ticks.{AgreeIn, all_in, listed, some_in, within};
ghost use Rattle.tick_set.specs.declared.spans.Span.{Span};

use crate::{LAST_TICK, SPAN_LIMIT};

/// The last tick and the most ticks of a window, as numbers.
pub fn limits_in_numbers()
    ensures { (LAST_TICK ≡ 1000000000) × (SPAN_LIMIT ≡ 100000000) }
{}

/// Some tick of `lo` to `hi` passes a test exactly where there is such a tick.
pub fn some_in_says_that_there_is_a_tick()
    ensures { (test : ℕ → Bool) (lo hi : ℕ) → IsTrue (some_in test lo hi)
        ↔ ((t : ℕ) × (lo ≤ t) × (t ≤ hi) × (test t ≡ true)) }
{}

/// All ticks of `lo` to `hi` pass a test exactly where each of them does.
pub fn all_in_says_that_each_tick_passes()
    ensures { (test : ℕ → Bool) (lo hi : ℕ) → IsTrue (all_in test lo hi)
        ↔ ((t : ℕ) → lo ≤ t → t ≤ hi → test t ≡ true) }
{}

/// The ticks that are listed are those of `lo` to `hi` that pass the test.
pub fn listed_ticks_are_those_that_pass()
    ensures { (test : ℕ → Bool) (lo hi t : ℕ)
        → has (listed test lo hi) t ≡ (within lo hi t && test t) }
{}

/// The runs of a set are the maximal runs of the ascending list of its ticks, so there is one list of them.
pub fn runs_are_those_of_the_list()
    ensures all { (member : ℕ → Bool) (spans : List Span) → IsRuns member spans
        → pairs spans ≡ runs_of (listed member 0 LAST_TICK) }

    // A set that lies within lo to hi has the runs of what passes there.
    ensures within { (member test : ℕ → Bool) (lo hi : ℕ) (spans : List Span) → IsRuns member spans
        → ((t : ℕ) → member t ≡ (within lo hi t && test t))
        → pairs spans ≡ runs_of (listed test lo hi) }
{}

/// Sets with the same ticks have the same runs.
pub fn same_ticks_have_the_same_runs()
    ensures { (p q : ℕ → Bool) (xs ys : List Span) → IsRuns p xs → IsRuns q ys
        → ((t : ℕ) → p t ≡ q t) → pairs xs ≡ pairs ys }
{}

/// UNTIL holds exactly where there is a tick at which its goal holds and up to which its guard does.
pub fn until_holds_where_a_goal_is_led_to()
    ensures { (g h : ℕ → Bool) (lo hi t : ℕ)
        → IsTrue (until_in g h lo hi t) ↔ Leads g h lo hi t }
{}

/// EVENTUALLY is UNTIL with a guard that holds at each tick, and ALWAYS is what doesn't fail eventually.
pub fn derived_operators_are_derived()
    ensures eventually { (g : ℕ → Bool) (e t : ℕ)
        → eventually_at g e t ≡ until_at (λ _. true) g e t }
    ensures eventually_within { (c : ℕ) (g : ℕ → Bool) (e t : ℕ)
        → eventually_within_at c g e t ≡ until_within_at c (λ _. true) g e t }
    ensures eventually_after { (c : ℕ) (g : ℕ → Bool) (e t : ℕ)
        → eventually_after_at c g e t ≡ until_after_at c (λ _. true) g e t }
    ensures always { (g : ℕ → Bool) (e t : ℕ)
        → always_at g e t ≡ not (eventually_at (λ u. not (g u)) e t) }
    ensures always_for { (c : ℕ) (g : ℕ → Bool) (e t : ℕ)
        → always_for_at c g e t ≡ not (eventually_within_at c (λ u. not (g u)) e t) }
{}

/// At a tick t an operator sees its parts from t to the last tick e that counts, and nowhere else.
pub fn operators_see_the_ticks_ahead_alone()
    ensures next { (g g' : ℕ → Bool) (e t : ℕ) → AgreeIn t e g g'
        → next_at g e t ≡ next_at g' e t }
    ensures until { (g g' h h' : ℕ → Bool) (e t : ℕ) → AgreeIn t e g g' → AgreeIn t e h h'
        → until_at g h e t ≡ until_at g' h' e t }
    ensures until_within { (c : ℕ) (g g' h h' : ℕ → Bool) (e t : ℕ) → AgreeIn t e g g' → AgreeIn t e h h'
        → until_within_at c g h e t ≡ until_within_at c g' h' e t }
    ensures until_after { (c : ℕ) (g g' h h' : ℕ → Bool) (e t : ℕ) → AgreeIn t e g g' → AgreeIn t e h h'
        → until_after_at c g h e t ≡ until_after_at c g' h' e t }
    ensures eventually { (g g' : ℕ → Bool) (e t : ℕ) → AgreeIn t e g g'
        → eventually_at g e t ≡ eventually_at g' e t }
    ensures eventually_within { (c : ℕ) (g g' : ℕ → Bool) (e t : ℕ) → AgreeIn t e g g'
        → eventually_within_at c g e t ≡ eventually_within_at c g' e t }
    ensures eventually_after { (c : ℕ) (g g' : ℕ → Bool) (e t : ℕ) → AgreeIn t e g g'
        → eventually_after_at c g e t ≡ eventually_after_at c g' e t }
    ensures always { (g g' : ℕ → Bool) (e t : ℕ) → AgreeIn t e g g'
        → always_at g e t ≡ always_at g' e t }
    ensures always_for { (c : ℕ) (g g' : ℕ → Bool) (e t : ℕ) → AgreeIn t e g g'
        → always_for_at c g e t ≡ always_for_at c g' e t }
{}

/// At a tick t an operator of a bounded form sees its parts up to so many ticks ahead, if no more than the last
/// tick e that counts, and nowhere else.
pub fn bounded_operators_see_so_far_ahead_alone()
    ensures next { (g g' : ℕ → Bool) (e t : ℕ) → AgreeIn t (min (t + 1) e) g g'
        → next_at g e t ≡ next_at g' e t }
    ensures until_within { (c : ℕ) (g g' h h' : ℕ → Bool) (e t : ℕ)
        → AgreeIn t (min (t + c) e) g g' → AgreeIn t (min (t + c) e) h h'
        → until_within_at c g h e t ≡ until_within_at c g' h' e t }
    ensures eventually_within { (c : ℕ) (g g' : ℕ → Bool) (e t : ℕ) → AgreeIn t (min (t + c) e) g g'
        → eventually_within_at c g e t ≡ eventually_within_at c g' e t }
    ensures always_for { (c : ℕ) (g g' : ℕ → Bool) (e t : ℕ) → AgreeIn t (min (t + c) e) g g'
        → always_for_at c g e t ≡ always_for_at c g' e t }
{}
