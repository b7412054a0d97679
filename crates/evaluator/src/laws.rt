//! What holds of rows for all inputs.
ghost use Rattle.std.specs.Prelude.{◌≡◌, ℕ, Bool, List};
ghost use Rattle.tick_set.specs.TickList.{has as has_tick};
ghost use Rattle.tick_set.specs.Runs.{IsRuns, pairs, spans_have};
ghost use Rattle.tick_set.specs.declared.spans.Span.{Span};
ghost use Rattle.relation.specs.Frames.{IsIn};
ghost use Rattle.relation.specs.Rows.{Table, table_has};
ghost use Rattle.evaluator.specs.Rows.{AreRowsWhere};

/// Both kinds of sets give the same runs: where rows over lists of ticks and rows over runs are those of one test, over
/// the same domains and in the same window, each assignment of objects has the same runs in both. So the rows of a query
/// are the same, whichever set they are worked out with.
pub fn both_kinds_of_sets_have_the_same_runs()
    ensures { (domains : List (List ℕ)) (lo hi : ℕ) (variables : List ℕ) (holds : (ℕ → ℕ) → ℕ → Bool)
        (listed : Table (List ℕ)) (spanned : Table (List Span))
        → AreRowsWhere has_tick domains lo hi variables holds listed
        → AreRowsWhere spans_have domains lo hi variables holds spanned
        → (b : ℕ → ℕ) → IsIn domains b → (runs others : List Span)
        → IsRuns (table_has has_tick listed b) runs → IsRuns (table_has spans_have spanned b) others
        → pairs runs ≡ pairs others }
{}
