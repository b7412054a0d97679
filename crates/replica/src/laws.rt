//! Laws of a copy, as calls without a body.
ghost use Rattle.std.specs.Prelude.{◌≡◌, ◌≢◌, ℕ, true, List};
ghost use Rattle.std.specs.List.{position_from};
ghost use Rattle.tick_set.specs.SetOperation.{kept};
ghost use Rattle.tick_set.specs.declared.operation.SetOperation.{SetOperation};
ghost use Rattle.replica.specs.Copied.{HasRowsInOrder};
ghost use Rattle.replica.specs.Feed.{hearing_after, is_broken, silent};
ghost use Rattle.replica.specs.Line.{told_by_line};
ghost use Rattle.replica.specs.Rows.{TargetRow, rows_after_told, ticks_at};
ghost use Rattle.replica.specs.Printed.{ReadsPrintedLines};
ghost use Rattle.replica.specs.Text.{is_free_name};
ghost use Rattle.replica.specs.Ticks.{combined, have};

/// At each tick a change keeps what its operation keeps there, and nothing else.
pub fn changes_are_made_tick_by_tick()
    ensures { (operation : SetOperation) (old told : List (ℕ × ℕ)) (t : ℕ)
        → have (combined operation old told) t ≡ kept operation (have old t) (have told t) }
{}

/// A change makes the row of its target, and leaves those of all others.
pub fn a_change_makes_one_row()
    ensures made { (operation : SetOperation) (told : TargetRow) (rows : List TargetRow)
        → ticks_at told.0 (rows_after_told operation told rows) ≡ combined operation (ticks_at told.0 rows) told.1 }
    ensures others { (operation : SetOperation) (told : TargetRow) (rows : List TargetRow) (target : List ℕ)
        → target ≢ told.0 → ticks_at target (rows_after_told operation told rows) ≡ ticks_at target rows }
{}

/// Whatever lines were heard, the rows stand in the order of the bytes of their targets.
pub fn rows_stand_in_the_order_of_bytes()
    ensures { (name : List ℕ) (lines : List (List ℕ)) → HasRowsInOrder (hearing_after (silent name) lines).copy }
{}

/// A feed is bad by the first of its lines that hasn't its form, and is told by the number of that line from 1.
pub fn a_feed_is_bad_by_its_first_bad_line()
    ensures { (name : List ℕ) (lines : List (List ℕ)) → (hearing_after (silent name) lines).bad
        ≡ position_from (λ line. is_broken (told_by_line name line)) 1 lines }
{}

/// Lines are read as what they were printed of, for a query whose name may be one.
pub fn what_is_printed_is_read()
    ensures { (name : List ℕ) → is_free_name name ≡ true → ReadsPrintedLines name }
{}
