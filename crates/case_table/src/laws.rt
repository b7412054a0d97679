//! Laws. Each is a contract with nothing to run.
ghost use Rattle.std.specs.Prelude.{◌≡◌};
ghost use Rattle.case_table.specs.declared.rows.TheConstants.{ROW_WORD_LIMIT};

/// The limit of this crate by its number.
pub fn limits_in_numbers()
    ensures row_word { ROW_WORD_LIMIT ≡ 20 }
{}
