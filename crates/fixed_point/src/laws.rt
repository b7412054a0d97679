//! Laws that tie the definitions together. Each is a contract with nothing to run.
ghost use Rattle.std.specs.Prelude.{◌≡◌, ◌^◌};
ghost use Rattle.fixed_point.specs.declared.number.TheConstants.{FIX_LIMIT, READ_LIMIT, SLOPE_LIMIT};
ghost use Rattle.fixed_point.specs.declared.number_text.TheConstants.{FIX_TEXT_LIMIT};
ghost use Rattle.fixed_point.specs.declared.reading.TheConstants.{DECIMALS_LIMIT, WHOLE_DIGITS_LIMIT};
ghost use Rattle.fixed_point.specs.declared.short_text.TheConstants.{WORD_LIMIT};
ghost use Rattle.fixed_point.specs.Laws.{ReadsEachDecimal, ReadsPrintedNumber};

/// A text is read as a value exactly where it is a number of that value by its parts, and the value is
/// within the limit.
pub fn reads_each_decimal()
    ensures { ReadsEachDecimal }
{}

/// The canonical text of a number within 10^12 thousandths of 0 is read as that number.
pub fn reads_what_is_printed()
    ensures { ReadsPrintedNumber }
{}

/// The limits of this crate by their numbers.
pub fn limits_in_numbers()
    ensures fix { FIX_LIMIT ≡ 10 ^ 18 }
    ensures read { READ_LIMIT ≡ 10 ^ 12 }
    ensures slope { SLOPE_LIMIT ≡ 10 ^ 6 }
    ensures whole_digits { WHOLE_DIGITS_LIMIT ≡ 10 }
    ensures decimals { DECIMALS_LIMIT ≡ 3 }
    ensures word { WORD_LIMIT ≡ 32 }
    ensures text { FIX_TEXT_LIMIT ≡ 21 }
{}
