// What the definitions mean in other words.
ghost use Rattle.std.specs.Prelude.{◌≡◌, ◌^◌, ℕ, List};
ghost use Rattle.std.specs.Str.Lines.{lines};
ghost use Rattle.line_loop.specs.Lines.{lines_of_input};

use crate::replies::GATHERED;
use crate::run::PIECE;

/// The limits, in numbers.
pub fn limits_in_numbers()
    ensures gathered { GATHERED ≡ 2 ^ 16 }
    ensures piece { PIECE ≡ 4096 }
{}

/// The lines of an input are those that `str::lines` gives of the same bytes as a text.
pub fn lines_are_those_of_a_text()
    ensures { (bytes : List ℕ) → lines_of_input bytes ≡ lines bytes }
{}
