//! What holds of the lines of each number, as contracts with nothing to run.
ghost use Rattle.std.specs.Prelude.{◌≡◌, ℕ, length};
ghost use Rattle.generator.specs.Lines.{lines_of};

use crate::plan::LINES;

/// Each number has 887 lines.
#[tactic(auto, using(crate::proofs::PlanLemmas::lines_are_so_many))]
pub fn as_many_lines_by_each_number()
    ensures lines { (number : ℕ) → length (lines_of number) ≡ LINES }
    ensures number { LINES ≡ 887 }
{}
