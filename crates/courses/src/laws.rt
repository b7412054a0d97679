//! The limit by its number and a law on the number of pieces, calls without a body whose contracts are these.
ghost use Rattle.std.specs.Prelude.{◌≡◌, ◌≤◌, ℕ, List, length};
ghost use Rattle.motion.specs.Timeline.{Epoch, IsRising};
ghost use Rattle.motion.specs.Pieces.{ArePieces};
ghost use Rattle.motion.specs.declared.pieces.Piece.{Piece};
ghost use Rattle.courses.specs.Parts.{piece_count};

use crate::parts::MOST_TIMELINES;

/// The limit, in numbers.
pub fn limits_in_numbers()
    ensures { MOST_TIMELINES ≡ 4 }
{}

/// The pieces that a timeline answers are as many as are counted here.
pub fn pieces_are_counted()
    ensures { (epochs : List Epoch) (lo last : ℕ) (pieces : List Piece) → IsRising epochs → lo ≤ last
        → ArePieces epochs lo last pieces → length pieces ≡ piece_count epochs lo last }
{}
