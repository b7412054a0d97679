// Where output goes.
ghost use Rattle.std.specs.Prelude.{◌<◌, ◌≤◌, ℕ, List, Option, None, IfOk, length};
ghost use Rattle.outside.specs.Faults.{HasCauseOrNoMemory};
ghost use Rattle.outside.specs.Sink.{Writes};

use crate::OutFail;

/// What takes bytes in order.
pub trait Sink {
    /// How often a write failed. It never falls.
    ghost faults: { Self → ℕ };

    /// The bytes that were written, where they are told. `None` claims nothing.
    ghost written: { Self → Option (List ℕ) } = { λ _. None };

    /// Appends bytes from the front of `piece`, at least one, and answers how many. A failure appends none.
    fn write(&mut self, piece: &[u8]) -> Result<usize, OutFail>
        requires { 0 < length piece.now }
        ensures bound { IfOk result (λ n. (0 < n) × (n ≤ length piece.now)) }
        ensures cause { HasCauseOrNoMemory (faults self.old) (faults self.new) result }
        ensures bytes { Writes (written self.old) (written self.new) result piece.now };
}
