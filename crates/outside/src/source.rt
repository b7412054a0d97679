// Where input comes from.
ghost use Rattle.std.specs.Prelude.{◌<◌, ◌≤◌, ℕ, List, Option, None, IfOk, length};
ghost use Rattle.outside.specs.Faults.{HasCause};
ghost use Rattle.outside.specs.Source.{Reads};

use crate::Failed;

/// What gives bytes in order, and then ends.
pub trait Source {
    /// How often a read failed. It never falls.
    ghost faults: { Self → ℕ };

    /// The bytes that are left, where they are told. `None` claims nothing.
    ghost left: { Self → Option (List ℕ) } = { λ _. None };

    /// Moves bytes from the front of what is left to the front of `buf`, and answers how many.
    /// Any number from 1 on may be moved; 0 is the end of input.
    fn read(&mut self, buf: &mut [u8]) -> Result<usize, Failed>
        requires { 0 < length buf.old }
        ensures bound { IfOk result (λ n. n ≤ length buf.new) }
        ensures cause { HasCause (faults self.old) (faults self.new) result }
        ensures bytes { Reads (left self.old) (left self.new) result buf.new };
}
