//! What a convex function is.
ghost use Rattle.std.specs.Prelude.{◌≡◌, ◌≤◌, ℕ, ℤ};
ghost use Rattle.convex.specs.Bends.{Bends};

/// A function of the whole numbers whose value is at most half way between those of its neighbors, as a line, a
/// square and a sum of such are.
pub trait Convex {
    /// The value at each number.
    ghost value: { Self → ℕ → ℤ };

    /// The greatest number whose value may be asked.
    ghost reach: { Self → ℕ };

    /// The value at a number within reach.
    fn at(&self, k: u32) -> i128
        requires { k ≤ reach self.now }
        ensures { result ≡ value self.now k };

    /// From each number to the next it rises no less than before.
    ghost bends: { (f : Self) → Bends (value f) };
}
