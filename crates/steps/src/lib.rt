//! A counter of steps for proofs alone: a contract can bound how often an operation is done, and the
//! running program holds no counter and does no work for it.
//!
//! Whoever counts says which operation takes a step, and lets that operation be the only way on, as
//! the one call that reads a stored motion.
#![tactic(auto)]

ghost use Rattle.std.specs.Prelude.{◌≡◌, ◌+◌, ◌<◌};
ghost use Rattle.steps.specs.Counting.{IsBlankOf};

use std::marker::Model;
use std::sync::ledger::{Blank, Book, Ledger, Share};

/// How many steps were taken. It has no bytes, and only `step` changes the count.
#[derive(Drop)]
pub struct Steps<L: Ledger> {
    book: Book<L>,
    share: Share<L>,
}

impl<L: Ledger> Model for Steps<L> {
    ghost use Rattle.std.specs.Prelude.{ℕ, ◌<◌};

    ghost Value = { ℕ };

    ghost view = { λ s. s.book.total };

    // Only a share with parts may add to the book.
    ghost invariant = { λ s. 0 < s.share.parts };
}

impl<L: Ledger> Steps<L> {
    /// A count of no steps, over a new ledger. The ledger must be the one that `L` stands for and have
    /// a part: a caller makes it by `Blank::new(1)`, and picks `L` in its proof.
    ///
    /// Only `main` and tests have the runtime, so no call below them can count on a counter of its own and
    /// leave the one that it was given as it is.
    pub fn new(_runtime: &HostRuntime, blank: Blank) -> Self
        requires { IsBlankOf blank.name blank.parts L.name L.parts }
        ensures { result ≡ 0 }
    {
        let (book, share) = blank.open();
        Steps { book, share }
    }

    /// Takes one step.
    #[inline]
    pub fn step(&mut self)
        ensures { self.new ≡ self.old + 1 }
    {
        self.book.add(&mut self.share, 1);
    }
}
