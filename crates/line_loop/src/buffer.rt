// The line that is open, of which no more is kept than matters.
ghost use Rattle.std.specs.Prelude.{◌≡◌, ◌++◌, [], ℕ, Some, IfOk, IsOk};
ghost use Rattle.std.specs.Str.Lines.{strip_carriage_return};
ghost use Rattle.line_loop.specs.Kept.{kept_part};

use std::alloc::{AllocError, Global};
use std::marker::Model;

/// The bytes of a line so far.
#[derive(Drop)]
pub struct LineBuffer {
    bytes: Vec<u8>,
    longest: Option<u32>,
}

impl Model for LineBuffer {
    ghost use Rattle.std.specs.Prelude.{◌≡◌, ◌≤◌, ◌+◌, ℕ, Some, length, vec_len, vec_capacity};
    ghost use Rattle.line_loop.specs.Kept.{LineView};

    ghost Value = { LineView };

    ghost view = { λ b. record { kept = b.bytes.items; longest = b.longest } };

    ghost invariant = { λ b. (longest : ℕ) → b.longest ≡ Some longest →
        (vec_len b.bytes ≤ longest + 2) × (longest + 2 ≤ vec_capacity b.bytes) };
}

impl LineBuffer {
    /// An empty line. With a `longest` two bytes more than so many are kept: they show that the line is longer, also
    /// without a carriage return. Then no other call takes memory. With `None` all bytes are kept.
    pub fn new(alloc: Global, longest: Option<u32>) -> Result<LineBuffer, AllocError>
        ensures { IfOk result (λ line. line ≡ record { kept = []; longest = longest }) }
    {
        let most = match longest {
            Some(longest) => longest as usize + 2,
            None => 0,
        };
        Ok(LineBuffer {
            bytes: Vec::with_capacity(alloc, most)?,
            longest,
        })
    }

    /// Appends bytes to the line, as far as they are kept.
    #[inline]
    #[tactic(auto, using(crate::proofs::LinesLemmas::extended))]
    pub fn extend(&mut self, bytes: &[u8]) -> Result<(), AllocError>
        ensures sure { (longest : ℕ) → self.old.longest ≡ Some longest → IsOk result }
        ensures extended { IfOk result (λ _. self.new ≡ record self.old {
          kept = kept_part self.old.longest (self.old.kept ++ bytes.now);
        }) }
    {
        match self.longest {
            Some(longest) => {
                let len = bytes.len().min(longest as usize + 2 - self.bytes.len());
                self.bytes.extend_from_slice(&bytes[..len]).unwrap();
                Ok(())
            }
            None => self.bytes.extend_from_slice(bytes),
        }
    }

    /// Begins a new line.
    #[inline]
    pub fn clear(&mut self)
        ensures { self.new ≡ record self.old { kept = [] } }
    {
        self.bytes.clear();
    }

    /// What is kept, as it is.
    #[inline]
    pub fn unended(&self) -> &[u8]
        ensures { result.now ≡ self.now.kept }
    {
        &self.bytes
    }
}

/// A line without the carriage return at its end.
#[inline]
pub fn without_carriage_return(line: &[u8]) -> &[u8]
    ensures { result.now ≡ strip_carriage_return line.now }
{
    match line {
        [line @ .., b'\r'] => line,
        line => line,
    }
}
