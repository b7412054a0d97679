//! What is counted of lines and their replies.
ghost use Rattle.std.specs.Prelude.{◌≡◌, ◌+◌, ◌*◌, ◌^◌, ◌<◌, ◌≤◌, ◌++◌, length, sum, string_bytes, codes, IfOk, OnOk};
ghost use Rattle.generator.specs.declared.plan.TheConstants.{LINES};
ghost use Rattle.domino_run.specs.Summary.{nothing_counted, number_line, tally_after, tally_text};

use itoa::Buffer;
use std::alloc::{AllocError, Global};
use std::marker::Model;

/// How many lines were answered and how many of them refused, and how many bytes their replies have, with
/// the sum of these bytes.
#[derive(Drop)]
pub struct Tally {
    lines: u32,
    refused: u32,
    bytes: u128,
    total: u128,
}

impl Model for Tally {
    ghost use Rattle.std.specs.Prelude.{◌*◌, ◌^◌, ◌≤◌};
    ghost use Rattle.domino_run.specs.Summary;

    ghost Value = { Summary.LineTally };

    ghost view = { λ t. record { lines = t.lines; refused = t.refused; bytes = t.bytes; total = t.total } };

    ghost invariant = { λ t. (t.refused ≤ t.lines) × (t.bytes ≤ t.lines * 2 ^ 64) × (t.total ≤ t.lines * 2 ^ 72) };
}

impl Tally {
    /// Nothing was counted.
    pub fn new() -> Tally
        ensures { result ≡ nothing_counted }
    {
        Tally {
            lines: 0,
            refused: 0,
            bytes: 0,
            total: 0,
        }
    }

    /// Counts one line more, by whether it was refused and by its reply. There is room for the lines of a
    /// number.
    pub fn count(&mut self, refused: bool, reply: &[u8])
        requires { self.old.lines < LINES }
        ensures { self.new ≡ tally_after self.old refused reply.now }
    {
        self.lines += 1;
        self.refused += u32::from(refused);
        self.bytes += reply.len() as u128;
        self.total += total_of(reply);
    }

    /// The four lines that tell what was counted.
    pub fn text(&self, alloc: Global) -> Result<Vec<u8>, AllocError>
        ensures { IfOk result (λ text. text.items ≡ tally_text self.now) }
    {
        let mut text = Vec::new(alloc);
        push_number(&mut text, b"lines ", u128::from(self.lines))?;
        push_number(&mut text, b"refused ", u128::from(self.refused))?;
        push_number(&mut text, b"bytes ", self.bytes)?;
        push_number(&mut text, b"sum ", self.total)?;
        Ok(text)
    }
}

// The sum of bytes.
fn total_of(bytes: &[u8]) -> u128
    ensures value { result ≡ sum bytes.now }
    ensures small { result ≤ 2 ^ 72 }
{
    let mut total = 0;
    for byte in bytes {
        total += u128::from(*byte);
    }
    total
}

/// Appends a line of a word and a number.
pub fn push_number(text: &mut Vec<u8>, word: &[u8], number: u128) -> Result<(), AllocError>
    ensures { OnOk result (text.new.items ≡ text.old.items ++ number_line word.now number) }
{
    text.extend_from_slice(word)?;
    text.extend_from_slice(Buffer::new().format(number).as_bytes())?;
    text.extend_from_slice(b"\n")
}
