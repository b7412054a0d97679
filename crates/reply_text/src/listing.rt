//! The lines of `list`.
ghost use Rattle.std.specs.Prelude.{◌≡◌, ◌++◌, OnOk};
ghost use Rattle.line_meaning.specs.Reply.{class_counts, clock_line, counted_text, region_counts};
ghost use Rattle.reply_text.specs.Begins.{Begins};

use crate::buffer::{push, push_whole};
use fixed_point::Word;
use std::alloc::AllocError;

/// Writes the line of the clock. On error `out` still begins with its old contents.
#[tactic(auto, using(crate::proofs::BeginLemmas::begins_through, crate::proofs::BeginLemmas::begins_more))]
pub fn push_clock(clock: u32, out: &mut Vec<u8>) -> Result<(), AllocError>
    ensures ok { OnOk result (out.new.items ≡ out.old.items ++ clock_line clock) }
    ensures begins { Begins out.old.items out.new.items }
{
    push(out, b"clock ")?;
    push_whole(out, u64::from(clock))?;
    push(out, b"\n")
}

/// Writes a word, a name, and a number after it.
#[tactic(auto, using(crate::proofs::BeginLemmas::begins_through, crate::proofs::BeginLemmas::begins_more))]
fn push_counted(word: &[u8], name: &Word, number: u64, out: &mut Vec<u8>) -> Result<(), AllocError>
    ensures ok { OnOk result (out.new.items ≡ out.old.items ++ counted_text word.now name.now number) }
    ensures begins { Begins out.old.items out.new.items }
{
    push(out, word)?;
    push(out, name.bytes())?;
    push(out, b" ")?;
    push_whole(out, number)
}

/// Writes the line of a class that ever had so many names. On error `out` still begins with its
/// old contents.
#[tactic(auto, using(crate::proofs::BeginLemmas::begins_through, crate::proofs::BeginLemmas::begins_more))]
pub fn push_class(
    name: &Word,
    capacity: u32,
    count: u64,
    out: &mut Vec<u8>,
) -> Result<(), AllocError>
    ensures ok { OnOk result (out.new.items ≡ out.old.items ++ class_counts name.now count capacity) }
    ensures begins { Begins out.old.items out.new.items }
{
    push_counted(b"class ", name, count, out)?;
    push(out, b"/")?;
    push_whole(out, u64::from(capacity))?;
    push(out, b"\n")
}

/// Writes the line of a region with so many points. On error `out` still begins with its old contents.
#[tactic(auto, using(crate::proofs::BeginLemmas::begins_through, crate::proofs::BeginLemmas::begins_more))]
pub fn push_region(name: &Word, points: u64, out: &mut Vec<u8>) -> Result<(), AllocError>
    ensures ok { OnOk result (out.new.items ≡ out.old.items ++ region_counts name.now points) }
    ensures begins { Begins out.old.items out.new.items }
{
    push_counted(b"region ", name, points, out)?;
    push(out, b"\n")
}
