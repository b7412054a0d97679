//! What was accepted, in order.
ghost use Rattle.std.specs.Prelude.{◌≡◌, ◌+◌, ◌<◌, ◌≤◌, [], ◌∷◌, ◌++◌, length, take, drop, option_map, slice_get, OnOk, OnErr};
ghost use Rattle.command_text.specs.Text.{text_of};
ghost use Rattle.command_text.specs.Journal.{Accepted, bytes_of, line_told, spelled};

use std::alloc::{AllocError, Global};
use std::marker::Model;
use std::mem::size_of;
use std::sync::ledger::Ledger;
use steps::Steps;

/// The most entries of a journal.
pub const MOST_ENTRIES: usize = 2_000_000;

/// The most bytes of the canonical lines of a journal, with their line feeds.
pub const MOST_BYTES: u64 = 268_435_456;

// When a command was accepted, and where its canonical line begins and how many bytes it has, without
// its line feed.
#[derive(Clone, Copy)]
pub(crate) struct Kept {
    tick: u32,
    from: u32,
    size: u32,
}

const _: () = prove!(size_of::<Kept>() <= 12);

/// The commands that were accepted, each with its tick, in order. A contract sees their list. It is kept
/// as their canonical lines, which take a fraction of the memory of their trees.
#[derive(Drop)]
pub struct Journal {
    kept: Vec<Kept>,
    // The lines, each with a line feed.
    text: Vec<u8>,
}

impl Model for Journal {
    ghost use Rattle.std.specs.Prelude.{ℕ, List, map};
    ghost use Rattle.std.specs.Coded.{codes};
    ghost use Rattle.formula_shape.specs.ShapeCode.{shape_code};
    ghost use Rattle.ftl_parser.specs.declared.tree.Atom.{Atom};
    ghost use Rattle.ftl_parser.specs.declared.tree.Term.{Term};
    ghost use Rattle.command_text.specs.Journal.{Accepted};

    ghost Value = { List Accepted };

    ghost coded = { Prim.hlevel (codes, shape_code {A = Atom} {B = List ℕ × Term} (Prim.hlevel codes)) };

    ghost use Rattle.command_text.specs.inner.JournalParts.{accepted, IsJournal};

    ghost view = { λ a. map (accepted a.text.items) a.kept.items };

    ghost invariant = { λ a. IsJournal a.kept.items a.text.items };
}

impl Journal {
    /// An empty journal. Takes no memory.
    pub fn new(alloc: Global) -> Journal
        ensures { result ≡ [] }
    {
        Journal {
            kept: Vec::new(alloc),
            text: Vec::new(alloc),
        }
    }

    /// The number of entries.
    #[inline]
    pub fn len(&self) -> usize
        ensures value { result ≡ length self.now }
        ensures few { result ≤ MOST_ENTRIES }
    {
        self.kept.len()
    }

    /// The bytes of the canonical lines, with their line feeds.
    #[inline]
    pub fn bytes(&self) -> u64
        ensures value { result ≡ bytes_of self.now }
        ensures short { result ≤ MOST_BYTES }
    {
        self.text.len() as u64
    }

    /// The entry at a place, counted from 0: its tick and its canonical line, without a line feed. None
    /// exactly where there are no more than that many. Takes one step of `reads`, and is the only way to
    /// an entry.
    pub fn entry<L: Ledger>(&self, i: usize, reads: &mut Steps<L>) -> Option<(u32, &[u8])>
        ensures value { option_map (λ e. (e.0, e.1.now)) result ≡ option_map line_told (slice_get self.now i) }
        ensures step { reads.new ≡ reads.old + 1 }
    {
        reads.step();
        let kept = kept_at(&self.kept, i)?;
        Some((kept.tick, line_at(&self.text, &kept)))
    }

    /// Adds an entry at the end: the command of a canonical line, accepted at a tick. An `Err` changes
    /// nothing.
    pub fn push(&mut self, tick: u32, line: &[u8]) -> Result<(), AllocError>
        requires line { text_of (spelled line.now) ≡ line.now }
        requires few { length self.old < MOST_ENTRIES }
        requires short { bytes_of self.old + length line.now + 1 ≤ MOST_BYTES }
        ensures ok { OnOk result (self.new ≡ self.old ++ (tick, spelled line.now) ∷ []) }
        ensures err { OnErr result (self.new ≡ self.old) }
    {
        add_line(&mut self.kept, &mut self.text, tick, line)
    }

    /// Takes the last entry away. It takes no memory.
    pub fn pop(&mut self)
        requires { 0 < length self.old }
        ensures { (e : Accepted) × (self.old ≡ self.new ++ e ∷ []) }
    {
        let kept = take_last(&mut self.kept);
        self.text.truncate(kept.from as usize);
    }
}

// The entry at a place.
fn kept_at(kept: &[Kept], i: usize) -> Option<Kept>
    ensures { result ≡ slice_get kept.now i }
{
    kept.get(i).copied()
}

// The line of an entry.
fn line_at<'a>(text: &'a [u8], kept: &Kept) -> &'a [u8]
    requires { kept.now.from + kept.now.size ≤ length text.now }
    ensures { result.now ≡ take kept.now.size (drop kept.now.from text.now) }
{
    let from = kept.from as usize;
    &text[from..from + kept.size as usize]
}

// Adds a line at the end. An `Err` changes nothing.
fn add_line(
    kept: &mut Vec<Kept>,
    text: &mut Vec<u8>,
    tick: u32,
    line: &[u8],
) -> Result<(), AllocError>
    requires { length text.old.items + length line.now + 1 ≤ MOST_BYTES }
    ensures kept { OnOk result (kept.new.items ≡ kept.old.items ++ record { tick = tick; from = length text.old.items; size = length line.now } ∷ []) }
    ensures text { OnOk result (text.new.items ≡ text.old.items ++ (line.now ++ 10 ∷ [])) }
    ensures err { OnErr result ((kept.new.items ≡ kept.old.items) × (text.new.items ≡ text.old.items)) }
{
    kept.reserve(1)?;
    text.reserve(line.len() + 1)?;
    let from = text.len() as u32;
    let size = line.len() as u32;
    text.extend_from_slice(line).unwrap();
    text.push(b'\n').unwrap();
    kept.push(Kept { tick, from, size }).unwrap();
    Ok(())
}

// Takes the last of some entries away.
fn take_last(kept: &mut Vec<Kept>) -> Kept
    requires { 0 < length kept.old.items }
    ensures { kept.old.items ≡ kept.new.items ++ result ∷ [] }
{
    kept.pop().unwrap()
}
