// Objects in memory that never fail by the outside.
ghost use Rattle.std.specs.Prelude.{◌≡◌, ◌<◌, ◌≤◌, ◌++◌, ℕ, List, [], Some, IsOk, IfOk, OnOk, OnErr, length, take, drop, min};
ghost use Rattle.std.specs.Option.{option_copied, option_map};
ghost use Rattle.outside.specs.Faults.{HasCause, HasCauseOrNoMemory};
ghost use Rattle.outside.specs.Source.{Reads};
ghost use Rattle.outside.specs.Sink.{Writes};
ghost use Rattle.outside.specs.Shelf.{texts_of, texts_with, Finds, Stores};

use crate::text::{self, Text};
use crate::{Failed, OutFail, Shelf, Sink, Source};
use std::alloc::{AllocError, Global};
use std::marker::Model;

/// Bytes in memory. Each read moves as many as there is room for, and none fails.
#[derive(Drop)]
pub struct SureSource {
    bytes: Vec<u8>,
    taken: usize,
}

impl Model for SureSource {
    ghost use Rattle.std.specs.Prelude.{ℕ, List, ◌≤◌, drop, length};

    ghost Value = { List ℕ };

    ghost view = { λ s. drop s.taken s.bytes.items };

    ghost invariant = { λ s. s.taken ≤ length s.bytes.items };
}

impl SureSource {
    /// A source of these bytes.
    pub fn new(bytes: Vec<u8>) -> SureSource
        ensures { result ≡ bytes.items }
    {
        SureSource { bytes, taken: 0 }
    }
}

impl Source for SureSource {
    ghost faults = { λ _. 0 };

    ghost left = { λ s. Some s };

    fn read(&mut self, buf: &mut [u8]) -> Result<usize, Failed>
        requires { 0 < length buf.old }
        ensures bound { IfOk result (λ n. n ≤ length buf.new) }
        ensures cause { HasCause 0 0 result }
        ensures bytes { Reads (Some self.old) (Some self.new) result buf.new }

        ensures sure { IsOk result }
        ensures most { IfOk result (λ n. n ≡ min (length buf.new) (length self.old)) }
    {
        let len = buf.len().min(self.bytes.len() - self.taken);
        buf[..len].copy_from_slice(&self.bytes[self.taken..self.taken + len]);
        self.taken += len;
        Ok(len)
    }
}

/// Bytes in memory. Each write takes the whole piece, and none fails but for want of memory.
#[derive(Drop)]
pub struct SureSink {
    bytes: Vec<u8>,
}

impl Model for SureSink {
    ghost use Rattle.std.specs.Prelude.{ℕ, List};

    ghost Value = { List ℕ };

    ghost view = { λ s. s.bytes.items };
}

impl SureSink {
    /// A sink to which nothing was written.
    pub fn new(alloc: Global) -> SureSink
        ensures { result ≡ [] }
    {
        SureSink {
            bytes: Vec::new(alloc),
        }
    }

    /// What was written.
    pub fn bytes(&self) -> &[u8]
        ensures { result.now ≡ self.now }
    {
        &self.bytes
    }
}

impl Sink for SureSink {
    ghost faults = { λ _. 0 };

    ghost written = { λ s. Some s };

    fn write(&mut self, piece: &[u8]) -> Result<usize, OutFail>
        requires { 0 < length piece.now }
        ensures bound { IfOk result (λ n. (0 < n) × (n ≤ length piece.now)) }
        ensures cause { HasCauseOrNoMemory 0 0 result }
        ensures bytes { Writes (Some self.old) (Some self.new) result piece.now }

        ensures most { IfOk result (λ n. n ≡ length piece.now) }
    {
        self.bytes.extend_from_slice(piece)?;
        Ok(piece.len())
    }
}

/// Texts in memory. No call fails but for want of memory.
#[derive(Drop)]
pub struct SureShelf {
    alloc: Global,
    texts: Vec<Text>,
}

impl Model for SureShelf {
    ghost use Rattle.std.specs.Prelude.{ℕ, List};

    ghost Value = { List (List ℕ × List ℕ) };

    ghost view = { λ s. s.texts.items };
}

impl SureShelf {
    /// A shelf without a text.
    pub fn new(alloc: Global) -> SureShelf
        ensures { result ≡ [] }
    {
        SureShelf {
            alloc,
            texts: Vec::new(alloc),
        }
    }

    /// The text under the name.
    pub fn get(&self, name: &[u8]) -> Option<&[u8]>
        ensures { option_copied result ≡ texts_of self.now name.now }
    {
        text::get(&self.texts, name)
    }

    /// Puts the text under the name, in place of the one that is there.
    pub fn put(&mut self, name: &[u8], text: &[u8]) -> Result<(), AllocError>
        ensures ok { OnOk result (texts_of self.new ≡ texts_with (texts_of self.old) name.now text.now) }
        ensures err { OnErr result (self.new ≡ self.old) }
    {
        text::set(self.alloc, &mut self.texts, name, text)
    }
}

impl Shelf for SureShelf {
    ghost faults = { λ _. 0 };

    ghost texts = { λ s. Some (texts_of s) };

    fn fetch(&mut self, name: &[u8]) -> Result<Option<Vec<u8>>, OutFail> {
        match self.get(name) {
            Some(text) => Ok(Some(text.to_vec(self.alloc)?)),
            None => Ok(None),
        }
    }

    fn store(&mut self, name: &[u8], text: &[u8]) -> Result<(), OutFail>
        ensures cause { HasCauseOrNoMemory 0 0 result }
        ensures text { Stores (Some (texts_of self.old)) (Some (texts_of self.new)) name.now text.now result }

        ensures err { OnErr result (self.new ≡ self.old) }
    {
        self.put(name, text)?;
        Ok(())
    }
}
