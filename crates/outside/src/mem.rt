// Objects in memory that move few bytes at a time, and fail at chosen calls.
ghost use Rattle.std.specs.Prelude.{◌≡◌, ◌<◌, ◌≤◌, ◌++◌, ◌↔◌, ℕ, List, [], Some, IsTrue, IsOk, IsErr, IsErrOf, IfOk, OnOk, OnErr, length, take, drop, min};
ghost use Rattle.std.specs.Option.{option_copied, option_map};
ghost use Rattle.outside.specs.Faults.{HasCause, HasCauseOrNoMemory};
ghost use Rattle.outside.specs.Source.{Reads};
ghost use Rattle.outside.specs.Sink.{Writes};
ghost use Rattle.outside.specs.Shelf.{texts_of, texts_with, Finds, Stores};
ghost use Rattle.outside.specs.Plan.{new_plan, fails_next, called};

use crate::plan::Plan;
use crate::{Failed, OutFail, Shelf, Sink, Source, SureShelf, SureSink, SureSource};
use std::alloc::{AllocError, Global};
use std::marker::Model;

/// Bytes in memory. A read moves at most `cut` of them, and the calls with chosen numbers fail.
#[derive(Drop)]
pub struct MemSource {
    bytes: SureSource,
    cut: usize,
    plan: Plan,
}

impl Model for MemSource {
    ghost use Rattle.std.specs.Prelude.{◌<◌};
    ghost use Rattle.outside.specs.Views.{SourceView};

    ghost Value = { SourceView };

    ghost view = { λ s. record { left = s.bytes; cut = s.cut; plan = s.plan } };

    ghost invariant = { λ s. 0 < s.cut };
}

impl MemSource {
    /// A source of these bytes that moves at most `cut` a read. The k-th read, counted from 1, fails exactly where
    /// k is in `fail`.
    pub fn new(bytes: Vec<u8>, cut: usize, fail: Vec<u64>) -> MemSource
        requires { 0 < cut }
        ensures { result ≡ record { left = bytes.items; cut = cut; plan = new_plan fail.items } }
    {
        MemSource {
            bytes: SureSource::new(bytes),
            cut,
            plan: Plan::new(fail),
        }
    }
}

impl Source for MemSource {
    ghost faults = { λ s. s.plan.faults };

    ghost left = { λ s. Some s.left };

    fn read(&mut self, buf: &mut [u8]) -> Result<usize, Failed>
        requires { 0 < length buf.old }
        ensures bound { IfOk result (λ n. n ≤ length buf.new) }
        ensures cause { HasCause self.old.plan.faults self.new.plan.faults result }
        ensures bytes { Reads (Some self.old.left) (Some self.new.left) result buf.new }

        ensures fails { IsErr result ↔ IsTrue (fails_next self.old.plan) }
        ensures counts { self.new.plan ≡ called self.old.plan }
        ensures most { IfOk result (λ n. n ≡ min (min self.old.cut (length buf.new)) (length self.old.left)) }
    {
        if self.plan.call() {
            return Err(Failed);
        }
        let most = self.cut.min(buf.len());
        self.bytes.read(&mut buf[..most])
    }
}

/// Bytes in memory. A write takes at most `cut` of a piece, and the calls with chosen numbers fail.
#[derive(Drop)]
pub struct MemSink {
    bytes: SureSink,
    cut: usize,
    plan: Plan,
}

impl Model for MemSink {
    ghost use Rattle.std.specs.Prelude.{◌<◌};
    ghost use Rattle.outside.specs.Views.{SinkView};

    ghost Value = { SinkView };

    ghost view = { λ s. record { written = s.bytes; cut = s.cut; plan = s.plan } };

    ghost invariant = { λ s. 0 < s.cut };
}

impl MemSink {
    /// A sink to which nothing was written, and which takes at most `cut` bytes a write. The k-th write, counted
    /// from 1, fails exactly where k is in `fail`.
    pub fn new(alloc: Global, cut: usize, fail: Vec<u64>) -> MemSink
        requires { 0 < cut }
        ensures { result ≡ record { written = []; cut = cut; plan = new_plan fail.items } }
    {
        MemSink {
            bytes: SureSink::new(alloc),
            cut,
            plan: Plan::new(fail),
        }
    }

    /// What was written.
    pub fn bytes(&self) -> &[u8]
        ensures { result.now ≡ self.now.written }
    {
        self.bytes.bytes()
    }
}

impl Sink for MemSink {
    ghost faults = { λ s. s.plan.faults };

    ghost written = { λ s. Some s.written };

    fn write(&mut self, piece: &[u8]) -> Result<usize, OutFail>
        requires { 0 < length piece.now }
        ensures bound { IfOk result (λ n. (0 < n) × (n ≤ length piece.now)) }
        ensures cause { HasCauseOrNoMemory self.old.plan.faults self.new.plan.faults result }
        ensures bytes { Writes (Some self.old.written) (Some self.new.written) result piece.now }

        ensures fails { IsErrOf result OutFail.Failed ↔ IsTrue (fails_next self.old.plan) }
        ensures counts { self.new.plan ≡ called self.old.plan }
        ensures most { IfOk result (λ n. n ≡ min self.old.cut (length piece.now)) }
    {
        if self.plan.call() {
            return Err(OutFail::Failed);
        }
        let most = self.cut.min(piece.len());
        self.bytes.write(&piece[..most])
    }
}

/// Texts in memory. The calls of `fetch` and `store` with chosen numbers fail.
#[derive(Drop)]
pub struct MemShelf {
    texts: SureShelf,
    plan: Plan,
}

impl Model for MemShelf {
    ghost use Rattle.outside.specs.Views.{ShelfView};

    ghost Value = { ShelfView };

    ghost view = { λ s. record { entries = s.texts; plan = s.plan } };
}

impl MemShelf {
    /// A shelf without a text. The k-th call of `fetch` and `store` together, counted from 1, fails exactly where
    /// k is in `fail`.
    pub fn new(alloc: Global, fail: Vec<u64>) -> MemShelf
        ensures { result ≡ record { entries = []; plan = new_plan fail.items } }
    {
        MemShelf {
            texts: SureShelf::new(alloc),
            plan: Plan::new(fail),
        }
    }

    /// The text under the name. It is none of the numbered calls.
    pub fn get(&self, name: &[u8]) -> Option<&[u8]>
        ensures { option_copied result ≡ texts_of self.now.entries name.now }
    {
        self.texts.get(name)
    }

    /// Puts the text under the name, in place of the one that is there. It is none of the numbered calls.
    pub fn put(&mut self, name: &[u8], text: &[u8]) -> Result<(), AllocError>
        ensures ok { OnOk result (texts_of self.new.entries ≡ texts_with (texts_of self.old.entries) name.now text.now) }
        ensures err { OnErr result (self.new.entries ≡ self.old.entries) }
        ensures uncounted { self.new.plan ≡ self.old.plan }
    {
        self.texts.put(name, text)
    }
}

impl Shelf for MemShelf {
    ghost faults = { λ s. s.plan.faults };

    ghost texts = { λ s. Some (texts_of s.entries) };

    fn fetch(&mut self, name: &[u8]) -> Result<Option<Vec<u8>>, OutFail>
        ensures cause { HasCauseOrNoMemory self.old.plan.faults self.new.plan.faults result }
        ensures found { IfOk result (λ found. Finds (Some (texts_of self.old.entries)) name.now (option_map (λ text. text.items) found)) }
        ensures unchanged { Some (texts_of self.new.entries) ≡ Some (texts_of self.old.entries) }

        ensures fails { IsErrOf result OutFail.Failed ↔ IsTrue (fails_next self.old.plan) }
        ensures counts { self.new.plan ≡ called self.old.plan }
    {
        if self.plan.call() {
            return Err(OutFail::Failed);
        }
        self.texts.fetch(name)
    }

    fn store(&mut self, name: &[u8], text: &[u8]) -> Result<(), OutFail>
        ensures cause { HasCauseOrNoMemory self.old.plan.faults self.new.plan.faults result }
        ensures text { Stores (Some (texts_of self.old.entries)) (Some (texts_of self.new.entries)) name.now text.now result }

        ensures fails { IsErrOf result OutFail.Failed ↔ IsTrue (fails_next self.old.plan) }
        ensures counts { self.new.plan ≡ called self.old.plan }
        ensures err { OnErr result (self.new.entries ≡ self.old.entries) }
    {
        if self.plan.call() {
            return Err(OutFail::Failed);
        }
        self.texts.store(name, text)
    }
}
