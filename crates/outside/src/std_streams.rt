// Standard readers and writers as sources and sinks. They tell nothing of their bytes.
ghost use Rattle.std.specs.Prelude.{◌≡◌, ◌<◌, ◌≤◌, length, IfSome};

use crate::fault::counted;
use crate::{Failed, OutFail, Sink, Source};
use std::io::{ErrorKind, Read, Write};
use std::marker::Model;

/// A reader as a source. A read that a signal interrupts is made again; each other error of the reader is a fault.
#[derive(Drop)]
pub struct StdSource<R> {
    reader: R,
    faults: u64,
}

impl<R> Model for StdSource<R> {
    ghost use Rattle.std.specs.Prelude.{ℕ};

    ghost Value = { ℕ };

    ghost view = { λ s. s.faults };
}

impl<R: Read> StdSource<R> {
    /// A source over the reader, with no fault yet.
    pub fn new(reader: R) -> StdSource<R>
        ensures { result ≡ 0 }
    {
        StdSource { reader, faults: 0 }
    }
}

impl<R: Read> Source for StdSource<R> {
    ghost faults = { λ s. s };

    fn read(&mut self, buf: &mut [u8]) -> Result<usize, Failed> {
        counted(&mut self.faults, read_some(&mut self.reader, buf))
    }
}

// How many bytes the reader moved. `None` where it failed.
fn read_some<R: Read>(reader: &mut R, buf: &mut [u8]) -> Option<usize>
    ensures { IfSome result (λ n. n ≤ length buf.new) }
{
    for _ in 0..u64::MAX {
        match reader.read(buf) {
            Err(error) if error.kind() == ErrorKind::Interrupted => {}
            moved => return moved.ok(),
        }
    }
    None
}

/// A writer as a sink, which is flushed after each write. A write that a signal interrupts is made again; each other error
/// of the writer is a fault, and so is a write that takes no byte.
#[derive(Drop)]
pub struct StdSink<W> {
    writer: W,
    faults: u64,
}

impl<W> Model for StdSink<W> {
    ghost use Rattle.std.specs.Prelude.{ℕ};

    ghost Value = { ℕ };

    ghost view = { λ s. s.faults };
}

impl<W: Write> StdSink<W> {
    /// A sink over the writer, with no fault yet.
    pub fn new(writer: W) -> StdSink<W>
        ensures { result ≡ 0 }
    {
        StdSink { writer, faults: 0 }
    }
}

impl<W: Write> Sink for StdSink<W> {
    ghost faults = { λ s. s };

    fn write(&mut self, piece: &[u8]) -> Result<usize, OutFail> {
        let len = counted(&mut self.faults, write_and_flush(&mut self.writer, piece))?;
        Ok(len)
    }
}

// How many bytes of the piece the writer took. `None` where it took none or failed.
fn write_and_flush<W: Write>(writer: &mut W, piece: &[u8]) -> Option<usize>
    ensures { IfSome result (λ n. (0 < n) × (n ≤ length piece.now)) }
{
    let len = write_some(writer, piece)?;
    writer.flush().ok()?;
    if len == 0 { None } else { Some(len) }
}

fn write_some<W: Write>(writer: &mut W, piece: &[u8]) -> Option<usize>
    ensures { IfSome result (λ n. n ≤ length piece.now) }
{
    for _ in 0..u64::MAX {
        match writer.write(piece) {
            Err(error) if error.kind() == ErrorKind::Interrupted => {}
            taken => return taken.ok(),
        }
    }
    None
}
