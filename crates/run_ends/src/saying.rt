//! Something is said in place of answering lines.
ghost use Rattle.std.specs.Prelude.{◌≡◌};
ghost use Rattle.run_ends.specs.Saying.{Speaks, status_said};

use crate::Status;
use line_loop::write_all;
use outside::{OutFail, Sink};

/// Writes what is said, and answers with this status where all of it was written.
pub fn say<K: Sink>(sink: &mut K, said: &[u8], end: Status) -> Status
    ensures { Speaks said.now end result (K.faults sink.old) (K.faults sink.new) (K.written sink.old) (K.written sink.new) }
{
    let written = write_all(sink, said);
    status_said(end, written)
}

/// The status of a run that says something, by how that was written.
fn status_said(end: Status, written: Result<(), OutFail>) -> Status
    ensures { result ≡ status_said end written }
{
    match written {
        Ok(()) => end,
        Err(OutFail::Failed) => Status::WriteFault,
        Err(OutFail::NoMemory) => Status::NoMemory,
    }
}
