//! Something is said at the end of a run.
ghost use Rattle.feeds_run.specs.Parts.{TellsAtTheEnd};

use crate::status::{FeedStatus, said_as};
use outside::Sink;
use run_ends::{Status, say};

/// Writes what is said, and answers with this status where all of it was written.
pub(crate) fn tell<K: Sink>(sink: &mut K, said: &[u8], end: FeedStatus) -> FeedStatus
    ensures { TellsAtTheEnd said.now end result (K.faults sink.old) (K.faults sink.new) (K.written sink.old) (K.written sink.new) }
{
    let written = say(sink, said, Status::Done);
    said_as(end, written)
}
