//! The answer of one query is followed.
ghost use Rattle.std.specs.Prelude.{◌≡◌};
ghost use Rattle.feeds_run.specs.Ends.{seen_of};
ghost use Rattle.feeds_run.specs.Parts.{TellsHeard, heard_end};
ghost use Rattle.feeds_run.specs.Theorem.{FeedsAs};
ghost use Rattle.feeds_run.specs.Words.{Followed};

use crate::follower::Follower;
use crate::status::{FeedStatus, feed_status};
use crate::telling::tell;
use line_loop::{Ending, run_lines};
use outside::{Sink, Source};
use replica::Replica;
use std::alloc::Global;

/// Hears the lines of the source as those of one user, and writes the rows of the query of this name in the end, or which
/// line hasn't its form.
pub(crate) fn follow<S: Source, K: Sink>(
    limit: u64,
    alloc: Global,
    name: &[u8],
    source: &mut S,
    sink: &mut K,
) -> FeedStatus
    ensures { FeedsAs limit (Followed name.now)
        (seen_of (S.faults source.old) (K.faults sink.old) (S.left source.old) (K.written sink.old))
        (seen_of (S.faults source.new) (K.faults sink.new) (S.left source.new) (K.written sink.new)) result }
{
    let Ok(replica) = Replica::new(alloc, name) else {
        return FeedStatus::NoMemory;
    };
    let mut follower = Follower::new(replica);
    match run_lines(alloc, limit, &mut follower, source, sink, &mut ()) {
        Ending::Done => tell_heard(alloc, &follower.into_replica(), sink),
        ending => feed_status(ending),
    }
}

/// Writes what a replica says in the end.
fn tell_heard<K: Sink>(alloc: Global, replica: &Replica, sink: &mut K) -> FeedStatus
    ensures { TellsHeard replica.now result (K.faults sink.old) (K.faults sink.new) (K.written sink.old) (K.written sink.new) }
{
    let mut text = Vec::new(alloc);
    match replica.push_said(&mut text) {
        Ok(()) => tell(sink, &text, end_of(replica)),
        Err(_) => FeedStatus::NoMemory,
    }
}

/// The status of a run in which all was heard and said.
fn end_of(replica: &Replica) -> FeedStatus
    ensures { result ≡ heard_end replica.now }
{
    if replica.is_done() {
        FeedStatus::BadFeed
    } else {
        FeedStatus::Done
    }
}
