//! Users share one world.
ghost use Rattle.feeds_run.specs.Ends.{seen_of};
ghost use Rattle.feeds_run.specs.Theorem.{FeedsAs};
ghost use Rattle.feeds_run.specs.Words.{Shared};

use crate::status::{FeedStatus, feed_status};
use feeds_meaning::users_hear_their_views;
use hub::{Hub, NoContext, Users};
use line_loop::run_lines;
use outside::{Sink, Source};
use std::alloc::Global;
use std::mem::forget;
use std::sync::ledger::Ledger;
use steps::Steps;

/// Answers the lines of the source, each of a user, and writes what each user is told of them.
pub(crate) fn share<S: Source, K: Sink, L: Ledger, M: Ledger>(
    limit: u64,
    alloc: Global,
    source: &mut S,
    sink: &mut K,
    reads: Steps<L>,
    probes: Steps<M>,
) -> FeedStatus
    ensures { FeedsAs limit Shared
        (seen_of (S.faults source.old) (K.faults sink.old) (S.left source.old) (K.written sink.old))
        (seen_of (S.faults source.new) (K.faults sink.new) (S.left source.new) (K.written sink.new)) result }
{
    // A call that does nothing, whose contract says what is written for a user.
    users_hear_their_views();
    let mut users = Users::new(Hub::new(alloc), reads, probes);
    let ending = run_lines(alloc, limit, &mut users, source, sink, &mut NoContext);
    // The program ends, and its memory with it: to give it back piece by piece would look at all of it once more.
    forget(users);
    feed_status(ending)
}
