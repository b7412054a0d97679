//! The whole run.
ghost use Rattle.std.specs.Prelude.{◌≡◌, map, string_bytes};
ghost use Rattle.domino_run.specs.declared.running.TheConstants.{INPUT_LIMIT};
ghost use Rattle.feeds_run.specs.Ends.{seen_of};
ghost use Rattle.feeds_run.specs.Theorem.{FeedsAs};
ghost use Rattle.feeds_run.specs.Words.{feed_words_of};

use crate::following::follow;
use crate::sharing::share;
use crate::status::FeedStatus;
use crate::telling::tell;
use crate::words::{Words, words_of};
use domino_run::INPUT_LIMIT;
use outside::{Sink, Source};
use std::alloc::Global;
use std::sync::ledger::Ledger;
use steps::Steps;

/// The program over a source and a sink, under a limit of [`INPUT_LIMIT`] bytes.
pub fn run_feeds<S: Source, K: Sink, L: Ledger, M: Ledger>(
    alloc: Global,
    words: &[String],
    source: &mut S,
    sink: &mut K,
    reads: Steps<L>,
    probes: Steps<M>,
) -> FeedStatus
    ensures { FeedsAs INPUT_LIMIT (feed_words_of (map string_bytes words.now))
        (seen_of (S.faults source.old) (K.faults sink.old) (S.left source.old) (K.written sink.old))
        (seen_of (S.faults source.new) (K.faults sink.new) (S.left source.new) (K.written sink.new)) result }
{
    run_feeds_limited(alloc, INPUT_LIMIT, words, source, sink, reads, probes)
}

/// The program over a source and a sink, under a limit of bytes.
///
/// The words are those of the program, its name first. Without another word the lines of the source are those of up to
/// eight users, each a user, one space and a line of DOMINO, and each user is told what concerns this user, every line after the
/// user and a space. After it `replica` and a name hear the lines of the source as one user does, without the user's
/// name, and write the rows of the query of this name in the end; where a line hasn't its form, `bad feed` and the number of the
/// first such line. With other words it writes `bad words` and reads nothing.
///
/// Lines end with a line feed, and the last line may lack it. A read asks for at most [`line_loop::PIECE`] bytes, and for none
/// past the limit but the one that shows that there is another. Of users each line that has ended is answered, and what is told of
/// it written, before the next read. A replica writes nothing before the end.
pub fn run_feeds_limited<S: Source, K: Sink, L: Ledger, M: Ledger>(
    alloc: Global,
    limit: u64,
    words: &[String],
    source: &mut S,
    sink: &mut K,
    reads: Steps<L>,
    probes: Steps<M>,
) -> FeedStatus
    ensures { FeedsAs limit (feed_words_of (map string_bytes words.now))
        (seen_of (S.faults source.old) (K.faults sink.old) (S.left source.old) (K.written sink.old))
        (seen_of (S.faults source.new) (K.faults sink.new) (S.left source.new) (K.written sink.new)) result }
{
    match words_of(words) {
        Words::Bad => tell(sink, b"bad words\n", FeedStatus::BadWords),
        Words::Shared => share(limit, alloc, source, sink, reads, probes),
        Words::Followed(name) => follow(limit, alloc, name, source, sink),
    }
}
