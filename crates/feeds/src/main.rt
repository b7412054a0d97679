//! DOMINO for several users: reads their lines from standard input, and writes on standard output what each of them is told.
//! With the words `replica NAME` it hears what one of them is told, and writes the answer of the query of this name in the end.
#![tactic(auto)]

ghost use Rattle.std.specs.Prelude.{◌<◌, map, string_bytes};
ghost use Rattle.domino_run.specs.declared.running.TheConstants.{INPUT_LIMIT};
ghost use Rattle.feeds_run.specs.Ends.{seen_of};
ghost use Rattle.feeds_run.specs.Theorem.{FeedsAs};
ghost use Rattle.feeds_run.specs.Words.{feed_words_of};
ghost use Rattle.steps.specs.Counting.{IsBlankOf};

use feeds_run::{FeedStatus, run_feeds};
use outside::{Sink, Source, StdSink, StdSource};
use std::marker::Brand;
use std::process::ExitCode;
use std::sync::ledger::{Blank, Ledger};
use std::{env, io};
use steps::Steps;

fn main(rt: HostRuntime) -> io::Result<ExitCode> {
    let Some(words) = given_words(&rt) else {
        return Ok(ExitCode::from(FeedStatus::NoMemory.code()));
    };
    let mut source = StdSource::new(rt.reader());
    let mut sink = StdSink::new(io::writer(&rt));
    let status = run_program(&rt, &words, &mut source, &mut sink);
    Ok(ExitCode::from(status.code()))
}

/// The words of the program, its name first; none at all where one of them is no text, so that they are bad
/// words. None where memory is out.
fn given_words(rt: &HostRuntime) -> Option<Vec<String>> {
    match env::args(rt) {
        Ok(words) => words.collect::<Vec<String>>(rt.alloc()).ok(),
        Err(error) if error.kind() == io::ErrorKind::OutOfMemory => None,
        Err(_) => Some(Vec::new(rt.alloc())),
    }
}

/// Runs the program over a source and a sink.
fn run_program<S: Source, K: Sink>(
    rt: &HostRuntime,
    words: &[String],
    source: &mut S,
    sink: &mut K,
) -> FeedStatus
    ensures { FeedsAs INPUT_LIMIT (feed_words_of (map string_bytes words.now))
        (seen_of (S.faults source.old) (K.faults sink.old) (S.left source.old) (K.written sink.old))
        (seen_of (S.faults source.new) (K.faults sink.new) (S.left source.new) (K.written sink.new)) result }
{
    count_reads::<_, _, Brand>(rt, words, source, sink, Blank::new(1), Blank::new(1))
}

/// Runs the program with a counter of looks at what is stored, which costs nothing.
fn count_reads<S: Source, K: Sink, L: Ledger>(
    rt: &HostRuntime,
    words: &[String],
    source: &mut S,
    sink: &mut K,
    reads: Blank,
    probes: Blank,
) -> FeedStatus
    requires blank { IsBlankOf reads.name reads.parts L.name L.parts }
    requires one { 0 < probes.parts }
    ensures { FeedsAs INPUT_LIMIT (feed_words_of (map string_bytes words.now))
        (seen_of (S.faults source.old) (K.faults sink.old) (S.left source.old) (K.written sink.old))
        (seen_of (S.faults source.new) (K.faults sink.new) (S.left source.new) (K.written sink.new)) result }
{
    let reads: Steps<L> = Steps::new(rt, reads);
    count_probes::<_, _, _, Brand>(rt, words, source, sink, reads, probes)
}

/// Runs the program with a counter of probes too.
fn count_probes<S: Source, K: Sink, L: Ledger, M: Ledger>(
    rt: &HostRuntime,
    words: &[String],
    source: &mut S,
    sink: &mut K,
    reads: Steps<L>,
    probes: Blank,
) -> FeedStatus
    requires { IsBlankOf probes.name probes.parts M.name M.parts }
    ensures { FeedsAs INPUT_LIMIT (feed_words_of (map string_bytes words.now))
        (seen_of (S.faults source.old) (K.faults sink.old) (S.left source.old) (K.written sink.old))
        (seen_of (S.faults source.new) (K.faults sink.new) (S.left source.new) (K.written sink.new)) result }
{
    let probes: Steps<M> = Steps::new(rt, probes);
    run_feeds(rt.alloc(), words, source, sink, reads, probes)
}
