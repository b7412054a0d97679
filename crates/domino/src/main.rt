//! DOMINO, a moving objects database: reads commands line by line from standard input, and answers on
//! standard output. Texts are saved to the files of the current folder, and read from them.
#![tactic(auto)]

ghost use Rattle.std.specs.Prelude.{◌<◌, ℕ, map, string_bytes};
ghost use Rattle.run_ends.specs.Ends.{seen_by};
ghost use Rattle.domino_run.specs.Words.{words_of};
ghost use Rattle.domino_run.specs.Theorem.{RunsAs};
ghost use Rattle.domino_run.specs.declared.running.TheConstants.{INPUT_LIMIT};
ghost use Rattle.steps.specs.Counting.{IsBlankOf};

use domino_run::{Counters, run};
use outside::{DirShelf, Shelf, Sink, Source, StdSink, StdSource};
use run_ends::{Outside, Status};
use std::marker::Brand;
use std::process::ExitCode;
use std::sync::ledger::{Blank, Ledger};
use std::{env, io};
use steps::Steps;

fn main(rt: HostRuntime) -> io::Result<ExitCode> {
    let files: Result<HostRuntime, _> = rt.clone();
    let (Some(words), Ok(files)) = (given_words(&rt), files) else {
        return Ok(ExitCode::from(Status::NoMemory.code()));
    };
    let mut outside = Outside {
        source: StdSource::new(rt.reader()),
        sink: StdSink::new(io::writer(&rt)),
        shelf: DirShelf::new(files),
    };
    let status = run_program(&rt, &words, &mut outside);
    Ok(ExitCode::from(status.code()))
}

/// The words of the program, its name first; none at all where one of them is no text, so that they are bad
/// words. None where memory is out.
fn given_words(rt: &HostRuntime) -> Option<Vec<String>> {
    match env::args(rt) {
        Ok(words) => words.collect::<Vec<String>>(rt.alloc()).ok(),
        Err(error) if error.kind() == io::ErrorKind::OutOfMemory => None,
        Err(_) => Some(Vec::new(rt.alloc())),
    }
}

/// Runs the program over an outside.
fn run_program<S: Source, K: Sink, F: Shelf>(
    rt: &HostRuntime,
    words: &[String],
    outside: &mut Outside<S, K, F>,
) -> Status
    ensures { (looks : ℕ) × RunsAs INPUT_LIMIT (words_of (map string_bytes words.now))
        (seen_by S.faults K.faults F.faults S.left K.written F.texts outside.old)
        (seen_by S.faults K.faults F.faults S.left K.written F.texts outside.new)
        0 looks result }
{
    count_reads::<_, _, _, Brand>(rt, words, outside, Blank::new(1), Blank::new(1))
}

/// Runs the program with a counter of reads, which costs nothing.
fn count_reads<S: Source, K: Sink, F: Shelf, L: Ledger>(
    rt: &HostRuntime,
    words: &[String],
    outside: &mut Outside<S, K, F>,
    reads: Blank,
    probes: Blank,
) -> Status
    requires blank { IsBlankOf reads.name reads.parts L.name L.parts }
    requires one { 0 < probes.parts }
    ensures { (looks : ℕ) × RunsAs INPUT_LIMIT (words_of (map string_bytes words.now))
        (seen_by S.faults K.faults F.faults S.left K.written F.texts outside.old)
        (seen_by S.faults K.faults F.faults S.left K.written F.texts outside.new)
        0 looks result }
{
    let reads: Steps<L> = Steps::new(rt, reads);
    count_probes::<_, _, _, _, Brand>(rt, words, outside, reads, probes)
}

/// Runs the program with a counter of probes too.
fn count_probes<S: Source, K: Sink, F: Shelf, L: Ledger, M: Ledger>(
    rt: &HostRuntime,
    words: &[String],
    outside: &mut Outside<S, K, F>,
    reads: Steps<L>,
    probes: Blank,
) -> Status
    requires { IsBlankOf probes.name probes.parts M.name M.parts }
    ensures { (looks : ℕ) × RunsAs INPUT_LIMIT (words_of (map string_bytes words.now))
        (seen_by S.faults K.faults F.faults S.left K.written F.texts outside.old)
        (seen_by S.faults K.faults F.faults S.left K.written F.texts outside.new)
        reads looks result }
{
    let probes: Steps<M> = Steps::new(rt, probes);
    let counters = Counters { reads, probes };
    run(rt.alloc(), words, outside, counters).status
}
