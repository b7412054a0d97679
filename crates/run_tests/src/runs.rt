//! Small runs, by the words, the limit and what fails.
ghost use Rattle.std.specs.Prelude.{◌≡◌, ◌<◌};

use domino_run::{Counters, run_limited};
use outside::{MemShelf, MemSink, MemSource};
use run_ends::Outside;
use std::alloc::{AllocError, Global};
use std::marker::Brand;
use std::process::Abort;
use std::sync::ledger::{Blank, Ledger};
use std::test::Fail;
use steps::Steps;

const INPUT: &[u8] =
    b"class tank 9 (fuel dyn)\ninsert tank a fuel = 10 rate -0.5\nask 30 RETRIEVE o FROM tank o WHERE o.fuel <= 4\n";

const OUTPUT: &[u8] = b"ok\nok\nlater a : 12..30\nok\n";

// What is given to a run: the limit, the words, the input, the size of the pieces in which bytes come and
// go, a text of the shelf, and the numbers of the reads, the writes and the calls of the shelf that fail.
#[derive(Clone, Copy)]
pub(crate) struct Trial<'a> {
    pub(crate) limit: u64,
    words: &'a [&'static str],
    pub(crate) input: &'a [u8],
    pub(crate) cut: usize,
    pub(crate) text: Option<&'a [u8]>,
    pub(crate) reads: &'a [u64],
    pub(crate) writes: &'a [u64],
    pub(crate) calls: &'a [u64],
    ghost moves: { 0 < cut },
}

// The name of the text.
const NAME: &[u8] = b"text";

pub(crate) fn trial_of<'a>(
    words: &'a [&'static str],
    input: &'a [u8],
    text: Option<&'a [u8]>,
    reads: &'a [u64],
    calls: &'a [u64],
) -> Trial<'a> {
    Trial {
        limit: 1_000_000,
        words,
        input,
        cut: 100,
        text,
        reads,
        writes: &[],
        calls,
    }
}

pub(crate) fn plain_trial(input: &[u8]) -> Trial<'_> {
    trial_of(&["domino"], input, None, &[], &[])
}

// What bytes come from and go to in a trial.
type InMemory = Outside<MemSource, MemSink, MemShelf>;

fn push_word(alloc: Global, words: &mut Vec<String>, word: &str) -> Result<(), AllocError> {
    let word = String::from_str(alloc, word)?;
    words.push(word)?;
    Ok(())
}

fn words_of(alloc: Global, trial: &Trial) -> Result<Vec<String>, AllocError> {
    let mut words = Vec::new(alloc);
    for word in trial.words {
        push_word(alloc, &mut words, word)?;
    }
    Ok(words)
}

fn source_of(alloc: Global, trial: &Trial) -> Result<MemSource, AllocError> {
    let reads = Vec::from_slice(alloc, trial.reads)?;
    let input = Vec::from_slice(alloc, trial.input)?;
    Ok(MemSource::new(input, trial.cut, reads))
}

fn sink_of(alloc: Global, trial: &Trial) -> Result<MemSink, AllocError> {
    let writes = Vec::from_slice(alloc, trial.writes)?;
    Ok(MemSink::new(alloc, trial.cut, writes))
}

fn put_text(shelf: &mut MemShelf, trial: &Trial) -> Result<(), AllocError> {
    match trial.text {
        Some(text) => shelf.put(NAME, text),
        None => Ok(()),
    }
}

fn shelf_of(alloc: Global, trial: &Trial) -> Result<MemShelf, AllocError> {
    let calls = Vec::from_slice(alloc, trial.calls)?;
    let mut shelf = MemShelf::new(alloc, calls);
    put_text(&mut shelf, trial)?;
    Ok(shelf)
}

fn outside_of(alloc: Global, trial: &Trial) -> Result<InMemory, AllocError> {
    let source = source_of(alloc, trial)?;
    let sink = sink_of(alloc, trial)?;
    let shelf = shelf_of(alloc, trial)?;
    Ok(Outside {
        source,
        sink,
        shelf,
    })
}

// The exit status of the run.
fn with_probes<L: Ledger, M: Ledger>(
    rt: &HostRuntime,
    limit: u64,
    words: &[String],
    outside: &mut InMemory,
    reads: Steps<L>,
    probes: Blank,
) -> u8
    requires name { probes.name ≡ M.name }
    requires parts { probes.parts ≡ M.parts }
    requires some { 0 < probes.parts }
{
    let probes: Steps<M> = Steps::new(rt, probes);
    let counters = Counters { reads, probes };
    run_limited(rt.alloc(), limit, words, outside, counters)
        .status
        .code()
}

fn with_reads<L: Ledger>(
    rt: &HostRuntime,
    limit: u64,
    words: &[String],
    outside: &mut InMemory,
    reads: Blank,
    probes: Blank,
) -> u8
    requires name { reads.name ≡ L.name }
    requires parts { reads.parts ≡ L.parts }
    requires some { 0 < reads.parts }
    requires one { 0 < probes.parts }
{
    let reads: Steps<L> = Steps::new(rt, reads);
    with_probes::<_, Brand>(rt, limit, words, outside, reads, probes)
}

fn has_left(outside: &InMemory, output: &[u8], text: Option<&[u8]>) -> bool {
    outside.sink.bytes() == output && outside.shelf.get(NAME) == text
}

// Whether the run ends with this status, has written this, and leaves this text.
fn leaves(
    rt: &HostRuntime,
    trial: &Trial,
    status: u8,
    output: &[u8],
    text: Option<&[u8]>,
) -> Result<bool, AllocError> {
    let words = words_of(rt.alloc(), trial)?;
    let mut outside = outside_of(rt.alloc(), trial)?;
    let blank = Blank::new(1);
    let found = with_reads::<Brand>(rt, trial.limit, &words, &mut outside, blank, Blank::new(1));
    Ok(found == status && has_left(&outside, output, text))
}

// The run ends with this status, has written this, and leaves the text as it was.
pub(crate) fn assert_ends(
    rt: &impl Abort,
    host: &HostRuntime,
    trial: &Trial,
    status: u8,
    output: &[u8],
) -> Result<(), Fail> {
    assert_leaves(rt, host, trial, status, output, trial.text)
}

// The run ends with this status, has written this, and leaves this text.
pub(crate) fn assert_leaves(
    rt: &impl Abort,
    host: &HostRuntime,
    trial: &Trial,
    status: u8,
    output: &[u8],
    text: Option<&[u8]>,
) -> Result<(), Fail> {
    let right = leaves(host, trial, status, output, text)?;
    assert!(rt;
        right,
        "{} bytes of output under {} in pieces of {}",
        output.len(),
        trial.limit,
        trial.cut
    );
    Ok(())
}

#[test]
fn pieces_do_not_matter(rt: HostRuntime) -> Result<(), Fail> {
    for cut in 1..51 {
        let mut trial = plain_trial(INPUT);
        trial.cut = cut;
        assert_ends(&rt, &rt, &trial, 0, OUTPUT)?;
    }
    Ok(())
}

const BAD_WORDS: &[&[&'static str]] = &[
    &[],
    &["domino", "--help"],
    &["domino", "--session"],
    &["domino", "--gen", ""],
    &["domino", "--gen", "+1"],
    &["domino", "--gen", "1234567890"],
    &["domino", "--list", "1"],
    &["domino", "--gen", "1", "2"],
];

// Nothing is read with bad words, and the shelf isn't asked.
#[test]
fn words_of_no_form_are_bad(rt: HostRuntime) -> Result<(), Fail> {
    for &words in BAD_WORDS {
        let trial = trial_of(words, INPUT, None, &[1], &[1]);
        assert_ends(&rt, &rt, &trial, 1, b"bad words\n")?;
    }
    Ok(())
}

// What an independent program counts of the lines of number 1. Nothing is read, and the shelf isn't asked.
#[test]
fn the_lines_of_a_number_are_counted(rt: HostRuntime) -> Result<(), Fail> {
    let trial = trial_of(&["domino", "--gen", "1"], INPUT, None, &[1], &[1]);
    assert_ends(
        &rt,
        &rt,
        &trial,
        0,
        b"lines 887\nrefused 0\nbytes 32873\nsum 2014983\n",
    )
}

const SESSION: &[u8] = b"domino-session 2\nentries 2 clock 5\nclass car 9\ntick 5\nend\n";

// The text under the name of a session, the status, and what is written where `list` is the input.
const SESSIONS: &[(&[u8], u8, &[u8])] = &[
    (SESSION, 0, b"clock 5\nclass car 0/9\nok\n"),
    (b"domino-session 1\n# none\nend", 0, b"clock 0\nok\n"),
    (b"", 2, b"bad session 1\n"),
    (b"domino-session 3\nend\n", 2, b"bad session 1\n"),
    (b"domino-session 1\n", 2, b"bad session 2\n"),
    (
        b"domino-session 1\nsave \"s\"\nend\n",
        2,
        b"bad session 2\n",
    ),
    (
        b"domino-session 1\ndrop w\ntick 1\nend\n",
        2,
        b"bad session 2\n",
    ),
    (
        b"domino-session 1\ndrop w\nlist\nend\n",
        2,
        b"bad session 3\n",
    ),
    (b"domino-session 1\ndrop w\n", 2, b"bad session 3\n"),
    (
        b"domino-session 1\ntick 1\nlist\nend\n",
        2,
        b"bad session 3\n",
    ),
    (
        b"domino-session 1\ntick 1\ndrop w\nend\n",
        2,
        b"bad session 3\n",
    ),
    (b"domino-session 1\ntick 3\n end\n", 2, b"bad session 3\n"),
    (b"domino-session 1\nend\n# more\n", 2, b"bad session 3\n"),
    (
        b"domino-session 1\n\nclass car 9\ninsert boat a\nend\n",
        2,
        b"bad session 4\n",
    ),
    (b"domino-session 2\nentries 1\nend\n", 2, b"bad session 2\n"),
    (
        b"domino-session 2\nentries 00 clock 0\nend\n",
        2,
        b"bad session 2\n",
    ),
    (
        b"domino-session 2\nentries 0 clock 0\ntick 3\nend\n",
        2,
        b"bad session 3\n",
    ),
    (
        b"domino-session 2\nentries 1 clock 3\nend\ntick 3\nend\n",
        2,
        b"bad session 3\n",
    ),
    (
        b"domino-session 2\nentries 1 clock 3\ntick 3\ntick 1\nend\n",
        2,
        b"bad session 4\n",
    ),
    (
        b"domino-session 2\nentries 1 clock 4\ntick 3\nend\n",
        2,
        b"bad session 4\n",
    ),
    (
        b"domino-session 2\nentries 2 clock 3\ntick 3\nend\n",
        2,
        b"bad session 4\n",
    ),
];

// The words with the name of a session.
const STORED: &[&'static str] = &["domino", "--session", "text"];

#[test]
fn sessions_are_loaded_without_replies(rt: HostRuntime) -> Result<(), Fail> {
    for &(text, status, output) in SESSIONS {
        let trial = trial_of(STORED, b"list", Some(text), &[], &[]);
        assert_ends(&rt, &rt, &trial, status, output)?;
    }
    Ok(())
}

#[test]
fn a_session_that_is_not_there_is_bad(rt: HostRuntime) -> Result<(), Fail> {
    let trial = trial_of(STORED, b"list", None, &[], &[]);
    assert_ends(&rt, &rt, &trial, 2, b"bad session 0\n")
}

// A line that didn't end within the limit has no reply.
const LIMITED: &[(u64, &[u8], u8, &[u8])] = &[
    (0, INPUT, 7, b""),
    (23, INPUT, 7, b""),
    (24, INPUT, 7, b"ok\n"),
    (INPUT.len() as u64 - 1, INPUT, 7, b"ok\nok\n"),
    (INPUT.len() as u64, INPUT, 0, OUTPUT),
    (4, b"list\n", 7, b""),
    (5, b"list\n", 0, b"clock 0\nok\n"),
    (4, b"list", 0, b"clock 0\nok\n"),
    (1, b"\r", 0, b"refused 2 NotAscii\n"),
    (7, b"list\nlist\n", 7, b"clock 0\nok\n"),
    (4, b"quit\nlist\n", 7, b""),
    (5, b"quit\nlist\n", 0, b"ok\n"),
];

#[test]
fn bytes_past_the_limit_end_a_run(rt: HostRuntime) -> Result<(), Fail> {
    for &(limit, input, status, output) in LIMITED {
        let mut trial = plain_trial(input);
        trial.limit = limit;
        assert_ends(&rt, &rt, &trial, status, output)?;
    }
    Ok(())
}

// A read that fails, the input, the status, and what is written.
const FAILING_READS: &[(u64, &[u8], u8, &[u8])] = &[
    (1, INPUT, 3, b""),
    (2, INPUT, 3, b"ok\n"),
    (3, INPUT, 3, b"ok\nok\n"),
    (4, INPUT, 3, OUTPUT),
    (2, b"quit\n", 0, b"ok\n"),
];

// Reads of 40 bytes: the second one ends the second line.
#[test]
fn failing_reads_end_a_run(rt: HostRuntime) -> Result<(), Fail> {
    for &(read, input, status, output) in FAILING_READS {
        let mut trial = plain_trial(input);
        trial.cut = 40;
        let reads = [read];
        trial.reads = &reads;
        assert_ends(&rt, &rt, &trial, status, output)?;
    }
    Ok(())
}

const FAILING_WRITES: &[(u64, &[u8])] = &[(1, b""), (2, b"ok"), (3, b"ok\n"), (4, b"ok\nok")];

// Writes of 2 bytes: `ok`, and then a line feed.
#[test]
fn failing_writes_end_a_run(rt: HostRuntime) -> Result<(), Fail> {
    for &(write, output) in FAILING_WRITES {
        let mut trial = plain_trial(INPUT);
        trial.cut = 2;
        let writes = [write];
        trial.writes = &writes;
        assert_ends(&rt, &rt, &trial, 4, output)?;
    }
    Ok(())
}
