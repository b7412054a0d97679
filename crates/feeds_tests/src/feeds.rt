//! Runs by the words, the input and the limit.
ghost use Rattle.std.specs.Prelude.{◌≡◌, ◌<◌};

use feeds_run::run_feeds_limited;
use outside::{MemSink, MemSource};
use std::alloc::AllocError;
use std::marker::Brand;
use std::process::Abort;
use std::sync::ledger::{Blank, Ledger};
use std::test::Fail;
use steps::Steps;

/// What is given to a run: the limit, the words, the input, the size of the pieces in which bytes come and go, and the
/// numbers of the reads and the writes that fail.
#[derive(Clone, Copy)]
pub(crate) struct Trial<'a> {
    pub(crate) limit: u64,
    pub(crate) words: &'a [&'static str],
    pub(crate) input: &'a [u8],
    pub(crate) cut: usize,
    pub(crate) reads: &'a [u64],
    pub(crate) writes: &'a [u64],
    ghost moves: { 0 < cut },
}

pub(crate) const USERS: &[&'static str] = &["feeds"];

pub(crate) const REPLICA: &[&'static str] = &["feeds", "replica", "w"];

pub(crate) fn trial_of<'a>(words: &'a [&'static str], input: &'a [u8]) -> Trial<'a> {
    Trial {
        limit: 1_000_000,
        words,
        input,
        cut: 100,
        reads: &[],
        writes: &[],
    }
}

/// The exit status of the run, and what it wrote.
type Outcome = (u8, Vec<u8>);

fn outcome(rt: &HostRuntime, trial: &Trial) -> Result<Outcome, AllocError> {
    with_reads::<Brand>(rt, trial, Blank::new(1), Blank::new(1))
}

fn with_reads<L: Ledger>(
    rt: &HostRuntime,
    trial: &Trial,
    reads: Blank,
    probes: Blank,
) -> Result<Outcome, AllocError>
    requires name { reads.name ≡ L.name }
    requires parts { reads.parts ≡ L.parts }
    requires some { 0 < reads.parts }
    requires one { 0 < probes.parts }
{
    let reads: Steps<L> = Steps::new(rt, reads);
    with_probes::<_, Brand>(rt, trial, reads, probes)
}

fn with_probes<L: Ledger, M: Ledger>(
    rt: &HostRuntime,
    trial: &Trial,
    reads: Steps<L>,
    probes: Blank,
) -> Result<Outcome, AllocError>
    requires name { probes.name ≡ M.name }
    requires parts { probes.parts ≡ M.parts }
    requires some { 0 < probes.parts }
{
    let probes: Steps<M> = Steps::new(rt, probes);
    let alloc = rt.alloc();
    let mut words = Vec::new(alloc);
    for word in trial.words {
        words.push(String::from_str(alloc, word)?)?;
    }
    let mut source = MemSource::new(
        Vec::from_slice(alloc, trial.input)?,
        trial.cut,
        Vec::from_slice(alloc, trial.reads)?,
    );
    let mut sink = MemSink::new(alloc, trial.cut, Vec::from_slice(alloc, trial.writes)?);
    let status = run_feeds_limited(
        alloc,
        trial.limit,
        &words,
        &mut source,
        &mut sink,
        reads,
        probes,
    );
    Ok((status.code(), Vec::from_slice(alloc, sink.bytes())?))
}

/// The run ends with this status, and has written this.
pub(crate) fn assert_ends(
    rt: &impl Abort,
    host: &HostRuntime,
    trial: &Trial,
    status: u8,
    output: &[u8],
) -> Result<(), Fail> {
    let (found, written) = outcome(host, trial)?;
    assert_eq!(rt;
        found,
        status,
        "under {} in pieces of {}",
        trial.limit, trial.cut
    );
    assert_eq!(rt;
        written.as_slice(),
        output,
        "under {} in pieces of {}",
        trial.limit,
        trial.cut
    );
    Ok(())
}

/// Two users of one world, one of whom watches it.
pub(crate) const SHARED: &[u8] =
    b"ann class car 9 point\nbob insert car a\nann watch w 10 RETRIEVE o FROM car o WHERE TRUE\nbob show w\nbob tick 4\nbob remove a\n";

pub(crate) const TOLD: &[u8] =
    b"ann ok\nbob ok\nann start w watch 0\nann now a : 0..10\nann ok\nbob refused 7 UnknownName\nann clock 4\nbob clock 4\nbob ok\nann lose w a : 4..10\nann leave w a\nbob ok\n";

/// What the first of them is told up to the tick, and after it.
pub(crate) const HEARD: &[u8] = b"ok\nstart w watch 0\nnow a : 0..10\nok\nclock 4\n";

pub(crate) const HEARD_ALL: &[u8] =
    b"ok\nstart w watch 0\nnow a : 0..10\nok\nclock 4\nlose w a : 4..10\nleave w a\n";

pub(crate) const CUTS: [usize; 7] = [1, 2, 3, 7, 40, 153, 4096];

#[test]
fn users_are_told_in_pieces_of_any_size(rt: HostRuntime) -> Result<(), Fail> {
    for cut in CUTS {
        let mut trial = trial_of(USERS, SHARED);
        trial.cut = cut;
        assert_ends(&rt, &rt, &trial, 0, TOLD)?;
    }
    Ok(())
}

#[test]
fn a_replica_follows_in_pieces_of_any_size(rt: HostRuntime) -> Result<(), Fail> {
    for cut in CUTS {
        let mut trial = trial_of(REPLICA, HEARD);
        trial.cut = cut;
        assert_ends(&rt, &rt, &trial, 0, b"a : 4..10\n")?;
        trial.input = HEARD_ALL;
        assert_ends(&rt, &rt, &trial, 0, b"")?;
    }
    Ok(())
}

const BAD_WORDS: &[&[&'static str]] = &[
    &[],
    &["feeds", "--help"],
    &["feeds", "replica"],
    &["feeds", "w"],
    &["feeds", "copy", "w"],
    &["feeds", "--session", "w"],
    &["feeds", "replica", "w", "v"],
];

// Nothing is read with bad words.
#[test]
fn words_of_no_form_are_bad(rt: HostRuntime) -> Result<(), Fail> {
    for &words in BAD_WORDS {
        let mut trial = trial_of(words, SHARED);
        trial.reads = &[1];
        assert_ends(&rt, &rt, &trial, 1, b"bad words\n")?;
    }
    Ok(())
}

// The words, the input and the output.
const OTHER_WORDS: &[(&[&'static str], &[u8], &[u8])] = &[
    (&[""], b"ann tick 1", b"ann clock 1\nann ok\n"),
    (&["", "replica", "w"], HEARD, b"a : 4..10\n"),
    (&["feeds", "replica", ""], HEARD, b""),
    (&["feeds", "replica", "no name"], HEARD, b""),
];

// The first word isn't compared, and any word may be the query's name.
#[test]
fn other_words_ask_for_users_or_for_a_replica(rt: HostRuntime) -> Result<(), Fail> {
    for &(words, input, output) in OTHER_WORDS {
        let trial = trial_of(words, input);
        assert_ends(&rt, &rt, &trial, 0, output)?;
    }
    Ok(())
}

// The limit, the words, the input, the status and the output. A line that didn't end within the limit has no reply, a `quit`
// ends nothing, and a bad feed within the limit goes before it.
const LIMITED: &[(u64, &[&'static str], &[u8], u8, &[u8])] = &[
    (0, USERS, SHARED, 7, b""),
    (21, USERS, SHARED, 7, b""),
    (22, USERS, SHARED, 7, b"ann ok\n"),
    (SHARED.len() as u64, USERS, SHARED, 0, TOLD),
    (10, USERS, b"ann tick 1", 0, b"ann clock 1\nann ok\n"),
    (9, USERS, b"ann tick 1", 7, b""),
    (
        20,
        USERS,
        b"ann quit\nann tick 1\nann list\n",
        7,
        b"ann refused 4 BadSyntax\nann clock 1\nann ok\n",
    ),
    (0, USERS, b"", 0, b""),
    (0, REPLICA, b"", 0, b""),
    (HEARD.len() as u64, REPLICA, HEARD, 0, b"a : 4..10\n"),
    (HEARD.len() as u64, REPLICA, HEARD_ALL, 7, b""),
    (0, REPLICA, HEARD, 7, b""),
    (12, REPLICA, b"ok\nclock 04\nok\n", 2, b"bad feed 2\n"),
    (11, REPLICA, b"ok\nclock 04\nok\n", 7, b""),
    (12, REPLICA, b"ok\nclock 4\nclock", 7, b""),
    (16, REPLICA, b"ok\nclock 4\nclock", 2, b"bad feed 3\n"),
];

#[test]
fn bytes_past_the_limit_end_a_run(rt: HostRuntime) -> Result<(), Fail> {
    for &(limit, words, input, status, output) in LIMITED {
        let mut trial = trial_of(words, input);
        trial.limit = limit;
        assert_ends(&rt, &rt, &trial, status, output)?;
    }
    Ok(())
}

// Lines of others, a carriage return, rows in the order of bytes, a query that is started again, and lines without their form.
const FEEDS: &[(&[u8], u8, &[u8])] = &[
    (
        b"start w keep 3\r\nlater b c : 5..6 8..9\r\npast a : 0..0\nok\ngain w b c : 7..7\nclock 4",
        0,
        b"a : 0..0\nb c : 5..9\n",
    ),
    (b"start v watch 0\nnow a : 0..10\nok\n", 0, b""),
    (b"start w watch 0\nok\nstop w\ngain w a : 0..1\n", 0, b""),
    (b"start w watch 00\n", 2, b"bad feed 1\n"),
    (b"\ngain w a : 5..3\n", 2, b"bad feed 2\n"),
    (b"clock 5\nclock\nclock\n", 2, b"bad feed 2\n"),
    (b"stop w x", 2, b"bad feed 1\n"),
    (b"gain v a : 5..3\nlose\nnow a : x\n", 0, b""),
];

#[test]
fn feeds_are_followed_or_bad(rt: HostRuntime) -> Result<(), Fail> {
    for &(input, status, output) in FEEDS {
        let trial = trial_of(REPLICA, input);
        assert_ends(&rt, &rt, &trial, status, output)?;
    }
    Ok(())
}
