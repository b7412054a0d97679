//! Each call of the outside fails in turn, and moves few bytes at a time.
ghost use Rattle.std.specs.Prelude.{◌<◌};

use crate::feeds::{HEARD, REPLICA, SHARED, Trial, USERS, assert_ends, trial_of};
use std::alloc::{AllocError, Global};
use std::process::Abort;
use std::test::Fail;

/// The lines of two users, each with what is told of it.
const LINES: &[(&[u8], &[u8])] = &[
    (b"ann class car 9 point\n", b"ann ok\n"),
    (b"bob insert car a\n", b"bob ok\n"),
    (
        b"ann watch w 10 RETRIEVE o FROM car o WHERE TRUE\n",
        b"ann start w watch 0\nann now a : 0..10\nann ok\n",
    ),
    (b"bob show w\n", b"bob refused 7 UnknownName\n"),
    (b"bob tick 4\n", b"ann clock 4\nbob clock 4\nbob ok\n"),
    (
        b"bob remove a\n",
        b"ann lose w a : 4..10\nann leave w a\nbob ok\n",
    ),
];

/// The bytes of a read and of a write, and how many reads the lines take: the last one finds the end.
const CUTS: [(usize, u64); 5] = [(1, 123), (2, 62), (3, 42), (7, 19), (4096, 2)];

/// What is told of the lines that end within so many bytes.
fn told_within(alloc: Global, taken: usize) -> Result<Vec<u8>, AllocError> {
    let mut told = Vec::new(alloc);
    let mut end: usize = 0;
    for (line, text) in LINES {
        end = end.saturating_add(line.len());
        if end <= taken {
            told.extend_from_slice(text)?;
        }
    }
    Ok(told)
}

// A trial in pieces of some bytes, where one read fails.
fn failing_read<'a>(
    words: &'a [&'static str],
    input: &'a [u8],
    cut: usize,
    reads: &'a [u64],
) -> Trial<'a>
    requires { 0 < cut }
{
    let mut trial = trial_of(words, input);
    trial.cut = cut;
    trial.reads = reads;
    trial
}

// The reads in pieces of some bytes fail in turn.
fn fail_reads(rt: &impl Abort, host: &HostRuntime, cut: usize, reads: u64) -> Result<(), Fail>
    requires { 0 < cut }
{
    let mut taken: usize = 0;
    for number in 1..=reads {
        let told = told_within(host.alloc(), taken)?;
        let failing = [number];
        let trial = failing_read(USERS, SHARED, cut, &failing);
        assert_ends(rt, host, &trial, 3, &told)?;
        taken = taken.saturating_add(cut);
    }
    Ok(())
}

#[test]
fn each_read_of_users_fails(rt: HostRuntime) -> Result<(), Fail> {
    for (cut, reads) in CUTS {
        fail_reads(&rt, &rt, cut, reads)?;
    }
    Ok(())
}

// A trial in pieces of some bytes, where one write fails.
fn failing_write<'a>(
    words: &'a [&'static str],
    input: &'a [u8],
    cut: usize,
    writes: &'a [u64],
) -> Trial<'a>
    requires { 0 < cut }
{
    let mut trial = trial_of(words, input);
    trial.cut = cut;
    trial.writes = writes;
    trial
}

// A write fails after so many bytes were written.
fn fail_write(
    rt: &impl Abort,
    host: &HostRuntime,
    words: &[&'static str],
    input: &[u8],
    cut: usize,
    number: u64,
    written: &[u8],
) -> Result<(), Fail>
    requires { 0 < cut }
{
    let failing = [number];
    let trial = failing_write(words, input, cut, &failing);
    assert_ends(rt, host, &trial, 4, written)
}

// The writes of what is told of one line in pieces of some bytes fail in turn. `number` and `written` tell of those before.
fn fail_told(
    rt: &impl Abort,
    host: &HostRuntime,
    cut: usize,
    told: &[u8],
    number: &mut u64,
    written: &mut Vec<u8>,
) -> Result<(), Fail>
    requires { 0 < cut }
{
    for piece in told.chunks(cut) {
        *number = number.saturating_add(1);
        fail_write(rt, host, USERS, SHARED, cut, *number, written)?;
        written.extend_from_slice(piece)?;
    }
    Ok(())
}

// Few bytes come at a time, so what is told of a line is written alone.
#[test]
fn each_write_of_users_fails(rt: HostRuntime) -> Result<(), Fail> {
    for cut in [1, 2, 3, 7] {
        let mut number = 0;
        let mut written = Vec::new(rt.alloc());
        for (_, told) in LINES {
            fail_told(&rt, &rt, cut, told, &mut number, &mut written)?;
        }
    }
    fail_write(&rt, &rt, USERS, SHARED, 4096, 1, b"")
}

// A read that fails, the status, and what is written.
const AFTER_A_BAD_LINE: &[(u64, u8, &[u8])] = &[
    (1, 3, b""),
    (2, 3, b""),
    (3, 2, b"bad feed 2\n"),
    (4, 2, b"bad feed 2\n"),
];

// A replica has written nothing where a read fails, and is bad before it where a line without its form came before.
#[test]
fn each_read_of_a_replica_fails(rt: HostRuntime) -> Result<(), Fail> {
    for number in 1..=8 {
        let failing = [number];
        let trial = failing_read(REPLICA, HEARD, 7, &failing);
        assert_ends(&rt, &rt, &trial, 3, b"")?;
    }
    for &(number, status, output) in AFTER_A_BAD_LINE {
        let failing = [number];
        let trial = failing_read(REPLICA, b"ok\nclock 04\nok\nok\n", 7, &failing);
        assert_ends(&rt, &rt, &trial, status, output)?;
    }
    Ok(())
}

#[test]
fn each_write_of_a_replica_fails(rt: HostRuntime) -> Result<(), Fail> {
    let rows = [b"a :".as_slice(), b" 4.", b".10", b"\n"];
    let mut number: u64 = 0;
    let mut written = Vec::new(rt.alloc());
    for piece in rows {
        number = number.saturating_add(1);
        fail_write(&rt, &rt, REPLICA, HEARD, 3, number, &written)?;
        written.extend_from_slice(piece)?;
    }
    Ok(())
}

// The words, the input, the write that fails, and what is written before it.
const BAD_WRITES: &[(&[&'static str], &[u8], u64, &[u8])] = &[
    (&["feeds", "replica"], b"", 1, b""),
    (&["feeds", "replica"], b"", 3, b"bad wo"),
    (REPLICA, b"clock 04\n", 1, b""),
    (REPLICA, b"clock 04\n", 4, b"bad feed "),
];

// What is said of bad words, and of a bad feed.
#[test]
fn writes_of_what_is_bad_fail(rt: HostRuntime) -> Result<(), Fail> {
    for &(words, input, number, written) in BAD_WRITES {
        fail_write(&rt, &rt, words, input, 3, number, written)?;
    }
    Ok(())
}
