//! Each call of the outside fails in turn, and moves few bytes at a time.
use crate::runs::{Trial, assert_ends, assert_leaves, trial_of};
use std::alloc::{AllocError, Global};
use std::process::Abort;
use std::test::Fail;

const OK: &[u8] = b"ok\n";

const IMPORTED: &[u8] = b"gain w a : 10..20\ngain w b : 0..30\nenter w b\nok\n";

/// The lines of an import, each with its reply.
const LINES: &[(&[u8], &[u8])] = &[
    (b"class car 100 point\n", OK),
    (b"region P (10,-5) (20,-5) (20,5) (10,5)\n", OK),
    (b"watch w 30 RETRIEVE o FROM car o WHERE INSIDE(o,P)\n", OK),
    (b"import car \"text\"\n", IMPORTED),
    (b"tick 3\n", OK),
    (b"export car \"text\"\n", OK),
];

/// The replies to the lines.
const REPLIES: &[&[u8]] = &[OK, OK, OK, IMPORTED, OK, OK];

/// The text before the import, and after the export.
const ROWS: &[u8] = b"name,x,x.rate\na,0,1\nb,10,0\n";

const EXPORTED: &[u8] = b"name,x,x.rate,y,y.rate\na,3,1,0,0\nb,10,0,0,0\n";

/// The replies that are written together where all lines come in one read: none waits while a text is asked for.
const SENDS: &[&[u8]] = &[
    b"ok\nok\nok\n",
    b"gain w a : 10..20\ngain w b : 0..30\nenter w b\nok\nok\n",
    b"",
    b"",
    b"",
    b"ok\n",
];

/// The bytes of a read and of a write, and how many reads there are: the last one finds the end.
const CUTS: &[(usize, u64)] = &[(1, 154), (2, 78), (3, 52), (7, 23), (4096, 2)];

fn input(alloc: Global) -> Result<Vec<u8>, AllocError> {
    let mut input = Vec::new(alloc);
    for (line, _) in LINES {
        input.extend_from_slice(line)?;
    }
    Ok(input)
}

/// The replies to the lines that end within so many bytes.
fn replies_within(alloc: Global, taken: usize) -> Result<Vec<u8>, AllocError> {
    let mut replies = Vec::new(alloc);
    let mut end: usize = 0;
    for (line, reply) in LINES {
        end = end.saturating_add(line.len());
        if end <= taken {
            replies.extend_from_slice(reply)?;
        }
    }
    Ok(replies)
}

/// The lines of the import in pieces of some bytes, where these reads, writes and calls of the shelf fail.
fn import_trial<'a>(
    input: &'a [u8],
    cut: usize,
    reads: &'a [u64],
    writes: &'a [u64],
    calls: &'a [u64],
) -> Trial<'a> {
    let mut trial = trial_of(&["domino"], input, Some(ROWS), reads, calls);
    trial.cut = cut.max(1);
    trial.writes = writes;
    trial
}

fn come_in_pieces(
    rt: &impl Abort,
    host: &HostRuntime,
    input: &[u8],
    replies: &[u8],
) -> Result<(), Fail> {
    for &(cut, _) in CUTS {
        let trial = import_trial(input, cut, &[], &[], &[]);
        assert_leaves(rt, host, &trial, 0, replies, Some(EXPORTED))?;
    }
    Ok(())
}

#[test]
fn an_import_and_an_export_come_in_pieces(rt: HostRuntime) -> Result<(), Fail> {
    let input = input(rt.alloc())?;
    let replies = replies_within(rt.alloc(), input.len())?;
    come_in_pieces(&rt, &rt, &input, &replies)
}

// A read fails after so many bytes were taken.
fn fail_read(
    rt: &impl Abort,
    host: &HostRuntime,
    input: &[u8],
    cut: usize,
    number: u64,
    taken: usize,
) -> Result<(), Fail> {
    let replies = replies_within(host.alloc(), taken)?;
    let failing = [number];
    let trial = import_trial(input, cut, &failing, &[], &[]);
    let left = if taken < input.len() { ROWS } else { EXPORTED };
    assert_leaves(rt, host, &trial, 3, &replies, Some(left))
}

// The reads in pieces of some bytes fail in turn.
fn fail_reads(
    rt: &impl Abort,
    host: &HostRuntime,
    input: &[u8],
    cut: usize,
    reads: u64,
) -> Result<(), Fail> {
    let mut taken: usize = 0;
    for number in 1..=reads {
        fail_read(rt, host, input, cut, number, taken)?;
        taken = taken.saturating_add(cut);
    }
    Ok(())
}

fn fail_all_reads(rt: &impl Abort, host: &HostRuntime, input: &[u8]) -> Result<(), Fail> {
    for &(cut, reads) in CUTS {
        fail_reads(rt, host, input, cut, reads)?;
    }
    Ok(())
}

#[test]
fn each_read_of_an_import_fails(rt: HostRuntime) -> Result<(), Fail> {
    let input = input(rt.alloc())?;
    fail_all_reads(&rt, &rt, &input)
}

// The writes of one reply in pieces of some bytes fail in turn. `number` and `written` tell of those before.
fn fail_writes(
    rt: &impl Abort,
    host: &HostRuntime,
    input: &[u8],
    cut: usize,
    reply: &[u8],
    left: &[u8],
    number: &mut u64,
    written: &mut Vec<u8>,
) -> Result<(), Fail> {
    for piece in reply.chunks(cut.max(1)) {
        *number = number.saturating_add(1);
        let failing = [*number];
        let trial = import_trial(input, cut, &[], &failing, &[]);
        assert_leaves(rt, host, &trial, 4, written, Some(left))?;
        written.extend_from_slice(piece)?;
    }
    Ok(())
}

// The writes of all replies but the last one.
fn fail_others(
    rt: &impl Abort,
    host: &HostRuntime,
    input: &[u8],
    cut: usize,
    replies: &[&[u8]],
    number: &mut u64,
    written: &mut Vec<u8>,
) -> Result<(), Fail> {
    for &reply in replies {
        fail_writes(rt, host, input, cut, reply, ROWS, number, written)?;
    }
    Ok(())
}

// The writes of replies that are written one after the other; the text is written before the last one.
fn fail_replies_after(
    rt: &impl Abort,
    host: &HostRuntime,
    input: &[u8],
    cut: usize,
    replies: &[&[u8]],
    written: &mut Vec<u8>,
) -> Result<(), Fail> {
    let mut number = 0;
    match replies.split_last() {
        Some((last, others)) => {
            fail_others(rt, host, input, cut, others, &mut number, written)?;
            fail_writes(rt, host, input, cut, last, EXPORTED, &mut number, written)
        }
        None => Err("no reply".into()),
    }
}

fn fail_replies(
    rt: &impl Abort,
    host: &HostRuntime,
    input: &[u8],
    cut: usize,
    replies: &[&[u8]],
) -> Result<(), Fail> {
    let mut written = Vec::new(host.alloc());
    fail_replies_after(rt, host, input, cut, replies, &mut written)
}

fn fail_all_writes(rt: &impl Abort, host: &HostRuntime, input: &[u8]) -> Result<(), Fail> {
    for cut in [1, 2, 3, 7] {
        fail_replies(rt, host, input, cut, REPLIES)?;
    }
    fail_replies(rt, host, input, 4096, SENDS)
}

#[test]
fn each_write_of_an_import_fails(rt: HostRuntime) -> Result<(), Fail> {
    let input = input(rt.alloc())?;
    fail_all_writes(&rt, &rt, &input)
}

// A call of the shelf fails after so many bytes were taken.
fn fail_call(
    rt: &impl Abort,
    host: &HostRuntime,
    input: &[u8],
    cut: usize,
    call: u64,
    taken: usize,
) -> Result<(), Fail> {
    let replies = replies_within(host.alloc(), taken)?;
    let calls = [call];
    let trial = import_trial(input, cut, &[], &[], &calls);
    assert_ends(rt, host, &trial, 5, &replies)
}

// The first call is that of the import, and the second that of the export.
fn fail_calls(rt: &impl Abort, host: &HostRuntime, input: &[u8]) -> Result<(), Fail> {
    for &(cut, _) in CUTS {
        fail_call(rt, host, input, cut, 1, 110)?;
        fail_call(rt, host, input, cut, 2, 135)?;
    }
    Ok(())
}

#[test]
fn each_call_of_the_shelf_fails(rt: HostRuntime) -> Result<(), Fail> {
    let input = input(rt.alloc())?;
    fail_calls(&rt, &rt, &input)
}

const SAVED: &[u8] = b"domino-session 2\nentries 1 clock 0\nclass car 100 point\nend\n";

// The words, the input, the call that fails, and what is written.
const FAILING_CALLS: &[(&[&'static str], &[u8], u64, &[u8])] = &[
    (
        &["domino"],
        b"class car 100 point\nsave \"text\"\nlist\n",
        1,
        b"ok\n",
    ),
    (
        &["domino"],
        b"import car \"text\"\nexport car \"text\"\nimport car text\nsave \"text\"\n",
        1,
        b"refused 7 UnknownName\nrefused 7 UnknownName\nrefused 4 BadSyntax\n",
    ),
    (&["domino", "--session", "text"], b"list\n", 1, b""),
    (
        &["domino", "--session", "text"],
        b"tick 1\nsave \"text\"\nlist\n",
        2,
        b"ok\n",
    ),
    (
        &["domino", "--session", "text"],
        b"import car \"none\"\nexport car \"text\"\nlist\n",
        3,
        b"refused 19 NoFile\n",
    ),
];

// What is refused by the line or by what is held asks no shelf, and a text that was loaded was one call.
#[test]
fn a_failing_call_of_the_shelf_is_counted(rt: HostRuntime) -> Result<(), Fail> {
    for &(words, input, call, output) in FAILING_CALLS {
        let calls = [call];
        let trial = trial_of(words, input, Some(SAVED), &[], &calls);
        assert_ends(&rt, &rt, &trial, 5, output)?;
    }
    Ok(())
}

const CUT: &[u8] = b"domino-session 2\nentries 1 clock 0\nclass a 1\nend\n";

// The words with the name of a session.
const STORED: &[&'static str] = &["domino", "--session", "text"];

// A line of a cut session is bad.
fn assert_bad(rt: &impl Abort, host: &HostRuntime, cut: &[u8], line: u64) -> Result<(), Fail> {
    let output = format!(in host.alloc(); "bad session {line}\n")?;
    let trial = trial_of(STORED, b"list", Some(cut), &[], &[]);
    assert_ends(rt, host, &trial, 2, output.as_bytes())
}

// No line of it that is cut off is a command.
fn cut_session(rt: &impl Abort, host: &HostRuntime, cut: &mut Vec<u8>) -> Result<(), Fail> {
    let mut line: u64 = 1;
    for byte in CUT {
        if *byte == b'\n' {
            line = line.saturating_add(1);
        }
        if line < 5 {
            assert_bad(rt, host, cut, line)?;
        }
        cut.push(*byte)?;
    }
    Ok(())
}

#[test]
fn a_cut_session_is_bad_at_its_end(rt: HostRuntime) -> Result<(), Fail> {
    let mut cut = Vec::new(rt.alloc());
    cut_session(&rt, &rt, &mut cut)
}

#[test]
fn a_session_needs_no_last_line_feed(rt: HostRuntime) -> Result<(), Fail> {
    let trial = trial_of(STORED, b"list", Some(CUT.trim_ascii_end()), &[], &[]);
    assert_ends(&rt, &rt, &trial, 0, b"clock 0\nclass a 0/1\nok\n")
}
