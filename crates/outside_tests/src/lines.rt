ghost use Rattle.std.specs.Prelude.{◌≡◌, ◌<◌, ◌++◌, ◌∷◌, ◌||◌, [], Bool, ℕ, List, None, Some, true, false, length, nat_lt, codes, if◌then◌else◌};
ghost use Rattle.outside.specs.declared.fault.OutFail.TheVariants.{Failed, NoMemory};
ghost use Rattle.std.specs.Str.{bytes_eq};

use line_loop::{Ending, Handler, run_lines};
use outside::{MemShelf, MemSink, MemSource, OutFail, Shelf};
use std::alloc::{AllocError, Global};
use std::process::Abort;
use std::test::Fail;

// A machine that says each line again, calls one longer than 8 bytes long, and is done after `quit`. It asks the shelf
// at each line `ask`.
#[derive(Drop)]
struct Echo {
    done: bool,
}

impl Handler<MemShelf> for Echo {
    ghost State = { Bool };

    ghost machine = { record {
      next = λ done line. if nat_lt 8 (length line) then done else (done || bytes_eq line (codes "quit"));
      reply = λ done line. if nat_lt 8 (length line) then codes "long" ++ 10 ∷ [] else line ++ 10 ∷ [];
      done = λ done. done;
    } };

    ghost state = { λ echo _. Some echo.done };

    ghost faults = { λ shelf. shelf.plan.faults };

    ghost leaves = { λ fail before line told. (fail ≡ Failed → bytes_eq line (codes "ask") ≡ true) × (told ≡ Some before) };

    ghost spent = { λ echo. 0 };

    ghost cost = { λ done line. 0 };

    ghost LONGEST = { Some 8 };

    const LONGEST: Option<u32> = Some(8);

    fn is_done(&self) -> bool {
        self.done
    }

    fn asks(&self, line: &[u8]) -> bool {
        line == b"ask".as_slice()
    }

    fn answer(
        &mut self,
        line: &[u8],
        shelf: &mut MemShelf,
        out: &mut Vec<u8>,
    ) -> Result<(), OutFail> {
        if line.len() > 8 {
            out.extend_from_slice(b"long\n")?;
            return Ok(());
        }
        if line == b"ask".as_slice() {
            let _ = shelf.fetch(line)?;
        }
        out.extend_from_slice(line)?;
        out.push(b'\n').map_err(|_| OutFail::NoMemory)?;
        if line == b"quit".as_slice() {
            self.done = true;
        }
        Ok(())
    }

    fn long_lines_step_alike() {}
}

// The input with its limit, the size of the pieces in which the bytes come and go, and the numbers of the reads, the
// writes and the fetches that fail.
#[derive(Clone, Copy)]
struct Run<'a> {
    limit: u64,
    input: &'a [u8],
    cut: usize,
    fail: [&'a [u64]; 3],
}

fn source_of(alloc: Global, run: &Run) -> Result<MemSource, AllocError> {
    let fail = run.fail[0].to_vec(alloc)?;
    let input = run.input.to_vec(alloc)?;
    Ok(MemSource::new(input, run.cut.max(1), fail))
}

fn sink_of(alloc: Global, run: &Run) -> Result<MemSink, AllocError> {
    let fail = run.fail[1].to_vec(alloc)?;
    Ok(MemSink::new(alloc, run.cut.max(1), fail))
}

fn shelf_of(alloc: Global, run: &Run) -> Result<MemShelf, AllocError> {
    let fail = run.fail[2].to_vec(alloc)?;
    Ok(MemShelf::new(alloc, fail))
}

fn ends_over(
    alloc: Global,
    limit: u64,
    source: &mut MemSource,
    sink: &mut MemSink,
    shelf: &mut MemShelf,
) -> Ending {
    let mut echo = Echo { done: false };
    run_lines(alloc, limit, &mut echo, source, sink, shelf)
}

// How the run ends, where its output goes to a sink.
fn ends_into(
    alloc: Global,
    run: &Run,
    source: &mut MemSource,
    sink: &mut MemSink,
) -> Result<Ending, AllocError> {
    let mut shelf = shelf_of(alloc, run)?;
    Ok(ends_over(alloc, run.limit, source, sink, &mut shelf))
}

fn ends_from(alloc: Global, run: &Run, sink: &mut MemSink) -> Result<Ending, AllocError> {
    let mut source = source_of(alloc, run)?;
    ends_into(alloc, run, &mut source, sink)
}

// Whether the run ends so, with this output.
fn ends_with(alloc: Global, run: &Run, ending: Ending, output: &[u8]) -> Result<bool, AllocError> {
    let mut sink = sink_of(alloc, run)?;
    let came = ends_from(alloc, run, &mut sink)?;
    Ok(came == ending && sink.bytes() == output)
}

const NONE: [&[u64]; 3] = [&[], &[], &[]];

// A carriage return that ends a line is dropped, one that doesn't stays. A line of 8 bytes is no long one, also with the
// carriage return after it. The last line has no line feed.
const LINES: &[u8] =
    b"one\r\n\n12345678\r\n123456789\ntwo\r\r\nsix\rty\n\r\nthree and thirty and three\nlast\r";

const REPLIES: &[u8] = b"one\n\n12345678\nlong\ntwo\r\nsix\rty\n\nlong\nlast\r\n";

fn is_answered(alloc: Global, cut: usize) -> Result<bool, AllocError> {
    let run = Run {
        limit: 1000,
        input: LINES,
        cut,
        fail: NONE,
    };
    ends_with(alloc, &run, Ending::Done, REPLIES)
}

#[test]
fn pieces_of_any_size_give_the_same_output(rt: HostRuntime) -> Result<(), Fail> {
    for cut in 1..=50 {
        let right = is_answered(rt.alloc(), cut)?;
        assert!(rt; right, "in pieces of {cut}");
    }
    Ok(())
}

// A limit and an input, how the run ends, and its output.
type Limited = (u64, &'static [u8], Ending, &'static [u8]);

const ENDINGS: &[Limited] = &[
    // The whole input, up to the limit.
    (9, b"", Ending::Done, b""),
    (0, b"", Ending::Done, b""),
    (9, b"\n", Ending::Done, b"\n"),
    (3, b"a\nb", Ending::Done, b"a\nb\n"),
    (4, b"a\nb\n", Ending::Done, b"a\nb\n"),
    // One byte more: an unfinished line has no reply.
    (0, b"a", Ending::InputLimit, b""),
    (2, b"a\nb", Ending::InputLimit, b"a\n"),
    (3, b"a\nb\n", Ending::InputLimit, b"a\n"),
    (3, b"a\nquit", Ending::InputLimit, b"a\n"),
    // A last line ends the run.
    (5, b"quit\na\nb", Ending::Done, b"quit\n"),
    (9, b"a\nquit\nb\nc\nd\n", Ending::Done, b"a\nquit\n"),
    (4, b"quit", Ending::Done, b"quit\n"),
];

fn ends_within(alloc: Global, row: &Limited, cut: usize) -> Result<bool, AllocError> {
    let run = Run {
        limit: row.0,
        input: row.1,
        cut,
        fail: NONE,
    };
    ends_with(alloc, &run, row.2, row.3)
}

fn end_as_they_are_to(rt: &impl Abort, alloc: Global, cut: usize) -> Result<(), AllocError> {
    for (place, row) in ENDINGS.iter().enumerate() {
        let right = ends_within(alloc, row, cut)?;
        assert!(rt; right, "row {place} in pieces of {cut}");
    }
    Ok(())
}

#[test]
fn runs_end_as_they_are_to(rt: HostRuntime) -> Result<(), Fail> {
    for cut in [1, 3, 100] {
        end_as_they_are_to(&rt, rt.alloc(), cut)?;
    }
    Ok(())
}

// In pieces of 3: six reads, of which the last finds the end, seven writes and two fetches.
const ASKS: &[u8] = b"ask\ntwelve\nask";

// In one piece: one read, and two writes, before the line that asks and at the end of what was read.
const TOGETHER: &[u8] = b"a\nb\nask\nc\n";

// An input in pieces, the calls that fail, how the run ends, and its output.
type Failing = (
    &'static [u8],
    usize,
    [&'static [u64]; 3],
    Ending,
    &'static [u8],
);

const FAILING: &[Failing] = &[
    (ASKS, 3, [&[1], &[], &[]], Ending::ReadFault, b""),
    (ASKS, 3, [&[2], &[], &[]], Ending::ReadFault, b""),
    (ASKS, 3, [&[3], &[], &[]], Ending::ReadFault, b"ask\n"),
    (ASKS, 3, [&[4], &[], &[]], Ending::ReadFault, b"ask\n"),
    (
        ASKS,
        3,
        [&[5], &[], &[]],
        Ending::ReadFault,
        b"ask\ntwelve\n",
    ),
    (
        ASKS,
        3,
        [&[6], &[], &[]],
        Ending::ReadFault,
        b"ask\ntwelve\n",
    ),
    (
        ASKS,
        3,
        [&[7], &[8], &[3]],
        Ending::Done,
        b"ask\ntwelve\nask\n",
    ),
    (ASKS, 3, [&[], &[1], &[]], Ending::WriteFault, b""),
    (ASKS, 3, [&[], &[2], &[]], Ending::WriteFault, b"ask"),
    (ASKS, 3, [&[], &[3], &[]], Ending::WriteFault, b"ask\n"),
    (
        ASKS,
        3,
        [&[], &[7], &[]],
        Ending::WriteFault,
        b"ask\ntwelve\nask",
    ),
    (ASKS, 3, [&[], &[], &[1]], Ending::ContextFault, b""),
    (
        ASKS,
        3,
        [&[], &[], &[2]],
        Ending::ContextFault,
        b"ask\ntwelve\n",
    ),
    (
        TOGETHER,
        100,
        [&[], &[], &[1]],
        Ending::ContextFault,
        b"a\nb\n",
    ),
    (TOGETHER, 100, [&[], &[1], &[]], Ending::WriteFault, b""),
    (
        TOGETHER,
        100,
        [&[], &[2], &[]],
        Ending::WriteFault,
        b"a\nb\n",
    ),
    (
        TOGETHER,
        100,
        [&[], &[3], &[]],
        Ending::Done,
        b"a\nb\nask\nc\n",
    ),
    (
        TOGETHER,
        100,
        [&[2], &[], &[]],
        Ending::ReadFault,
        b"a\nb\nask\nc\n",
    ),
];

fn ends_by_a_failure(alloc: Global, row: &Failing) -> Result<bool, AllocError> {
    let run = Run {
        limit: 100,
        input: row.0,
        cut: row.1,
        fail: row.2,
    };
    ends_with(alloc, &run, row.3, row.4)
}

#[test]
fn failing_calls_end_a_run(rt: HostRuntime) -> Result<(), Fail> {
    for (place, row) in FAILING.iter().enumerate() {
        let right = ends_by_a_failure(rt.alloc(), row)?;
        assert!(rt; right, "row {place}");
    }
    Ok(())
}

// The bytes of `fill`, so many of them, and then the others.
fn filled(alloc: Global, fill: u8, count: usize, rest: &[u8]) -> Result<Vec<u8>, AllocError> {
    let mut bytes = vec![in alloc; fill; count]?;
    bytes.extend_from_slice(rest)?;
    Ok(bytes)
}

// Whether the bytes, in pieces of 5000, end so.
fn long_input_ends(
    alloc: Global,
    input: &[u8],
    limit: u64,
    ending: Ending,
    output: &[u8],
) -> Result<bool, AllocError> {
    let run = Run {
        limit,
        input,
        cut: 5_000,
        fail: NONE,
    };
    ends_with(alloc, &run, ending, output)
}

fn long_lines_end(alloc: Global) -> Result<bool, AllocError> {
    let input = filled(alloc, b'x', 10_000, b"\nshort\nyyyyyyyyy")?;
    long_input_ends(alloc, &input, 100_000, Ending::Done, b"long\nshort\nlong\n")
}

#[test]
fn long_lines_are_answered(rt: HostRuntime) -> Result<(), Fail> {
    let right = long_lines_end(rt.alloc())?;
    assert!(rt; right);
    Ok(())
}

fn long_input_ends_at_its_limit(alloc: Global) -> Result<bool, AllocError> {
    let input = filled(alloc, b'\n', 9_000, b"")?;
    match input.get(..8_000) {
        Some(output) => long_input_ends(alloc, &input, 8_000, Ending::InputLimit, output),
        None => Ok(false),
    }
}

#[test]
fn long_inputs_are_answered_up_to_their_limit(rt: HostRuntime) -> Result<(), Fail> {
    let right = long_input_ends_at_its_limit(rt.alloc())?;
    assert!(rt; right);
    Ok(())
}

// A machine that says each line again, however long it is.
#[derive(Drop)]
struct Mirror;

impl Handler<MemShelf> for Mirror {
    ghost State = { Unit {0} };

    ghost machine = { record {
      next = λ now line. now;
      reply = λ now line. line ++ 10 ∷ [];
      done = λ now. false;
    } };

    ghost state = { λ mirror _. Some tt };

    ghost faults = { λ shelf. shelf.plan.faults };

    ghost leaves = { λ fail before line told. fail ≡ NoMemory };

    ghost spent = { λ mirror. 0 };

    ghost cost = { λ now line. 0 };

    ghost LONGEST = { None };

    const LONGEST: Option<u32> = None;

    fn is_done(&self) -> bool {
        false
    }

    fn asks(&self, line: &[u8]) -> bool {
        false
    }

    fn answer(&mut self, line: &[u8], _: &mut MemShelf, out: &mut Vec<u8>) -> Result<(), OutFail> {
        out.extend_from_slice(line)?;
        out.push(b'\n').map_err(|_| OutFail::NoMemory)
    }

    fn long_lines_step_alike() {}
}

// Whether a sink has the input after it was mirrored.
fn mirrors(alloc: Global, input: &[u8], source: &mut MemSource, sink: &mut MemSink) -> bool {
    let mut shelf = MemShelf::new(alloc, Vec::new(alloc));
    let ending = run_lines(alloc, 20_000, &mut Mirror, source, sink, &mut shelf);
    ending == Ending::Done && sink.bytes() == input
}

fn is_mirrored(alloc: Global, input: &[u8]) -> Result<bool, AllocError> {
    let bytes = input.to_vec(alloc)?;
    let mut source = MemSource::new(bytes, 3_000, Vec::new(alloc));
    let mut sink = MemSink::new(alloc, 5_000, Vec::new(alloc));
    Ok(mirrors(alloc, input, &mut source, &mut sink))
}

fn a_long_line_is_mirrored(alloc: Global) -> Result<bool, AllocError> {
    let input = filled(alloc, b'x', 10_000, b"\n")?;
    is_mirrored(alloc, &input)
}

#[test]
fn lines_may_have_no_longest(rt: HostRuntime) -> Result<(), Fail> {
    let right = a_long_line_is_mirrored(rt.alloc())?;
    assert!(rt; right);
    Ok(())
}
