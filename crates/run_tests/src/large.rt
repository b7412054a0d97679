//! Questions over many objects, whose answers follow from where the objects are.
use crate::limits;
use crate::runs::{assert_ends, plain_trial};
use domino_run::INPUT_LIMIT;
use std::alloc::{AllocError, Global};
use std::process::Abort;
use std::test::Fail;

/// Appends a line for each number below `count`, with these texts around the number.
pub(crate) fn push_lines(
    alloc: Global,
    out: &mut Vec<u8>,
    count: u32,
    before: &str,
    after: &str,
) -> Result<(), AllocError> {
    for number in 0..count {
        let line = format!(in alloc; "{before}{number}{after}\n")?;
        out.extend_from_slice(line.as_bytes())?;
    }
    Ok(())
}

/// Appends a text so many times.
pub(crate) fn push_times(out: &mut Vec<u8>, count: u32, text: &[u8]) -> Result<(), AllocError> {
    for _ in 0..count {
        out.extend_from_slice(text)?;
    }
    Ok(())
}

/// Appends `ok` so many times.
pub(crate) fn push_oks(out: &mut Vec<u8>, count: u32) -> Result<(), AllocError> {
    push_times(out, count, b"ok\n")
}

// The input is read whole, and answered with this output.
fn assert_answers(
    rt: &impl Abort,
    host: &HostRuntime,
    input: &[u8],
    output: &[u8],
) -> Result<(), Fail> {
    let mut trial = plain_trial(input);
    trial.limit = INPUT_LIMIT;
    trial.cut = 65_536;
    assert_ends(rt, host, &trial, 0, output)
}

/// Large inputs.
#[derive(Clone, Copy)]
pub(crate) enum Question {
    Ticks,
    Passing,
    Pairs,
    Turns,
    Meetings,
    Names,
    Entries,
}

fn push_input(alloc: Global, question: Question, input: &mut Vec<u8>) -> Result<(), AllocError> {
    match question {
        Question::Ticks => push_ticks(alloc, input),
        Question::Passing => push_passing(alloc, input),
        Question::Pairs => push_pairs(alloc, input),
        Question::Turns => push_turning(alloc, input),
        Question::Meetings => push_meeting(alloc, input),
        Question::Names => limits::push_names(alloc, input),
        Question::Entries => limits::push_entries(input),
    }
}

fn push_output(alloc: Global, question: Question, output: &mut Vec<u8>) -> Result<(), AllocError> {
    match question {
        Question::Ticks => push_ticks_replies(alloc, output),
        Question::Passing => push_passing_replies(alloc, output),
        Question::Pairs => push_pairs_replies(output),
        Question::Turns => push_turning_replies(alloc, output),
        Question::Meetings => push_meeting_replies(alloc, output),
        Question::Names => limits::push_names_replies(output),
        Question::Entries => limits::push_entries_replies(output),
    }
}

/// The input is read whole, and answered.
pub(crate) fn assert_answered(
    rt: &impl Abort,
    host: &HostRuntime,
    question: Question,
) -> Result<(), Fail> {
    let mut input = Vec::new(host.alloc());
    push_input(host.alloc(), question, &mut input)?;
    let mut output = Vec::new(host.alloc());
    push_output(host.alloc(), question, &mut output)?;
    assert_answers(rt, host, &input, &output)
}

fn push_ticks(alloc: Global, input: &mut Vec<u8>) -> Result<(), AllocError> {
    input.extend_from_slice(b"class car 2000\n")?;
    push_lines(alloc, input, 2_000, "insert car c", "")?;
    input.extend_from_slice(b"ask 1000000 RETRIEVE o FROM car o WHERE EVENTUALLY TRUE\n")
}

fn push_ticks_replies(alloc: Global, output: &mut Vec<u8>) -> Result<(), AllocError> {
    push_oks(output, 2_001)?;
    push_lines(alloc, output, 2_000, "now c", " : 0..1000000")?;
    push_oks(output, 1)
}

#[test]
fn two_thousand_objects_hold_at_all_ticks(rt: HostRuntime) -> Result<(), Fail> {
    assert_answered(&rt, &rt, Question::Ticks)
}

const CARS_AND_POST: &[u8] =
    b"class car 100000 point\nclass post 1 point\nregion M (500000,-5) (500010,-5) (500010,5) (500000,5)\ninsert post b at (500500,0)\n";

const ASK: &[u8] =
    b"ask 1000000 RETRIEVE o FROM car o,post n WHERE INSIDE(o,M) OR DIST(o,n) <= 3 OR o.x = 501000\n";

fn push_passing(alloc: Global, input: &mut Vec<u8>) -> Result<(), AllocError> {
    input.extend_from_slice(CARS_AND_POST)?;
    push_lines(alloc, input, 100_000, "insert car c", " move (1,0)")?;
    push_times(input, 2, ASK)
}

fn push_passing_answer(alloc: Global, output: &mut Vec<u8>) -> Result<(), AllocError> {
    push_lines(
        alloc,
        output,
        100_000,
        "later c",
        " : 500000..500010 500497..500503 501000..501000",
    )?;
    push_oks(output, 1)
}

fn push_passing_replies(alloc: Global, output: &mut Vec<u8>) -> Result<(), AllocError> {
    push_oks(output, 100_004)?;
    push_passing_answer(alloc, output)?;
    push_passing_answer(alloc, output)
}

#[test]
fn a_hundred_thousand_cars_pass_a_region_and_a_post(rt: HostRuntime) -> Result<(), Fail> {
    assert_answered(&rt, &rt, Question::Passing)
}

fn push_cars_apart(alloc: Global, input: &mut Vec<u8>) -> Result<(), AllocError> {
    for number in 0..1_000 {
        let line = format!(in alloc; "insert car c{number} at ({number}0,0)\n")?;
        input.extend_from_slice(line.as_bytes())?;
    }
    Ok(())
}

fn push_reports(alloc: Global, input: &mut Vec<u8>) -> Result<(), AllocError> {
    push_lines(alloc, input, 3_000, "update c500 at (5000,", ")")?;
    push_times(input, 10_000, b"tick 1\n")?;
    push_times(input, 10_000, b"show w\n")
}

fn push_pairs(alloc: Global, input: &mut Vec<u8>) -> Result<(), AllocError> {
    input.extend_from_slice(b"class car 1000 point\n")?;
    push_cars_apart(alloc, input)?;
    input.extend_from_slice(
        b"watch w 1000000 RETRIEVE o,n FROM car o,car n WHERE DIST(o,n) >= 9990\n",
    )?;
    push_reports(alloc, input)
}

fn push_pairs_replies(output: &mut Vec<u8>) -> Result<(), AllocError> {
    push_oks(output, 1_001)?;
    output.extend_from_slice(b"now c0 c999 : 0..1000000\nnow c999 c0 : 0..1000000\n")?;
    push_oks(output, 13_001)?;
    push_times(
        output,
        10_000,
        b"now c0 c999 : 10000..1000000\nnow c999 c0 : 10000..1000000\nok\n",
    )
}

// The first car and the last one are farther from each other than all others are, and stay so.
#[test]
fn a_watch_of_all_pairs_follows_reports_and_ticks(rt: HostRuntime) -> Result<(), Fail> {
    assert_answered(&rt, &rt, Question::Pairs)
}

// Appends the cars' turns to be nearest: each from half way to the car before up to half way to the next, where the
// first of both still is.
fn push_turns(alloc: Global, out: &mut Vec<u8>) -> Result<(), AllocError> {
    out.extend_from_slice(b"now c0 : 0..500\nlater c1 : 501..1500\n")?;
    for number in 1..998u32 {
        let next = number.saturating_add(1);
        let line = format!(in alloc; "later c{next} : {number}501..{next}500\n")?;
        out.extend_from_slice(line.as_bytes())?;
    }
    out.extend_from_slice(b"later c999 : 998501..1000000\nok\n")
}

fn push_cars_in_a_row(alloc: Global, input: &mut Vec<u8>) -> Result<(), AllocError> {
    for number in 0..1_000 {
        let line = format!(in alloc; "insert car c{number} at ({number},0)\n")?;
        input.extend_from_slice(line.as_bytes())?;
    }
    Ok(())
}

fn push_turning(alloc: Global, input: &mut Vec<u8>) -> Result<(), AllocError> {
    input.extend_from_slice(
        b"class car 1000 point\nclass post 1 point\ninsert post b move (0.001,0)\n",
    )?;
    push_cars_in_a_row(alloc, input)?;
    input.extend_from_slice(b"nearest 1000000 1 b car\n")
}

fn push_turning_replies(alloc: Global, output: &mut Vec<u8>) -> Result<(), AllocError> {
    push_oks(output, 1_003)?;
    push_turns(alloc, output)
}

// The cars stand a unit apart, and the post goes on by a thousandth a tick.
#[test]
fn a_post_passes_a_thousand_cars(rt: HostRuntime) -> Result<(), Fail> {
    assert_answered(&rt, &rt, Question::Turns)
}

// Appends when each car may be near some post: round each tick at which it passes one.
fn push_meetings(alloc: Global, out: &mut Vec<u8>) -> Result<(), AllocError> {
    out.extend_from_slice(b" : 7..13")?;
    for number in 1..100u32 {
        let run = format!(in alloc; " {number}07..{number}13")?;
        out.extend_from_slice(run.as_bytes())?;
    }
    out.extend_from_slice(b"\n")
}

// Appends the line of each car.
fn push_lines_of_meetings(alloc: Global, out: &mut Vec<u8>) -> Result<(), AllocError> {
    for number in 0..100u32 {
        let line = format!(in alloc; "later c{number}")?;
        out.extend_from_slice(line.as_bytes())?;
        push_meetings(alloc, out)?;
    }
    Ok(())
}

fn push_posts(alloc: Global, input: &mut Vec<u8>) -> Result<(), AllocError> {
    for number in 0..100 {
        let line = format!(in alloc; "insert post p{number} at ({number}10,0)\n")?;
        input.extend_from_slice(line.as_bytes())?;
    }
    Ok(())
}

fn push_meeting(alloc: Global, input: &mut Vec<u8>) -> Result<(), AllocError> {
    input.extend_from_slice(b"class car 100 point\nclass post 100 point\n")?;
    push_lines(alloc, input, 100, "insert car c", " at (0,3) move (1,0)")?;
    push_posts(alloc, input)?;
    input.extend_from_slice(b"may 0.5 10000 RETRIEVE o FROM car o,post n WHERE DIST(o,n) <= 3\n")?;
    input.extend_from_slice(b"must 0.5 10000 RETRIEVE o FROM car o,post n WHERE DIST(o,n) <= 3\n")
}

fn push_meeting_replies(alloc: Global, output: &mut Vec<u8>) -> Result<(), AllocError> {
    push_oks(output, 202)?;
    push_lines_of_meetings(alloc, output)?;
    push_oks(output, 2)
}

// The posts stand a hundred units apart along the way of all cars, which pass each 3 units away.
#[test]
fn a_hundred_cars_may_be_near_a_hundred_posts(rt: HostRuntime) -> Result<(), Fail> {
    assert_answered(&rt, &rt, Question::Meetings)
}
