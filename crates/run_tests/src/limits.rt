//! How many classes, regions and registered queries there may be, and how many entries of the journal.
use crate::large::{Question, assert_answered, push_lines, push_oks, push_times};
use std::alloc::{AllocError, Global};
use std::test::Fail;

pub(crate) fn push_names(alloc: Global, input: &mut Vec<u8>) -> Result<(), AllocError> {
    push_lines(alloc, input, 65, "class c", " 1")?;
    push_lines(alloc, input, 1_025, "region r", " (0,0) (1,0) (0,1)")?;
    push_lines(
        alloc,
        input,
        257,
        "keep w",
        " 5 RETRIEVE o FROM c0 o WHERE TRUE",
    )
}

pub(crate) fn push_names_replies(output: &mut Vec<u8>) -> Result<(), AllocError> {
    for most in [64, 1_024, 256] {
        push_oks(output, most)?;
        output.extend_from_slice(b"refused 16 StoreFull\n")?;
    }
    Ok(())
}

#[test]
fn names_have_at_most_so_many_places(rt: HostRuntime) -> Result<(), Fail> {
    assert_answered(&rt, &rt, Question::Names)
}

pub(crate) fn push_entries(input: &mut Vec<u8>) -> Result<(), AllocError> {
    push_times(input, 2_000_002, b"tick 1\n")?;
    input.extend_from_slice(b"list\n")
}

pub(crate) fn push_entries_replies(output: &mut Vec<u8>) -> Result<(), AllocError> {
    push_oks(output, 2_000_000)?;
    push_times(output, 2, b"refused 18 JournalFull\n")?;
    output.extend_from_slice(b"clock 2000000\nok\n")
}

// What the journal doesn't keep is answered past the limit too.
#[test]
fn a_journal_has_at_most_two_million_entries(rt: HostRuntime) -> Result<(), Fail> {
    assert_answered(&rt, &rt, Question::Entries)
}
