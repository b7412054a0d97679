//! What is written of lines of several users.
ghost use Rattle.std.specs.Prelude.{◌≡◌, ◌<◌};

use hub::Hub;
use std::alloc::{AllocError, Global};
use std::marker::Brand;
use std::process::Abort;
use std::sync::ledger::{Blank, Ledger};
use std::test::Fail;
use steps::Steps;

/// Lines of input, and what is written of them.
struct Row {
    lines: &'static [&'static [u8]],
    written: &'static [u8],
}

// One user's watch, and what another's lines change for it.
const SHARED_WORLD: &Row = &Row {
    lines: &[
        b"ann class car 9 point",
        b"bob insert car a",
        b"ann watch w 10 RETRIEVE o FROM car o WHERE TRUE",
        b"bob show w",
        b"bob tick 4",
        b"bob remove a",
    ],
    written: b"ann ok\nbob ok\nann start w watch 0\nann now a : 0..10\nann ok\nbob refused 7 UnknownName\nann clock 4\nbob clock 4\nbob ok\nann lose w a : 4..10\nann leave w a\nbob ok\n",
};

// Who comes later has the objects of the others and none of their queries.
const NEWCOMER: &Row = &Row {
    lines: &[
        b"ann class car 9 point",
        b"ann insert car a at (1,2)",
        b"ann watch w 10 RETRIEVE o FROM car o WHERE TRUE",
        b"ann tick 3",
        b"bob list",
        b"bob keep w 5 RETRIEVE o FROM car o WHERE o.x >= 1",
        b"ann drop w",
        b"bob update a at (0,0)",
    ],
    written: b"ann ok\nann ok\nann start w watch 0\nann now a : 0..10\nann ok\nann clock 3\nann ok\nbob clock 3\nbob class car 1/9\nbob ok\nbob start w keep 3\nbob now a : 3..8\nbob ok\nann stop w\nann ok\nbob lose w a : 3..8\nbob leave w a\nbob ok\n",
};

// Lines of nobody, blank lines, comments, and lines that no user may send.
const LINES_OF_NOBODY: &Row = &Row {
    lines: &[
        b"",
        b"ann",
        b"tick 4",
        b"ann\ttick 4",
        b"too_longs list",
        b"ann ",
        b"ann # a note",
        b"ann quit",
        b"ann save \"s\"",
        b"ann save ?",
        b"ann import car \"s\"",
        b"bob tick 1",
    ],
    written: b"? refused 4 BadSyntax\n? refused 4 BadSyntax\n? refused 4 BadSyntax\n? refused 4 BadSyntax\n? refused 4 BadSyntax\nann refused 4 BadSyntax\nann refused 4 BadSyntax\nann refused 3 BadToken\nann refused 4 BadSyntax\nann clock 1\nbob clock 1\nbob ok\n",
};

// A ninth user, also where a line of one of the eight follows.
const NINTH_USER: &Row = &Row {
    lines: &[
        b"a ",
        b"b ",
        b"c ",
        b"d ",
        b"e ",
        b"f ",
        b"g ",
        b"h tick 1",
        b"i tick 1",
        b"b tick ?",
    ],
    written: b"a clock 1\nb clock 1\nc clock 1\nd clock 1\ne clock 1\nf clock 1\ng clock 1\nh clock 1\nh ok\n? refused 16 StoreFull\nb refused 3 BadToken\n",
};

// An index is the user's own: others' lines on the objects leave it, and show in what it answers.
const OWN_INDEX: &Row = &Row {
    lines: &[
        b"ann class car 9 point",
        b"ann insert car a at (1,2)",
        b"ann index car x 10",
        b"bob range 5 car x 0 5",
        b"ann range 5 car x 0 5",
        b"bob tick 3",
        b"bob insert car b at (2,2)",
        b"ann range 2 car x 0 5",
        b"bob index car x 10",
        b"carl range 2 car x 0 5",
    ],
    written: b"ann ok\nann ok\nann ok\nbob refused 7 UnknownName\nann now a : 0..5\nann ok\nann clock 3\nbob clock 3\nbob ok\nbob ok\nann now a : 3..5\nann now b : 3..5\nann ok\nbob ok\ncarl refused 7 UnknownName\n",
};

// What was found with a value that is let go: a function that lets a hub go itself names all its parts.
fn spent<T: Drop, R>(value: T, found: R) -> R {
    drop(value);
    found
}

fn apply_all<L: Ledger, M: Ledger>(
    hub: Hub,
    lines: &[&[u8]],
    out: &mut Vec<u8>,
    reads: &mut Steps<L>,
    probes: &mut Steps<M>,
) -> Result<(), AllocError> {
    let mut hub = hub;
    for line in lines {
        hub = hub.apply(line, out, reads, probes)?;
    }
    Ok(spent(hub, ()))
}

fn write_all<L: Ledger, M: Ledger>(
    alloc: Global,
    lines: &[&[u8]],
    out: &mut Vec<u8>,
    reads: &mut Steps<L>,
    probes: &mut Steps<M>,
) -> Result<(), AllocError> {
    apply_all(Hub::new(alloc), lines, out, reads, probes)
}

fn is_written<L: Ledger, M: Ledger>(
    alloc: Global,
    row: &Row,
    reads: &mut Steps<L>,
    probes: &mut Steps<M>,
) -> Result<bool, AllocError> {
    let mut out = Vec::new(alloc);
    write_all(alloc, row.lines, &mut out, reads, probes)?;
    Ok(out.as_slice() == row.written)
}

// Whether the lines of a row have what is written of them.
fn holds(rt: &HostRuntime, row: &Row) -> Result<bool, AllocError> {
    with_reads::<Brand>(rt, row, Blank::new(1), Blank::new(1))
}

fn with_reads<L: Ledger>(
    rt: &HostRuntime,
    row: &Row,
    reads: Blank,
    probes: Blank,
) -> Result<bool, AllocError>
    requires name { reads.name ≡ L.name }
    requires parts { reads.parts ≡ L.parts }
    requires some { 0 < reads.parts }
    requires one { 0 < probes.parts }
{
    let reads: Steps<L> = Steps::new(rt, reads);
    with_probes::<_, Brand>(rt, row, reads, probes)
}

fn with_probes<L: Ledger, M: Ledger>(
    rt: &HostRuntime,
    row: &Row,
    mut reads: Steps<L>,
    probes: Blank,
) -> Result<bool, AllocError>
    requires name { probes.name ≡ M.name }
    requires parts { probes.parts ≡ M.parts }
    requires some { 0 < probes.parts }
{
    let mut probes: Steps<M> = Steps::new(rt, probes);
    is_written(rt.alloc(), row, &mut reads, &mut probes)
}

fn assert_holds(rt: &impl Abort, host: &HostRuntime, row: &Row) -> Result<(), Fail> {
    let holds = holds(host, row)?;
    assert!(rt; holds);
    Ok(())
}

#[test]
fn users_share_a_world(rt: HostRuntime) -> Result<(), Fail> {
    assert_holds(&rt, &rt, SHARED_WORLD)
}

#[test]
fn later_users_have_the_same_world(rt: HostRuntime) -> Result<(), Fail> {
    assert_holds(&rt, &rt, NEWCOMER)
}

#[test]
fn an_index_is_the_users_own(rt: HostRuntime) -> Result<(), Fail> {
    assert_holds(&rt, &rt, OWN_INDEX)
}

#[test]
fn lines_of_nobody_are_refused(rt: HostRuntime) -> Result<(), Fail> {
    assert_holds(&rt, &rt, LINES_OF_NOBODY)
}

#[test]
fn a_ninth_user_has_no_room(rt: HostRuntime) -> Result<(), Fail> {
    assert_holds(&rt, &rt, NINTH_USER)
}
