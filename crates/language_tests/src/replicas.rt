//! Feeds, and what a replica says after them.
use replica::Replica;
use std::alloc::{AllocError, Global};
use std::test::Fail;

// Lines with a `|` between them.
fn hear_all(replica: &mut Replica, feed: &[u8]) -> Result<(), AllocError> {
    for line in feed.split(|byte| *byte == b'|') {
        replica.hear(line)?;
    }
    Ok(())
}

fn has_said(alloc: Global, replica: &Replica, said: &[u8]) -> Result<bool, AllocError> {
    let mut out = Vec::new(alloc);
    replica.push_said(&mut out)?;
    Ok(out.as_slice() == said)
}

fn says_after(
    alloc: Global,
    replica: &mut Replica,
    feed: &[u8],
    said: &[u8],
) -> Result<bool, AllocError> {
    hear_all(replica, feed)?;
    has_said(alloc, replica, said)
}

fn says(alloc: Global, name: &[u8], feed: &[u8], said: &[u8]) -> Result<bool, AllocError> {
    let mut replica = Replica::new(alloc, name)?;
    says_after(alloc, &mut replica, feed, said)
}

const FEEDS: &[(&[u8], &[u8], &[u8])] = &[
    (
        b"w",
        b"ok|start w watch 0|now a : 0..10|ok|clock 4",
        b"a : 4..10\n",
    ),
    (
        b"w",
        b"ok|start w watch 0|now a : 0..10|ok|clock 4|lose w a : 4..10|leave w a",
        b"",
    ),
    (
        b"w",
        b"start w keep 3|later b c : 5..6 8..9|past a : 0..0|ok|gain w b c : 7..7|gain w a : 9..9",
        b"a : 0..0 9..9\nb c : 5..9\n",
    ),
    (
        b"w",
        b"start w keep 3|now  a : 0..1|now a : 0..1|gain v a : x|gain w c : 0..1|",
        b"c : 0..1\n",
    ),
    (b"v w", b"start v w keep 3|gain v w a : 0..1", b""),
    (
        b"",
        b"gain|start  keep 0|gain  a : 1000000000..1000000000",
        b"a : 1000000000..1000000000\n",
    ),
    (
        b"w",
        b"start w keep 3|later b : 5..6|lose w b : 5|clock",
        b"bad feed 3\n",
    ),
    (b"w", b"clock 1000000001", b"bad feed 1\n"),
    (b"w", b"gain w a\tb : 0..1", b"bad feed 1\n"),
    (
        b"w",
        b"start w keep 0|gain w abcdefghijklmnopqrstuvwxyz_1234567 : 0..1",
        b"bad feed 2\n",
    ),
];

#[test]
fn feeds_are_followed(rt: HostRuntime) -> Result<(), Fail> {
    for &(name, feed, said) in FEEDS {
        let right = says(rt.alloc(), name, feed, said)?;
        assert!(rt; right, "{feed:?}");
    }
    Ok(())
}

fn ends(alloc: Global, replica: &mut Replica) -> Result<bool, AllocError> {
    replica.hear(b"ok")?;
    let begun = replica.is_done();
    replica.hear(b"stop w now")?;
    let said = has_said(alloc, replica, b"bad feed 2\n")?;
    Ok(!begun && replica.is_done() && said)
}

#[test]
fn a_bad_line_ends_it(rt: HostRuntime) -> Result<(), Fail> {
    let mut replica = Replica::new(rt.alloc(), b"w")?;
    let right = ends(rt.alloc(), &mut replica)?;
    assert!(rt; right);
    Ok(())
}
