use ftl_lexer::{LEXER_LIMIT, tokens};
use ftl_parser::{Query, has_circle, has_not, parse, print};
use std::alloc::{AllocError, Global};
use std::process::Abort;
use std::test::Fail;

// What stands before a formula.
const HEAD: &[u8] = b"RETRIEVE o FROM c o WHERE ";

fn line_of(alloc: Global, formula: &[u8]) -> Result<Vec<u8>, AllocError> {
    let mut line = HEAD.to_vec(alloc)?;
    line.extend_from_slice(formula)?;
    Ok(line)
}

fn read_line(alloc: Global, line: &[u8]) -> Result<Query, Fail> {
    if line.len() > LEXER_LIMIT {
        return Err("a line past its length".into());
    }
    let tokens = tokens(alloc, line)?;
    let query = parse(alloc, &tokens, 0)?;
    Ok(query)
}

fn read(alloc: Global, formula: &[u8]) -> Result<Query, Fail> {
    let line = line_of(alloc, formula)?;
    read_line(alloc, &line)
}

fn is_printed(alloc: Global, formula: &[u8], text: &[u8]) -> Result<bool, Fail> {
    let query = read(alloc, formula)?;
    let printed = print(alloc, &query)?;
    Ok(printed.starts_with(HEAD) && printed.get(HEAD.len()..) == Some(text))
}

fn are_printed(rt: &impl Abort, alloc: Global, rows: &[(&[u8], &[u8])]) -> Result<(), Fail> {
    for &(formula, text) in rows {
        let right = is_printed(alloc, formula, text)?;
        assert!(rt; right, "{formula:?}");
    }
    Ok(())
}

const FORMULAS: &[(&[u8], &[u8])] = &[
    (b"((TRUE))", b"TRUE"),
    (
        b"TRUE AND FALSE AND TRUE OR FALSE",
        b"(((TRUE AND FALSE) AND TRUE) OR FALSE)",
    ),
    (b"TRUE OR FALSE AND TRUE", b"(TRUE OR (FALSE AND TRUE))"),
    (
        b"TRUE UNTIL FALSE UNTIL_WITHIN 05 TRUE",
        b"(TRUE UNTIL (FALSE UNTIL_WITHIN 5 TRUE))",
    ),
    (
        b"TRUE UNTIL_AFTER 5 FALSE AND TRUE",
        b"((TRUE UNTIL_AFTER 5 FALSE) AND TRUE)",
    ),
    (
        b"NOT TRUE AND NOT NOT FALSE UNTIL TRUE",
        b"(NOT TRUE AND (NOT NOT FALSE UNTIL TRUE))",
    ),
    (b"NOT(TRUE AND FALSE)", b"NOT (TRUE AND FALSE)"),
    (
        b"NEXTTIME\tEVENTUALLY ALWAYS TRUE",
        b"NEXTTIME EVENTUALLY ALWAYS TRUE",
    ),
    (b"EVENTUALLY_AFTER 000 TRUE", b"EVENTUALLY_AFTER 0 TRUE"),
    (b"ALWAYS_FOR 1000000000 TRUE", b"ALWAYS_FOR 1000000000 TRUE"),
    (
        b"[v<-o.x]EVENTUALLY_WITHIN 5 o.x>=v+10",
        b"[v <- o.x] EVENTUALLY_WITHIN 5 o.x >= v + 10",
    ),
    (
        b"[v <- o.x - 1] TRUE AND (TRUE OR FALSE) AND f.x = v",
        b"(([v <- o.x - 1] TRUE AND (TRUE OR FALSE)) AND f.x = v)",
    ),
];

#[test]
fn formulas_are_printed(rt: HostRuntime) -> Result<(), Fail> {
    are_printed(&rt, rt.alloc(), FORMULAS)
}

const ATOMS: &[(&[u8], &[u8])] = &[
    (b"INSIDE ( o , P )", b"INSIDE(o,P)"),
    (b"OUTSIDE(o,P)", b"OUTSIDE(o,P)"),
    (b"DIST(o,n) < -1.10", b"DIST(o,n) < -1.1"),
    (b"DIST(o,n) > -0", b"DIST(o,n) > 0"),
    (b"WITHIN_SPHERE(1000.000,a,b)", b"WITHIN_SPHERE(1000,a,b)"),
    (
        b"-0.50+2*o.x.function-o.x.value=- TIME",
        b"-0.5 + 2 * o.x.function - o.x.value = -TIME",
    ),
    (
        b"o.x.updatetime!=0001000000*TIME",
        b"o.x.updatetime != 1000000 * TIME",
    ),
    (b"0-0.0 > -0+0", b"0 - 0 > -0 + 0"),
    (b"o.plate<=\"A B\"", b"o.plate <= \"A B\""),
    (b"\"\" >= 1000000000.000", b"\"\" >= 1000000000"),
];

#[test]
fn atoms_are_printed(rt: HostRuntime) -> Result<(), Fail> {
    are_printed(&rt, rt.alloc(), ATOMS)
}

// Whether there is a NOT in it, and whether a circle.
const PARTS: &[(&[u8], bool, bool)] = &[
    (b"TRUE", false, false),
    (
        b"[a <- 1] ([b <- 1] TRUE OR NOT [c <- 1] FALSE)",
        true,
        false,
    ),
    (
        b"WITHIN_SPHERE(1,a) AND ALWAYS WITHIN_SPHERE(2,a,b,c)",
        false,
        true,
    ),
    (
        b"[a <- 1] WITHIN_SPHERE(1,a,b) UNTIL [b <- 1] NOT TRUE",
        true,
        true,
    ),
];

fn tells(alloc: Global, text: &[u8], not: bool, circle: bool) -> Result<bool, Fail> {
    let query = read(alloc, text)?;
    Ok(has_not(&query.formula) == not && has_circle(&query.formula) == circle)
}

#[test]
fn formulas_tell_of_nots_and_circles(rt: HostRuntime) -> Result<(), Fail> {
    for &(text, not, circle) in PARTS {
        let right = tells(rt.alloc(), text, not, circle)?;
        assert!(rt; right, "{text:?}");
    }
    Ok(())
}
