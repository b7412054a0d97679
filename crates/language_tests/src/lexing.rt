use case_table::{key, symbol};
use ftl_lexer::{Kind, LEXER_LIMIT, LexFault, Token, Tokens, bad_token, tokens};
use std::alloc::Global;
use std::process::Abort;
use std::test::Fail;

const NAME: Kind = Kind::Name;

const NUMBER: Kind = Kind::Number;

const TEXT: Kind = Kind::Text;

const POINT: Kind = Kind::Sym(symbol::POINT);

const MINUS: Kind = Kind::Sym(symbol::MINUS);

const ASSIGN: Kind = Kind::Sym(symbol::ASSIGN);

fn is_token(read: &Tokens, line: &[u8], i: usize, expected: &(Kind, u16, u16)) -> bool {
    let token = Token {
        kind: expected.0,
        lo: expected.1,
        hi: expected.2,
    };
    let bytes = line.get(expected.1 as usize..expected.2 as usize);
    match (read.lexeme(i), bytes) {
        (Some(lexeme), Some(bytes)) => read.get(i) == Some(token) && lexeme.1 == bytes,
        _ => false,
    }
}

// Whether so many tokens were read.
fn has_count(read: &Tokens, count: usize) -> bool {
    read.len() == count
        && read.is_empty() == (count == 0)
        && read.get(count).is_none()
        && read.lexeme(count).is_none()
}

fn has_tokens(read: &Tokens, line: &[u8], expected: &[(Kind, u16, u16)]) -> bool {
    for (i, token) in expected.iter().enumerate() {
        if !is_token(read, line, i, token) {
            return false;
        }
    }
    has_count(read, expected.len())
}

const LINES: &[(&[u8], &[(Kind, u16, u16)])] = &[
    (b" \t ", &[]),
    (
        b"o.x <-3",
        &[
            (NAME, 0, 1),
            (POINT, 1, 2),
            (NAME, 2, 3),
            (ASSIGN, 4, 6),
            (NUMBER, 6, 7),
        ],
    ),
    (
        b"o.x < -3",
        &[
            (NAME, 0, 1),
            (POINT, 1, 2),
            (NAME, 2, 3),
            (Kind::Sym(symbol::BELOW), 4, 5),
            (MINUS, 6, 7),
            (NUMBER, 7, 8),
        ],
    ),
    (b"<--", &[(ASSIGN, 0, 2), (MINUS, 2, 3)]),
    (b"1.", &[(NUMBER, 0, 1), (POINT, 1, 2)]),
    (
        b"1..2",
        &[(NUMBER, 0, 1), (POINT, 1, 2), (POINT, 2, 3), (NUMBER, 3, 4)],
    ),
    (b"1.5.25", &[(NUMBER, 0, 3), (POINT, 3, 4), (NUMBER, 4, 6)]),
    (
        b"ask Ask ASK asks",
        &[
            (Kind::Key(key::ASK), 0, 3),
            (NAME, 4, 7),
            (NAME, 8, 11),
            (NAME, 12, 16),
        ],
    ),
    (
        b"\ttick\t5 ",
        &[(Kind::Key(key::TICK), 1, 5), (NUMBER, 6, 7)],
    ),
    (b"\"\"", &[(TEXT, 0, 2)]),
    (b"\"a ? !\xC3\"x", &[(TEXT, 0, 8), (NAME, 8, 9)]),
    (b"\"a\"\"b\"", &[(TEXT, 0, 3), (TEXT, 3, 6)]),
    (
        b"<=>=",
        &[
            (Kind::Sym(symbol::AT_MOST), 0, 2),
            (Kind::Sym(symbol::AT_LEAST), 2, 4),
        ],
    ),
];

// Whether tokens that are made anew and those that held others before are read alike.
fn is_cut(
    alloc: Global,
    reused: &mut Tokens,
    line: &[u8],
    expected: &[(Kind, u16, u16)],
) -> Result<bool, LexFault> {
    if line.len() > LEXER_LIMIT {
        return Ok(false);
    }
    let fresh = tokens(alloc, line)?;
    reused.read(line)?;
    Ok(has_tokens(&fresh, line, expected) && has_tokens(reused, line, expected))
}

fn are_cut(rt: &impl Abort, alloc: Global, reused: &mut Tokens) -> Result<(), LexFault> {
    for &(line, expected) in LINES {
        assert!(rt; bad_token(line).is_none(), "{line:?}");
        let right = is_cut(alloc, reused, line, expected)?;
        assert!(rt; right, "{line:?}");
    }
    Ok(())
}

#[test]
fn lines_are_cut_into_tokens(rt: HostRuntime) -> Result<(), Fail> {
    let mut reused = Tokens::new(rt.alloc());
    are_cut(&rt, rt.alloc(), &mut reused)?;
    Ok(())
}
