ghost use Rattle.std.specs.Prelude.{◌≤ℤ◌, negsuc, pos};

use case_table::{Op, Signs, Table, comparisons, key, refusals, symbol, symbols, words};

#[test]
fn fixed_texts_have_their_codes(rt: HostRuntime) {
    assert!(rt; words().code_of(b"rate") == Some(key::RATE));
    assert!(rt; symbols().code_of(b"<-") == Some(symbol::ASSIGN));
    assert!(rt; refusals().word_of(20) == Some(b"BadFile"));
}

// A word of at most 20 bytes, a code, and whether the row is added.
const ADDED: &[(&[u8], u8, bool)] = &[
    (b"", 7, true),
    (b"", 8, false),
    (b"other", 7, false),
    (b"123456789012345678901", 8, false),
    (b"12345678901234567890", 255, true),
];

#[test]
fn a_table_takes_each_row_once(rt: HostRuntime) {
    let mut table = Table::<2>::new();
    for &(word, code, added) in ADDED {
        assert!(rt; table.add(word, code) == added, "{word:?}");
    }
}

const TRUTHS: &[(Op, [bool; 3])] = &[
    (Op::Lt, [true, false, false]),
    (Op::Le, [true, true, false]),
    (Op::Eq, [false, true, false]),
    (Op::Ne, [true, false, true]),
    (Op::Ge, [false, true, true]),
    (Op::Gt, [false, false, true]),
];

// Whether each way of comparing says this where left minus right has this sign.
fn says(op: Op, sign: i8, truth: bool) -> bool
    requires least { negsuc 0 ≤ℤ sign }
    requires most { sign ≤ℤ pos 1 }
{
    comparisons().holds(op.code(), sign) == Some(truth) && op.holds(sign) == truth
}

#[test]
fn comparisons_by_the_sign(rt: HostRuntime) {
    for &(op, [below, none, above]) in TRUTHS {
        assert!(rt; says(op, -1, below), "{op:?}");
        assert!(rt; says(op, 0, none), "{op:?}");
        assert!(rt; says(op, 1, above), "{op:?}");
    }
}

#[test]
fn rows_of_one_code_are_refused(rt: HostRuntime) {
    assert!(rt; Signs::new([(3, true, true, true), (3, false, false, false)]).is_none());
}
