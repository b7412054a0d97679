use fixed_point::{Fix, Word};

// Texts, and the thousandths that they write, if they are numbers.
const TEXTS: &[(&str, Option<i64>)] = &[
    ("0", Some(0)),
    ("-0", Some(0)),
    ("-0.000", Some(0)),
    ("007", Some(7000)),
    ("1.5", Some(1500)),
    ("1.05", Some(1050)),
    ("1.050", Some(1050)),
    ("0.001", Some(1)),
    ("-0.5", Some(-500)),
    ("-12.34", Some(-12_340)),
    ("1000", Some(1_000_000)),
    ("1000.001", Some(1_000_001)),
    ("0000000001", Some(1000)),
    ("999999999.999", Some(999_999_999_999)),
    ("1000000000", Some(1_000_000_000_000)),
    ("-1000000000", Some(-1_000_000_000_000)),
    ("1000000000.001", None),
    ("-1000000000.001", None),
    ("9999999999", None),
    ("12345678901", None),
    ("00000000001", None),
    ("", None),
    ("-", None),
    ("--1", None),
    ("+1", None),
    (" 1", None),
    ("1 ", None),
    (".5", None),
    ("1.", None),
    ("1.2345", None),
];

fn thousandths_of(text: &str) -> Option<i64> {
    Some(Fix::read(text.as_bytes())?.raw())
}

#[test]
fn texts_are_read_as_their_thousandths(rt: HostRuntime) {
    for (text, thousandths) in TEXTS {
        assert!(rt; thousandths_of(text) == *thousandths, "{text}");
    }
}

const PRINTED: &[(i64, &str)] = &[
    (0, "0"),
    (-500, "-0.5"),
    (3400, "3.4"),
    (1, "0.001"),
    (-20, "-0.02"),
    (10_050, "10.05"),
    (-7000, "-7"),
    (1_000_000_000_000, "1000000000"),
    (999_999_999_999_999_999, "999999999999999.999"),
    (-999_999_999_999_999_999, "-999999999999999.999"),
    (1_000_000_000_000_000_000, "1000000000000000"),
    (-1_000_000_000_000_000_000, "-1000000000000000"),
];

fn is_printed_as(thousandths: i64, text: &str) -> bool {
    match Fix::of(thousandths) {
        Some(number) => number.print().bytes() == text.as_bytes(),
        None => false,
    }
}

#[test]
fn numbers_are_printed_in_one_way(rt: HostRuntime) {
    for &(thousandths, text) in PRINTED {
        assert!(rt; is_printed_as(thousandths, text), "{text}");
    }
}

// Words of at most 32 bytes are kept. A zero byte is a byte as any other.
const WORDS: &[(&[u8], bool)] = &[
    (b"", true),
    (b"\0", true),
    (b"abcdefghijklmnopqrstuvwxyz012345", true),
    (b"abcdefghijklmnopqrstuvwxyz0123456", false),
];

fn is_kept(text: &[u8]) -> bool {
    match Word::of(text) {
        Some(word) => word.bytes() == text,
        None => false,
    }
}

#[test]
fn words_have_at_most_32_bytes(rt: HostRuntime) {
    for &(text, kept) in WORDS {
        assert!(rt; is_kept(text) == kept, "{text:?}");
    }
}
