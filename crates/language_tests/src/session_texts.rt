//! Texts with the lines of their commands.
use session_file::{Loaded, check, load};
use std::alloc::Global;

const FIRST: &[u8] =
    b"domino-session 1\nclass car 100 point\ninsert car a at (0,0) move (1,0)\nregion P (10,-5) (20,-5) (20,5) (10,5)\nwatch w 30 RETRIEVE o FROM car o WHERE INSIDE(o,P)\ntick 3\nend\n";

const SECOND: &[u8] =
    b"domino-session 2\nentries 5 clock 3\nclass car 100 point\ninsert car a at (0,0) move (1,0)\nregion P (10,-5) (20,-5) (20,5) (10,5)\nwatch w 30 RETRIEVE o FROM car o WHERE INSIDE(o,P)\ntick 3\nend\n";

fn are_at(loaded: &[Loaded], lines: &[u64]) -> bool {
    loaded.len() == lines.len()
        && loaded
            .iter()
            .zip(lines)
            .all(|(one, line)| one.line == *line)
}

// Whether the commands of a text are at these lines.
fn loads(alloc: Global, text: &[u8], lines: &[u64]) -> bool {
    match load(alloc, text) {
        Ok(loaded) => are_at(&loaded, lines),
        Err(_) => false,
    }
}

const TEXTS: &[(&[u8], &[u64])] = &[
    (FIRST, &[2, 3, 4, 5, 6]),
    (SECOND, &[3, 4, 5, 6, 7]),
    (b"domino-session 1\r\n\n  # \xC3\ntick 01\nend", &[4]),
];

#[test]
fn both_formats_are_loaded(rt: HostRuntime) {
    for &(text, lines) in TEXTS {
        assert!(&rt; loads(rt.alloc(), text, lines), "{text:?}");
        assert!(&rt; check(rt.alloc(), text).is_ok(), "{text:?}");
    }
}
