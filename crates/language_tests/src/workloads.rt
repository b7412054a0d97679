//! Lines that an independent program calculates.

use generator::Generator;
use std::alloc::{AllocError, Global};
use std::test::Fail;

// Makes the line at a place, counted from 0. False where the lines end before.
fn make_line(line: &mut Vec<u8>, number: u32, place: u32) -> Result<bool, AllocError> {
    let mut generator = Generator::new(number);
    for _ in 0..=place {
        if !generator.next_line(line)? {
            return Ok(false);
        }
    }
    Ok(true)
}

fn has_line(alloc: Global, number: u32, place: u32, wanted: &[u8]) -> Result<bool, AllocError> {
    let mut line = Vec::new(alloc);
    let there = make_line(&mut line, number, place)?;
    Ok(there && line.as_slice() == wanted)
}

const LINES: &[(u32, u32, &[u8])] = &[
    (1, 1, b"region r0 (688,58) (738,58) (738,108) (688,108)"),
    (1, 21, b"insert car c0 at (628,188) move (-0.931,-0.859)"),
    (1, 225, b"update c68 move (-0.835,0.039)"),
    (1, 886, b"show w2"),
    (0, 883, b"update c32 move (0.272,-0.676)"),
    (999_999_999, 883, b"update c119 move (-0.681,0.829)"),
];

#[test]
fn numbers_have_lines_of_their_own(rt: HostRuntime) -> Result<(), Fail> {
    for &(number, place, line) in LINES {
        let right = has_line(rt.alloc(), number, place, line)?;
        assert!(rt; right, "{number} {place}");
    }
    Ok(())
}
