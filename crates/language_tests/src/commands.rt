use command_text::{LINE_LIMIT, Refusal, print, read};
use std::alloc::Global;
use std::test::Fail;

fn is_printed(alloc: Global, line: &[u8], text: &[u8]) -> Result<bool, Fail> {
    let command = read(alloc, line, LINE_LIMIT)?;
    let printed = print(alloc, &command)?;
    Ok(printed.as_slice() == text)
}

const FORMS: &[(&[u8], &[u8])] = &[
    (b" \t", b""),
    (b" # a comment \"", b""),
    (b"list", b"list"),
    (b" quit ", b"quit"),
    (b"class car 007 point", b"class car 7 point"),
    (
        b"class car 100 point(plate text,fuel dyn , n num)",
        b"class car 100 point (plate text,fuel dyn,n num)",
    ),
    (
        b"region P (10,-5)(20,-5.0)(20,5) (10,05)",
        b"region P (10,-5) (20,-5) (20,5) (10,5)",
    ),
    (
        b"insert car a at (0,-0) move [(2,0),6] (0,0) plate=\"AB\"",
        b"insert car a at (0,0) move [(2,0),6] (0,0) plate = \"AB\"",
    ),
    (
        b"insert car b move(-1,0.25)",
        b"insert car b move (-1,0.25)",
    ),
    (
        b"update a fuel=20 rate [0.5,10] 0.2 temp rate -1 x = 2 rate 3",
        b"update a fuel = 20 rate [0.5,10] 0.2 temp rate -1 x = 2 rate 3",
    ),
    (b"remove a", b"remove a"),
    (b"tick 0000000000001", b"tick 1"),
    (b"show w", b"show w"),
    (b"save \"s1\"", b"save \"s1\""),
    (b"import car \"f\"", b"import car \"f\""),
    (b"export car \"\"", b"export car \"\""),
    (b"nearest 20 1 nearest must", b"nearest 20 1 nearest must"),
    (b"index range index 0.001", b"index range index 0.001"),
    (
        b"ask 30 RETRIEVE o FROM car o WHERE INSIDE( o,P)",
        b"ask 30 RETRIEVE o FROM car o WHERE INSIDE(o,P)",
    ),
    (
        b"watch w 030 RETRIEVE o FROM car o WHERE ((TRUE))",
        b"watch w 30 RETRIEVE o FROM car o WHERE TRUE",
    ),
    (
        b"keep k 0 RETRIEVE o FROM car o WHERE o.fuel<=4.0",
        b"keep k 0 RETRIEVE o FROM car o WHERE o.fuel <= 4",
    ),
    (
        b"must 0.50 30 RETRIEVE o,n FROM car o , car n WHERE TRUE AND FALSE",
        b"must 0.5 30 RETRIEVE o,n FROM car o,car n WHERE (TRUE AND FALSE)",
    ),
    (
        b"may 1000 30 RETRIEVE o FROM car o WHERE TIME >= 7",
        b"may 1000 30 RETRIEVE o FROM car o WHERE TIME >= 7",
    ),
    (b"range 20 tank fuel -5 8.50", b"range 20 tank fuel -5 8.5"),
];

#[test]
fn each_form_is_read_and_printed(rt: HostRuntime) -> Result<(), Fail> {
    for &(line, text) in FORMS {
        let right = is_printed(rt.alloc(), line, text)?;
        assert!(rt; right, "{text:?}");
    }
    Ok(())
}

#[test]
fn refusals_have_numbers(rt: HostRuntime) {
    assert!(rt; Refusal::LineTooLong.number() == 1);
    assert!(rt; Refusal::BadFile.number() == 20);
}
