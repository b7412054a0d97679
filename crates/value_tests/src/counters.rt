ghost use Rattle.std.specs.Prelude.{◌≡◌, ◌<◌};

use std::marker::Brand;
use std::mem;
use std::sync::ledger::{Blank, Ledger};
use steps::Steps;

// The bytes of a counter that has counted.
fn bytes_after_a_step<L: Ledger>(host: &HostRuntime, blank: Blank) -> usize
    requires name { blank.name ≡ L.name }
    requires parts { blank.parts ≡ L.parts }
    requires some_part { 0 < blank.parts }
{
    let mut steps: Steps<L> = Steps::new(host, blank);
    steps.step();
    mem::size_of_val(&steps)
}

#[test]
fn counting_takes_no_bytes(rt: HostRuntime) {
    let bytes = bytes_after_a_step::<Brand>(&rt, Blank::new(1));
    assert!(rt; bytes == 0);
}
