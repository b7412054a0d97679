//! Counters of looks at timelines and of probes, which only a test can make.
ghost use Rattle.std.specs.Prelude.{◌≡◌, ◌<◌};

use crate::{near, ranges, surely};
use std::marker::Brand;
use std::process::Abort;
use std::sync::ledger::{Blank, Ledger};
use std::test::Fail;
use steps::Steps;

#[derive(Clone, Copy)]
pub(crate) enum Asked {
    Between,
    Near,
    Surely,
}

fn ask<L: Ledger, M: Ledger>(
    rt: &impl Abort,
    host: &HostRuntime,
    what: Asked,
    reads: &mut Steps<L>,
    probes: &mut Steps<M>,
) -> Result<(), Fail> {
    match what {
        Asked::Between => ranges::cases_are_right(rt, host.alloc(), reads),
        Asked::Near => near::cases_are_right(rt, host.alloc(), reads, probes),
        Asked::Surely => surely::cases_are_right(rt, host.alloc(), reads, probes),
    }
}

fn with_probes<L: Ledger, M: Ledger>(
    rt: &impl Abort,
    host: &HostRuntime,
    what: Asked,
    reads: &mut Steps<L>,
    blank: Blank,
) -> Result<(), Fail>
    requires name { blank.name ≡ M.name }
    requires parts { blank.parts ≡ M.parts }
    requires some_part { 0 < blank.parts }
{
    let mut probes: Steps<M> = Steps::new(host, blank);
    ask(rt, host, what, reads, &mut probes)
}

fn with_reads<L: Ledger>(
    rt: &impl Abort,
    host: &HostRuntime,
    what: Asked,
    blank: Blank,
    probes: Blank,
) -> Result<(), Fail>
    requires name { blank.name ≡ L.name }
    requires parts { blank.parts ≡ L.parts }
    requires some_part { 0 < blank.parts }
    requires some_probes { 0 < probes.parts }
{
    let mut reads: Steps<L> = Steps::new(host, blank);
    with_probes::<_, Brand>(rt, host, what, &mut reads, probes)
}

pub(crate) fn with_counters(rt: &impl Abort, host: &HostRuntime, what: Asked) -> Result<(), Fail> {
    with_reads::<Brand>(rt, host, what, Blank::new(1), Blank::new(1))
}
