// Which calls of an object in memory fail.
ghost use Rattle.std.specs.Prelude.{◌≡◌, ◌+◌, ◌==◌};
ghost use Rattle.std.specs.List.{list_any};
ghost use Rattle.outside.specs.Plan.{new_plan, fails_next, called};

use std::marker::Model;

/// The numbers of the calls that fail, counted from 1, with the counts of calls and of faults. Both counts stay
/// at their last value, and no call past that number fails.
#[derive(Drop)]
pub struct Plan {
    fail: Vec<u64>,
    calls: u64,
    faults: u64,
}

impl Model for Plan {
    ghost use Rattle.std.specs.Prelude.{◌≤◌};
    ghost use Rattle.outside.specs.Faults.{last_count};
    ghost use Rattle.outside.specs.Plan.{FailurePlan};

    ghost Value = { FailurePlan };

    ghost view = { λ p. record { fail = p.fail.items; calls = p.calls; faults = p.faults } };
}

impl Plan {
    pub fn new(fail: Vec<u64>) -> Plan
        ensures { result ≡ new_plan fail.items }
    {
        Plan {
            fail,
            calls: 0,
            faults: 0,
        }
    }

    /// Counts one more call, and says whether it fails.
    pub fn call(&mut self) -> bool
        ensures fails { result ≡ fails_next self.old }
        ensures counts { self.new ≡ called self.old }
    {
        let fails = is_due(&self.fail, self.calls);
        self.calls = self.calls.saturating_add(1);
        if fails {
            self.faults = self.faults.saturating_add(1);
        }
        fails
    }
}

// Whether the call after so many is one of those that fail.
fn is_due(fail: &[u64], calls: u64) -> bool
    ensures { result ≡ list_any (λ number. number == calls + 1) fail.now }
{
    fail.iter()
        .any(|number| u128::from(*number) == u128::from(calls) + 1)
}
