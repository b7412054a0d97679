//! By how much positions may be off, and what is asked of them.
ghost use Rattle.std.specs.Prelude.{◌≡◌, not, pos};
ghost use Rattle.blur.specs.Asked.{margin_of, slack_of};

use case_table::Op;
use fixed_point::{Fix, Slope};
use polygon::Margin;

/// By how much each position of an object may be off, and what is asked.
#[derive(Clone, Copy, Debug, PartialEq, Eq)]
pub struct Blur {
    /// Whether what surely holds is asked for, or else what possibly does.
    pub sure: bool,
    /// The most that a position may be off by along each axis, in thousandths.
    pub error: u32,
}

/// A comparison with a number of thousandths.
#[derive(Clone, Copy)]
pub struct Comparison {
    pub op: Op,
    pub c: Fix,
}

/// Inside the region of a number, or outside.
#[derive(Clone, Copy)]
pub struct Side {
    pub inside: bool,
    pub n: u32,
}

impl Blur {
    /// The other question of the same positions.
    pub fn turned(self) -> Blur
        ensures sure { result.sure ≡ not self.sure }
        ensures error { result.error ≡ self.error }
    {
        Blur {
            sure: !self.sure,
            error: self.error,
        }
    }

    /// The same question of positions that aren't off.
    pub fn exact(self) -> Blur
        ensures sure { result.sure ≡ self.sure }
        ensures error { result.error ≡ 0 }
    {
        Blur {
            sure: self.sure,
            error: 0,
        }
    }

    /// The most that a position may be off by where this is told: what surely holds, holds where none is off.
    pub fn slack(self) -> u32
        ensures { result ≡ slack_of self.sure self.error }
    {
        if self.sure { 0 } else { self.error }
    }

    /// By how much a place has to be inside a polygon along each axis.
    pub fn margin(self) -> Margin
        ensures first { result.first ≡ margin_of self.sure self.error }
        ensures rise { result.rise ≡ pos 0 }
    {
        let error = i64::from(self.error);
        let first = if self.sure { error } else { -error };
        Margin {
            first: Fix::of(first).unwrap(),
            rise: Slope::of(0).unwrap(),
        }
    }
}
