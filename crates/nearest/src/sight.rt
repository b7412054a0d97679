//! What is seen of an object in a slice of time.
ghost use Rattle.std.specs.Prelude.{◌≡◌, IfSome};
ghost use Rattle.nearest.specs.Sights.{IsSight, TellsSquares};

use crate::band::Band;
use crate::parts::separation_in;
use crate::squares::Separation;
use courses::{common_from, straight_line};
use motion::Timeline;
use tick_set::Window;

/// An object as it is seen from another one in a slice of time.
#[derive(Clone, Copy)]
pub enum Sight {
    /// Both move along lines throughout.
    Straight(Band),
    /// At no tick do both have a place.
    Absent,
    /// It is not known, or one of them turns, comes or goes.
    Unknown,
}

impl Sight {
    ghost use Rattle.nearest.specs.Sights.{is_straight};

    pub fn is_straight(&self) -> bool
        ensures { result ≡ is_straight self.now }
    {
        matches!(self, Sight::Straight(_))
    }
}

/// What is seen of the object of one timeline from that of another.
pub fn sight_of(from: &Timeline, to: &Timeline, slice: Window) -> Sight
    ensures { IsSight from.now to.now slice result }
{
    match straight_separation(from, to, slice) {
        Some(separation) => Sight::Straight(Band::of(separation, slice)),
        None => sight_by_parts(from, to, slice),
    }
}

// The separation of two objects whose last epochs tell lines for the whole slice. None tells nothing.
fn straight_separation(from: &Timeline, to: &Timeline, slice: Window) -> Option<Separation>
    ensures { IfSome result (TellsSquares from.now to.now slice) }
{
    let first = straight_line(from, slice.span())?;
    let second = straight_line(to, slice.span())?;
    Some(Separation::between(&first, &second))
}

// The same by the first common part of the timelines, where that is the whole slice.
fn sight_by_parts(from: &Timeline, to: &Timeline, slice: Window) -> Sight
    ensures { IsSight from.now to.now slice result }
{
    let common = common_from(&[from, to], slice.lo, slice.hi);
    if common.span.hi < slice.hi {
        return Sight::Unknown;
    }
    match separation_in(&common, 1) {
        Some(separation) => Sight::Straight(Band::of(separation, slice)),
        None => Sight::Absent,
    }
}
