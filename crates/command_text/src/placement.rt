//! Where an object is and how it moves, as a command holds it.
ghost use Rattle.std.specs.Prelude.{◌≡◌};
ghost use Rattle.command_text.specs.Tree.{moving_view, placement_view};

use fixed_point::{Point, Slope};
use motion::{Legs, Place};

/// How an insert or an update says that an object moves.
#[derive(Drop)]
pub enum Moving {
    /// It doesn't say so.
    Unset,
    /// Along one leg, with these slopes of x and y.
    Steady(Slope, Slope),
    /// Along the legs of x and of y, which lie on the heap.
    Turning(Box<(Legs, Legs)>),
}

/// What an insert or an update gives for the position: a `Place` in less room, since most objects move along one
/// leg, and a command is moved several times.
#[derive(Drop)]
pub struct Placement {
    pub at: Option<Point>,
    pub moving: Moving,
}

impl Placement {
    /// What it gives, as a store takes it.
    pub fn place(&self) -> Place
        ensures { result ≡ placement_view self.now }
    {
        Place {
            at: self.at,
            moving: self.moving.legs(),
        }
    }
}

impl Moving {
    /// The legs of x and of y. None where nothing is said.
    fn legs(&self) -> Option<(Legs, Legs)>
        ensures { result ≡ moving_view self.now }
    {
        match self {
            Moving::Unset => None,
            Moving::Steady(x, y) => Some((Legs::steady(*x), Legs::steady(*y))),
            Moving::Turning(both) => Some(**both),
        }
    }
}
