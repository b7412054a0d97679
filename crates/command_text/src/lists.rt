//! The lists in a command, in the order in which they are written.

use fixed_point::{Items, Point, Word};
use motion::{AttrKind, NamedSet};

/// The attributes that are written for a class, each a name and a kind.
pub type Attributes = Items<(Word, AttrKind)>;

/// The points of a region.
pub type Points = Items<Point>;

/// What an insert or an update gives for attributes.
pub type Settings = Items<NamedSet>;
