//! Small histories worked out, as calls without a body.
ghost use Rattle.worlds.specs.Example.{Compares, DrivesThrough, Jumps, PassesBy, StandsBeyond};

/// Comparisons of what lies between two numbers with a third, which hold surely, possibly or not at all.
pub fn comparisons_are_worked_out()
    ensures { Compares }
{}

/// A car that may be off is surely inside a region for fewer ticks than it seems to be, and possibly for more. What surely
/// isn't said to be inside may be: so a NOT takes the two from each other.
pub fn a_car_drives_through()
    ensures { DrivesThrough }
{}

/// The distance of two objects that may both be off. One object, of two variables, is at no distance from itself.
pub fn a_car_passes_by()
    ensures { PassesBy }
{}

/// Beyond a sharp corner a place counts as possibly inside from which no place inside is in reach.
pub fn a_car_stands_beyond_a_corner()
    ensures { StandsBeyond }
{}

/// A world moves an object at single ticks, in regions and distances alone.
pub fn a_car_jumps()
    ensures { Jumps }
{}
