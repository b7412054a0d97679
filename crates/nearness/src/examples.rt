//! Small histories worked out, as calls without a body.
ghost use Rattle.nearness.specs.Example.{ComeAndGo, IsPassedBy, Ranks, StandTogether};

/// Ranks by squares of distances: a tie, an absent object, and one object too many.
pub fn ranks_are_worked_out()
    ensures { Ranks }
{}

/// A tie at a tick goes to the object that was inserted first, an object is not near itself, and where fewer than k
/// are there all are near.
pub fn an_object_passes_by()
    ensures { IsPassedBy }
{}

/// An object that is removed and comes again is near while it is there, and keeps its place in the order of first
/// insertion. Nothing is near an absent object.
pub fn objects_come_and_go()
    ensures { ComeAndGo }
{}

/// Of objects at one place those are near that were inserted first; the one that is asked for is none of them.
pub fn objects_stand_at_one_place()
    ensures { StandTogether }
{}
