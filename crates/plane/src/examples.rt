//! Small histories worked out, as calls without a body.
ghost use Rattle.plane.specs.Example.{AreBoxes, AreCandidates, AreRowsInRange};

/// The strips of negative values, and boxes of objects that rise, stand, turn, are written within a slice and are removed.
pub fn boxes_are_worked_out()
    ensures { AreBoxes }
{}

/// An object far away is no candidate, and is one after it was written anew. A candidate need not have such a value, and
/// bounds in the wrong order have none.
pub fn candidates_are_worked_out()
    ensures { AreCandidates }
{}

/// When the candidates have such values.
pub fn rows_are_worked_out()
    ensures { AreRowsInRange }
{}
