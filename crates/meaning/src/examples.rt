//! Small queries worked out, as calls without a body.
ghost use Rattle.meaning.specs.FitsExample.{FitsTheClasses};
ghost use Rattle.meaning.specs.NeedsExample.{NeedPlaces};
ghost use Rattle.meaning.specs.PastExample.{AnswersAsTimePasses, AnswersTheDoubledSpeed, AnswersTheRemovedCar};
ghost use Rattle.meaning.specs.PlaceExample.{AnswersByPlace};
ghost use Rattle.meaning.specs.ReachExample.{SeesAhead};
ghost use Rattle.meaning.specs.ReadsExample.{TakesReads};
ghost use Rattle.meaning.specs.TimeExample.{AnswersByTime, AnswersByValue};

/// The temporal operators: UNTIL over OR, ALWAYS_FOR, NEXTTIME at the last tick, and the bounded forms.
pub fn ticks_are_worked_out()
    ensures { AnswersByTime }
{}

/// Attributes and their parts, texts, TIME, and assignments that bind the value of each tick, one within another
/// among them.
pub fn values_are_worked_out()
    ensures { AnswersByValue }
{}

/// Regions, distances and circles, a negative distance, one object for two variables, an object that is removed
/// and targets in another order among them.
pub fn places_are_worked_out()
    ensures { AnswersByPlace }
{}

/// A kept query gains a tick of the past, since what comes after that tick is another than before.
pub fn a_doubled_speed_is_seen_late()
    ensures { AnswersTheDoubledSpeed }
{}

/// The recorded past of a removed object stays, and joins what is implied where it comes again.
pub fn a_removed_car_keeps_its_past()
    ensures { AnswersTheRemovedCar }
{}

/// What a write and the passing of time change for a registered query.
pub fn registered_queries_change()
    ensures { AnswersAsTimePasses }
{}

/// Attributes, parts, texts and value variables by their kinds, and the variables of spatial atoms.
pub fn queries_fit_their_classes()
    ensures { FitsTheClasses }
{}

/// The read bound of atoms, of a query, of an assignment and of a write.
pub fn reads_are_counted()
    ensures { TakesReads }
{}

/// The atoms that formulas need, of those of places.
pub fn atoms_are_needed()
    ensures { NeedPlaces }
{}

/// How far ahead atoms, operators and assignments see, alone and within one another.
pub fn reaches_are_worked_out()
    ensures { SeesAhead }
{}
