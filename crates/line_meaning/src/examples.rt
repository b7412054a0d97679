//! Lines of queries and texts of files worked out, as calls without a body.
ghost use Rattle.line_meaning.specs.BlurredExample.{AnswersBlurred, RefusesBlurred};
ghost use Rattle.line_meaning.specs.Example.{AnswersAsks, RefusesAsks, RefusesByTheFirst};
ghost use Rattle.line_meaning.specs.FilesExample.{ImportsRows, LoadsTexts, SavesTexts};
ghost use Rattle.line_meaning.specs.IndexedExample.{AnswersRanges, RefusesRanges};
ghost use Rattle.line_meaning.specs.NearExample.{AnswersNearest, RefusesNearest};
ghost use Rattle.line_meaning.specs.QueryExample.{AnswersRegistered, RefusesRegistered};

/// A car that drives through a region and one that stands in it, pairs in the order of their targets, and how many
/// looks an `ask` may take.
pub fn asks_are_answered()
    ensures { AnswersAsks }
{}

/// Names and kinds before spans, the limits of spans, and the limit of bindings.
pub fn asks_are_refused()
    ensures { RefusesAsks }
{}

/// What surely and what possibly holds of a car that drives through a region and past a post, the lines, and how many looks
/// are taken.
pub fn blurred_are_answered()
    ensures { AnswersBlurred }
{}

/// Names before kinds and formulas with a NOT or a circle, these before bounds, and the limits of spans and of bindings.
pub fn blurred_are_refused()
    ensures { RefusesBlurred }
{}

/// Lines with two faults: both refusals hold, and the first is the answer.
pub fn first_faults_refuse()
    ensures { RefusesByTheFirst }
{}

/// The nearest cars to a post: a tie, an object that isn't near itself or is absent, the lines, and how many looks are taken.
pub fn nearest_are_answered()
    ensures { AnswersNearest }
{}

/// Names before kinds before spans before the limit of pairs.
pub fn nearest_are_refused()
    ensures { RefusesNearest }
{}

/// What a watch is answered, what is gained and lost by writes, and what enters and leaves.
pub fn registered_queries_are_answered()
    ensures { AnswersRegistered }
{}

/// Names of registered queries that are taken or unknown, and spans.
pub fn registered_queries_are_refused()
    ensures { RefusesRegistered }
{}

/// What a save and an export put on the shelf.
pub fn texts_are_saved()
    ensures { SavesTexts }
{}

/// The entries and the lines of an import, and the refusals by its text.
pub fn rows_are_imported()
    ensures { ImportsRows }
{}

/// What texts of both formats are loaded as, and the lines of their first faults.
pub fn texts_are_loaded()
    ensures { LoadsTexts }
{}

/// What `range` is answered before and after a write, how many looks are taken, and which index stands where.
pub fn indexes_are_answered()
    ensures { AnswersRanges }
{}

/// Names before kinds before ticks before the limit of indexes, and the last ticks of an index.
pub fn indexes_are_refused()
    ensures { RefusesRanges }
{}
