//! What holds of texts, as contracts with nothing to run.
ghost use Rattle.session_file.specs.Laws.{CutTextsAreBad, LastFeedMayLack, LoadsWhatIsSaved, TextsWithoutEndAreBad};

use command_text::canonical_lines_are_read_back;

/// The text of a journal is loaded as the journal's commands, in order, and has no fault: of each journal
/// whose commands are as a session accepts them, with no more entries and no later clock than it has.
pub fn saved_texts_are_loaded()
    ensures { LoadsWhatIsSaved }
{
    canonical_lines_are_read_back();
}

/// A text that was cut is never read as finished: each front of a saved text has a fault, but for the one that
/// lacks the last line feed alone, which is read as the whole. A text without a line `end` has a fault, whatever
/// it is.
pub fn cut_texts_are_bad()
    ensures cut { CutTextsAreBad }
    ensures feed { LastFeedMayLack }
    ensures end { TextsWithoutEndAreBad }
{
    canonical_lines_are_read_back();
}
