//! What holds of canonical lines, each a contract with nothing to run.

ghost use Rattle.command_text.specs.TextLaws.{PrintsLines, PrintsShortly, PrintsWhatIsRead, PrintsWithinFourLimits, ReadsAgain, ReadsLinesAgain, ReadsWhatIsPrinted};

/// What a line is read as is printable: its names are name tokens, its texts have no quotes and no bytes
/// that no line has, names and texts have at most the bytes of a word, numbers are in the ranges of their places, and
/// lists within their limits.
#[tactic(auto, using(crate::proofs::canonical::TextAgain::prints_what_is_read))]
pub fn read_commands_are_printable()
    ensures { PrintsWhatIsRead }
{}

/// The canonical line of what a line is read as has at most four bytes for each byte of the line: 16,384
/// where lines have at most 4,096.
#[tactic(auto, using(crate::proofs::canonical::TextAgain::prints_shortly, crate::proofs::canonical::TextAgain::prints_within))]
pub fn canonical_lines_are_short()
    ensures line { PrintsShortly }
    ensures limit { PrintsWithinFourLimits }
{}

/// The canonical line of a printable command has no bytes but tabs and 0x20 to 0x7E, and so no line feed.
/// It is read back as this command, wherever it isn't too long; and so it is of each command that was read,
/// with four times the bytes of a line.
#[tactic(auto, using(crate::proofs::canonical::TextReads::prints_lines))]
pub fn canonical_lines_are_read_back()
    ensures lines { PrintsLines }
    ensures printed { ReadsWhatIsPrinted }
    ensures read { ReadsAgain }
    ensures lines_read { ReadsLinesAgain }
{}
