//! Small texts worked out and what is true of all, as calls with nothing to run.
ghost use Rattle.object_rows.specs.Commands.{GivesPrintableCommands, GivesShortLines};
ghost use Rattle.object_rows.specs.Example.{ExportsObjects, ReadsTexts, RefusesTexts};

use fixed_point::reads_each_decimal;

/// What some texts hold.
pub fn texts_are_read()
    ensures { ReadsTexts }
{}

/// Texts that aren't of the format, one for each rule.
pub fn texts_are_refused()
    ensures { RefusesTexts }
{}

/// What is exported of some objects.
pub fn objects_are_exported()
    ensures { ExportsObjects }
{}

/// The commands of a text's rows are as if they had been read from lines: names and texts are of their
/// forms, and numbers in their ranges.
pub fn commands_are_printable()
    ensures { GivesPrintableCommands }
{
    reads_each_decimal();
}

/// The canonical line of each row's command has at most the bytes of a line that can be read back, 16,384.
pub fn row_lines_are_short()
    ensures { GivesShortLines }
{
    reads_each_decimal();
}
