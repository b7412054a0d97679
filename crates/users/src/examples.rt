//! Senders and tagged lines worked out, as calls without a body.
ghost use Rattle.users.specs.Example.{TagsLines, TellsSenders};

/// Users with a line, and lines that no user sends; the first words of lines.
pub fn senders_are_told()
    ensures { TellsSenders }
{}

/// Replies of several lines, and which lines of an output are for a user.
pub fn lines_are_tagged()
    ensures { TagsLines }
{}
