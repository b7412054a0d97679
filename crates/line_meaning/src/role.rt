//! What is done with a command that was read.
ghost use Rattle.std.specs.Prelude.{◌≡◌};
ghost use Rattle.command_text.specs.Tree.{command_view};
ghost use Rattle.line_meaning.specs.Role.{role_of};

use command_text::Command;

/// What is done with a command.
#[derive(Clone, Copy, Debug, PartialEq, Eq)]
pub enum Role {
    /// A blank line or a comment: it has no reply.
    Blank,
    /// The journal keeps it.
    Journalled,
    /// It is answered by what is there, and changes nothing.
    Telling,
    /// It is on an index, which is no part of the journal.
    Indexing,
    /// It asks the shelf for a text, or gives it one.
    Filing,
    /// It ends the run.
    Ending,
}

/// The role of a command.
pub fn role_of(command: &Command) -> Role
    ensures { result ≡ role_of (command_view command.now) }
{
    match command {
        Command::Nothing => Role::Blank,
        Command::Class { .. } | Command::Region { .. } | Command::Insert { .. } => Role::Journalled,
        Command::Update { .. } | Command::Remove { .. } | Command::Tick { .. } => Role::Journalled,
        Command::Watch { .. } | Command::Keep { .. } | Command::Drop { .. } => Role::Journalled,
        Command::Save { .. } | Command::Import { .. } | Command::Export { .. } => Role::Filing,
        Command::Index { .. } | Command::Range { .. } => Role::Indexing,
        Command::Quit => Role::Ending,
        _ => Role::Telling,
    }
}
