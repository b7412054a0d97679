//! The kinds of lines and of commands.
ghost use Rattle.std.specs.Prelude.{◌≡◌};
ghost use Rattle.command_text.specs.Tree.{command_view};
ghost use Rattle.feeds_meaning.specs.Lines.{data_words, is_among, is_barred, is_data, is_data_line, is_of_queries, is_query_line, query_words};

use command_text::Command;
use line_meaning::{Role, role_of};
use users::first_word;

fn is_data_word(word: &[u8]) -> bool
    ensures { result ≡ is_among data_words word.now }
{
    b"class".as_slice() == word
        || b"region".as_slice() == word
        || b"insert".as_slice() == word
        || b"update".as_slice() == word
        || b"remove".as_slice() == word
        || b"tick".as_slice() == word
}

/// Whether a line is on what all users share, by its first word.
pub(crate) fn is_data_line(line: &[u8]) -> bool
    ensures { result ≡ is_data_line line.now }
{
    is_data_word(first_word(line))
}

fn is_query_word(word: &[u8]) -> bool
    ensures { result ≡ is_among query_words word.now }
{
    b"watch".as_slice() == word || b"keep".as_slice() == word || b"drop".as_slice() == word
}

/// Whether a line is on the user's own registered queries, by its first word.
pub(crate) fn is_query_line(line: &[u8]) -> bool
    ensures { result ≡ is_query_line line.now }
{
    is_query_word(first_word(line))
}

/// Whether a command is on what all users share.
pub(crate) fn is_data(command: &Command) -> bool
    ensures { result ≡ is_data (command_view command.now) }
{
    match command {
        Command::Class { .. } | Command::Region { .. } | Command::Insert { .. } => true,
        Command::Update { .. } | Command::Remove { .. } | Command::Tick { .. } => true,
        _ => false,
    }
}

/// Whether a command begins or ends a registered query of the user's own.
pub(crate) fn is_of_queries(command: &Command) -> bool
    ensures { result ≡ is_of_queries (command_view command.now) }
{
    match command {
        Command::Watch { .. } | Command::Keep { .. } | Command::Drop { .. } => true,
        _ => false,
    }
}

/// Whether no user may give a command: it would name a file of the program, or end the run of all.
pub(crate) fn is_barred(command: &Command) -> bool
    ensures { result ≡ is_barred (command_view command.now) }
{
    match role_of(command) {
        Role::Filing | Role::Ending => true,
        _ => false,
    }
}
