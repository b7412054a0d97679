//! A command from its first word to the end of its line.
ghost use Rattle.std.specs.Prelude.{MatchResult};
ghost use Rattle.command_text.specs.Tree.{command_view};
ghost use Rattle.command_text.specs.inner.Reading.{at_first, by_key, by_name, to_end, command_of};
ghost use Rattle.command_text.specs.inner.Standing.{standing};
ghost use Rattle.command_text.specs.inner.LineParts.{IsWholeCommand, Refuses};

use crate::at::{At, next};
use crate::fault::{CommandFault, bad_syntax};
use crate::{Command, forms};
use case_table::key;
use ftl_lexer::{Kind, Tokens};
use std::alloc::Global;

/// The command of a reserved word, by the tokens after it.
fn by_key(alloc: Global, tokens: &Tokens, code: u8, at: At) -> Result<Command, CommandFault>
    ensures { MatchResult result (λ c. IsWholeCommand (to_end (by_key code (standing tokens.now at))) (command_view c))
        (Refuses (to_end (by_key code (standing tokens.now at)))) }
{
    match code {
        key::CLASS => forms::class(alloc, tokens, at),
        key::REGION => forms::region(alloc, tokens, at),
        key::INSERT => forms::insert(alloc, tokens, at),
        key::UPDATE => forms::update(alloc, tokens, at),
        key::REMOVE => forms::remove(tokens, at),
        key::TICK => forms::tick(tokens, at),
        key::ASK => forms::ask(alloc, tokens, at),
        key::WATCH => forms::watch(alloc, tokens, at),
        key::KEEP => forms::keep(alloc, tokens, at),
        key::SHOW => forms::show(tokens, at),
        key::DROP => forms::drop_query(tokens, at),
        key::LIST => forms::list(tokens, at),
        key::SAVE => forms::save(tokens, at),
        key::IMPORT => forms::import(tokens, at),
        key::EXPORT => forms::export(tokens, at),
        key::QUIT => forms::quit(tokens, at),
        _ => Err(bad_syntax()),
    }
}

/// The command of a name, which isn't reserved.
fn by_name(alloc: Global, tokens: &Tokens, word: &[u8], at: At) -> Result<Command, CommandFault>
    ensures { MatchResult result (λ c. IsWholeCommand (to_end (by_name word.now (standing tokens.now at))) (command_view c))
        (Refuses (to_end (by_name word.now (standing tokens.now at)))) }
{
    if word == b"nearest".as_slice() {
        forms::nearest(tokens, at)
    } else if word == b"must".as_slice() {
        forms::must(alloc, tokens, at)
    } else if word == b"may".as_slice() {
        forms::may(alloc, tokens, at)
    } else if word == b"index".as_slice() {
        forms::index(tokens, at)
    } else if word == b"range".as_slice() {
        forms::range(tokens, at)
    } else {
        Err(bad_syntax())
    }
}

/// The command that all tokens of a line are. No token is a blank line.
pub(crate) fn command(alloc: Global, tokens: &Tokens) -> Result<Command, CommandFault>
    ensures { MatchResult result (λ c. IsWholeCommand (command_of (at_first tokens.now)) (command_view c)) (Refuses (command_of (at_first tokens.now))) }
{
    let start = At {
        place: 0,
        fit: true,
        small: true,
    };
    let Some((kind, text, at)) = next(tokens, start) else {
        return Ok(Command::Nothing);
    };
    match kind {
        Kind::Key(code) => by_key(alloc, tokens, code, at),
        Kind::Name => by_name(alloc, tokens, text, at),
        _ => Err(bad_syntax()),
    }
}
