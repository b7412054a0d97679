//! The end of a command.
ghost use Rattle.std.specs.Prelude.{MatchResult};
ghost use Rattle.command_text.specs.Tree.{CommandTree};
ghost use Rattle.command_text.specs.inner.Reading.{ended};
ghost use Rattle.command_text.specs.inner.Standing.{standing};
ghost use Rattle.command_text.specs.inner.LineParts.{IsWholeCommand, RefusesAtEnd};

use crate::at::At;
use crate::fault::{CommandFault, bad_syntax};
use crate::refusal::Refusal;
use ftl_lexer::Tokens;
use ftl_parser::has_long;

/// Ends a command of which all tokens before a place were read, or tells why it is refused. A form ends before it
/// builds its command, so that a tree of some 200 bytes isn't handed on with the place after it.
#[tactic(auto, using(crate::proofs::reader::Refused::at_the_end))]
pub(crate) fn end(tokens: &Tokens, at: At) -> Result<(), CommandFault>
    ensures { MatchResult result (λ _. (c : CommandTree) → IsWholeCommand (ended (c, standing tokens.now at)) c)
        (RefusesAtEnd (standing tokens.now at)) }
{
    if at.place < tokens.len() {
        return Err(bad_syntax());
    }
    if !at.fit {
        return Err(CommandFault::Refused(Refusal::NumberRange));
    }
    // A name or a text that is too long was read as the empty one.
    if !at.small || has_long(tokens, 0) {
        return Err(CommandFault::Refused(Refusal::TooLarge));
    }
    Ok(())
}
