//! The query at the end of a command.
ghost use Rattle.std.specs.Prelude.{◌≡◌, ◌&&◌, [], Some, MatchResult};
ghost use Rattle.ftl_parser.specs.Tree.{query_view};
ghost use Rattle.command_text.specs.Piece.{has_short_words};
ghost use Rattle.command_text.specs.inner.LineParts.{Refuses};
ghost use Rattle.command_text.specs.inner.Reading.{query};
ghost use Rattle.command_text.specs.inner.Standing.{standing};
ghost use Rattle.command_text.specs.inner.Query.{fault_by_parser};

use crate::at::At;
use crate::fault::CommandFault;
use crate::refusal::Refusal;
use ftl_lexer::Tokens;
use ftl_parser::{ParseFault, Query, parse};
use std::alloc::Global;

/// What the parser's fault means for a command, the numbers of which before the query are in their
/// ranges or not.
fn fault_by_parser(fault: ParseFault, fit: bool) -> CommandFault
    ensures { result ≡ fault_by_parser fault fit }
{
    match fault {
        ParseFault::BadSyntax(_) => CommandFault::Refused(Refusal::BadSyntax),
        ParseFault::NumberRange(_) => CommandFault::Refused(Refusal::NumberRange),
        ParseFault::TooLarge(_) if fit => CommandFault::Refused(Refusal::TooLarge),
        ParseFault::TooLarge(_) => CommandFault::Refused(Refusal::NumberRange),
        ParseFault::NoMemory => CommandFault::NoMemory,
    }
}

/// The end of the tokens.
fn end(tokens: &Tokens, at: At) -> At
    ensures { standing tokens.now result ≡ record { rest = []; fit = at.fit; small = has_short_words tokens.now && at.small } }
{
    At {
        place: tokens.len(),
        fit: at.fit,
        small: at.small,
    }
}

/// The query that all tokens from a place on spell.
#[tactic(auto, using(crate::proofs::grammar::QueryLemmas::query_steps))]
pub(crate) fn query(alloc: Global, tokens: &Tokens, at: At) -> Result<(Query, At), CommandFault>
    ensures { MatchResult result (λ r. query (standing tokens.now at) ≡ Some (query_view r.0, standing tokens.now r.1))
        (Refuses (query (standing tokens.now at))) }
{
    match parse(alloc, tokens, at.place) {
        Ok(query) => Ok((query, end(tokens, at))),
        Err(fault) => Err(fault_by_parser(fault, at.fit)),
    }
}
