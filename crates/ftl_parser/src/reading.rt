//! From tokens to a query.

ghost use Rattle.std.specs.Prelude.{◌≡◌, ◌+◌, ℕ, Err, IfOk, IfErr};
ghost use Rattle.ftl_parser.specs.Fault.{ExplainsTokens, ReadsQuery};
ghost use Rattle.ftl_parser.specs.Lawful.{IsLawful};
ghost use Rattle.ftl_parser.specs.inner.Machine.{ended_query, parsed, start, tokens_taken};
ghost use Rattle.ftl_parser.specs.inner.Parses.{Parses};
ghost use Rattle.ftl_parser.specs.inner.Views.{kept_view};
ghost use Rattle.ftl_parser.specs.Piece.{lexemes_from, pieces_from};
ghost use Rattle.ftl_parser.specs.Tree.{query_view};

use crate::head::{Kept, Spelled, State, ended, step};
use crate::judge::first_too_large;
use crate::lists::{FromParts, Names};
use crate::piece::piece_at;
use crate::scan::{first_unfit, has_long};
use crate::state::Head;
use crate::{ParseFault, Query};
use ftl_lexer::Tokens;
use std::alloc::{AllocError, Global};

impl From<AllocError> for ParseFault {
    ghost use Rattle.ftl_parser.specs.declared.fault.ParseFault.TheVariants.{NoMemory};

    ghost from_gives = { λ _ fault. fault ≡ NoMemory };

    fn from(_: AllocError) -> ParseFault {
        ParseFault::NoMemory
    }
}

// The query that the tokens from a place on spell, up to its numbers and sizes.
fn spelled(alloc: Global, tokens: &Tokens, from: usize) -> Result<Spelled, ParseFault>
    ensures { Parses from (pieces_from from tokens.now) result }
{
    let mut kept = Kept {
        targets: Names::new(alloc),
        from: FromParts::new(alloc),
        stack: Vec::new(alloc),
    };
    let mut state = State::Heading(Head::Start);
    let past = take_all(alloc, &mut kept, &mut state, tokens, from)?;
    match ended(alloc, kept, state)? {
        Some(query) => Ok(query),
        None => Err(ParseFault::BadSyntax(past)),
    }
}

// Takes the tokens from a place on into a query of which nothing was read, and gives the place past them. A function of
// its own, since each way out of a function that owns what is kept makes its proof longer.
#[tactic(auto, using(crate::proofs::reader::RunLemmas::run_steps))]
fn take_all(
    alloc: Global,
    kept: &mut Kept,
    state: &mut State,
    tokens: &Tokens,
    from: usize,
) -> Result<usize, ParseFault>
    requires { kept_view kept.now state.now ≡ start }
    ensures query { IfOk result (λ _. ended_query (kept_view kept.new state.new) ≡ parsed start (pieces_from from tokens.now)) }
    ensures place { IfOk result (λ past. past ≡ from + tokens_taken start (pieces_from from tokens.now)) }
    ensures cause { IfErr result (λ fault. Parses from (pieces_from from tokens.now) (Err fault)) }
{
    for at in from..tokens.len() {
        if !step(alloc, kept, state, piece_at(tokens, at))? {
            return Err(ParseFault::BadSyntax(at));
        }
    }
    Ok(from.max(tokens.len()))
}

/// The query that the tokens from `from` to the end spell. `BadSyntax` tells the index just past the
/// longest prefix of these tokens that starts some query; `NumberRange` the first number token out of
/// the form or range of its place, where the tokens are a query; `TooLarge` the first size in the order of
/// `Size` that passes its limit, where no number does. No list of the query is empty, its numbers are in
/// their ranges, and none of its sizes passes its limit (`lawful`).
#[tactic(auto, using(crate::proofs::reader::Judged::judgements))]
pub fn parse(alloc: Global, tokens: &Tokens, from: usize) -> Result<Query, ParseFault>
    ensures query { IfOk result (λ q. ReadsQuery (lexemes_from from tokens.now) (query_view q)) }
    ensures lawful { IfOk result (λ q. IsLawful (query_view q)) }
    ensures cause { IfErr result (ExplainsTokens from (lexemes_from from tokens.now)) }
{
    let query = spelled(alloc, tokens, from)?;
    if let Some(place) = first_unfit(tokens, from) {
        return Err(ParseFault::NumberRange(place));
    }
    if let Some(size) = first_too_large(&query, has_long(tokens, from)) {
        return Err(ParseFault::TooLarge(size));
    }
    let Spelled {
        targets,
        from,
        formula,
    } = query;
    Ok(Query {
        targets,
        from,
        formula: formula.into_formula(),
    })
}
