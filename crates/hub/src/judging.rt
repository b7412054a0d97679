//! Which lines are refused before what is held is asked.
ghost use Rattle.std.specs.Prelude.{◌≡◌, IfErr, IfOk};
ghost use Rattle.command_text.specs.Tree.{command_view};
ghost use Rattle.hub.specs.Judging.{CanBeCounted, ExplainsSent, IsTaken, is_one_too_many};

use crate::kinds::{is_barred, is_data_line, is_query_line};
use command_text::{
    Command, CommandFault, LINE_LIMIT, LineReader, Refusal, lines_are_read_by_the_grammar,
};
use feeds_meaning::{DATA_LINES_LIMIT, QUERY_LINES_LIMIT};
use ftl_lexer::cut_gives_the_tokens;

/// Whether a line passes the limits of lines, where so many data commands were accepted of all users, and so many commands
/// on queries of this one.
fn passes_limits(line: &[u8], data_lines: u32, query_lines: u32) -> bool
    ensures { result ≡ is_one_too_many data_lines query_lines line.now }
{
    let is_full = data_lines >= DATA_LINES_LIMIT && is_data_line(line);
    is_full || (query_lines >= QUERY_LINES_LIMIT && is_query_line(line))
}

/// The command of a user's line, or the first refusal of it that doesn't depend on what is held.
#[tactic(auto, using(crate::proofs::JudgingLemmas::limit_explains, crate::proofs::JudgingLemmas::read_explains, crate::proofs::JudgingLemmas::barred_explains, crate::proofs::JudgingLemmas::taken_has_room))]
pub(crate) fn read_own(
    reader: &mut LineReader,
    line: &[u8],
    data_lines: u32,
    query_lines: u32,
) -> Result<Command, CommandFault>
    ensures ok { IfOk result (λ c. IsTaken data_lines query_lines line.now (command_view c)) }
    ensures room { IfOk result (λ c. CanBeCounted data_lines query_lines (command_view c)) }
    ensures cause { IfErr result (ExplainsSent data_lines query_lines line.now) }
{
    // Calls that do nothing, whose contracts say what the first word of a line that is read is.
    lines_are_read_by_the_grammar();
    cut_gives_the_tokens();
    if passes_limits(line, data_lines, query_lines) {
        return Err(CommandFault::Refused(Refusal::JournalFull));
    }
    let command = reader.read(line, LINE_LIMIT)?;
    if is_barred(&command) {
        return Err(CommandFault::Refused(Refusal::BadSyntax));
    }
    Ok(command)
}
