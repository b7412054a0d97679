//! What holds of printed queries. Each is a contract with nothing to run.

ghost use Rattle.ftl_parser.specs.TextLaws.{PrintsQueryShortly, PrintsReadQuery, PrintsShorterThanFourLines, ReadsOneQuery, ReadsPrintedQuery, ReadsQueryAgain, TokensFit};

/// A query that tokens of a line spell, none of them a name or text that is too long, can be printed so
/// that it is read back: no list of it is empty, its names are name tokens, its texts have no quotes, both
/// have at most the bytes of a word, and its numbers are in the ranges of their places.
#[tactic(auto, using(crate::proofs::canonical::TextShapes::prints_what_is_read))]
pub fn read_queries_are_printable()
    ensures { PrintsReadQuery }
{}

/// The printed text of a query that tokens of a line spell has at most four bytes for each byte of these
/// tokens, and tokens have no more bytes than their line: so that of a query from a line of at most
/// 4,096 bytes has at most 16,384.
#[tactic(auto, using(crate::proofs::canonical::TextLengths::prints_shortly, crate::proofs::canonical::TextLengths::tokens_fit, crate::proofs::canonical::TextLengths::prints_shorter))]
pub fn printed_queries_are_short()
    ensures queries { PrintsQueryShortly }
    ensures tokens { TokensFit }
    ensures lines { PrintsShorterThanFourLines }
{}

/// The printed text of such a query is cut into tokens that spell this query, each number in the range of
/// its place. So a query that was read is read again from its text, with the same sizes.
pub fn printed_queries_are_read_back()
    ensures printed { ReadsPrintedQuery }
    ensures read { ReadsQueryAgain }
{}

/// Tokens that are read as a query are read as no other, and what `parse` tells of them is this query, or
/// that there is no memory for it.
pub fn tokens_are_read_as_one_query()
    ensures { ReadsOneQuery }
{}
