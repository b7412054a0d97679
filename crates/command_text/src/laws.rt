//! What is read and what is refused, told by the grammar alone. Each is a contract with nothing to run.

ghost use Rattle.std.specs.Prelude.{◌≡◌, ◌^◌, List, ℕ};
ghost use Rattle.command_text.specs.declared.journal.TheConstants.{MOST_BYTES, MOST_ENTRIES};
ghost use Rattle.command_text.specs.declared.ranges.TheConstants.{NEAREST_LIMIT};
ghost use Rattle.command_text.specs.declared.reading.TheConstants.{LINE_LIMIT};
ghost use Rattle.command_text.specs.FirstWord.{BeginsWithItsWord};
ghost use Rattle.command_text.specs.Piece.{Piece};
ghost use Rattle.command_text.specs.GrammarLaws.{AreReadByTheGrammar, IsReadByTheGrammar, IsRefusedByTheGrammar};

/// Tokens that spell a command are read as this command, and tokens that are read as a command spell it.
/// They spell at most one.
#[tactic(auto, using(crate::proofs::grammar::DerivedLines::tokens_are_read))]
pub fn tokens_are_read_by_the_grammar()
    ensures { (tokens : List Piece) → AreReadByTheGrammar tokens }
{}

/// A line that passes the first three refusals is read as a command just where its tokens spell this
/// command, with each number in the range of its place and each size within its limit. A comment is read
/// as nothing, and no line that they refuse is read.
#[tactic(auto, using(crate::proofs::grammar::DerivedLines::lines_are_read))]
pub fn lines_are_read_by_the_grammar()
    ensures { (limit : ℕ) (line : List ℕ) → IsReadByTheGrammar limit line }
{}

/// A line that passes the first three refusals and isn't a comment is refused by BadSyntax just where its
/// tokens spell no command, by NumberRange where they spell one with a number out of range, and by TooLarge
/// where all numbers of the one that they spell are in range and a size is past its limit.
#[tactic(auto, using(crate::proofs::grammar::DerivedLines::lines_are_refused))]
pub fn lines_are_refused_by_the_grammar()
    ensures { (limit : ℕ) (line : List ℕ) → IsRefusedByTheGrammar limit line }
{}

/// After its spaces and tabs a line begins with the first word of the command that it is read as. So a line of `save`,
/// `import` or `export` is known by its first bytes.
#[tactic(auto, using(crate::proofs::grammar::FirstWords::begins_with_its_word))]
pub fn lines_begin_with_their_words()
    ensures { (line : List ℕ) → BeginsWithItsWord line }
{}

/// The limits of this crate by their numbers.
pub fn limits_in_numbers()
    ensures line { LINE_LIMIT ≡ 4096 }
    ensures nearest { NEAREST_LIMIT ≡ 100 }
    ensures entries { MOST_ENTRIES ≡ 2000000 }
    ensures bytes { MOST_BYTES ≡ 2 ^ 28 }
{}
