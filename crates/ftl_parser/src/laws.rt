//! What holds of the definitions, and small examples of them. Each is a contract with nothing to run.

ghost use Rattle.std.specs.Prelude.{◌≡◌, List};
ghost use Rattle.ftl_parser.specs.Example.{FindsUnfitNumbers, JudgesSizes, ParsesSmallQueries, StopsAtTheEnd};
ghost use Rattle.ftl_parser.specs.Grammar.{SpellsQuery};
ghost use Rattle.ftl_parser.specs.declared.scan.Coming.TheVariants as comings;
ghost use Rattle.ftl_parser.specs.Marks.{first_unfit, query_marks};
ghost use Rattle.ftl_parser.specs.Order.{TermsIn, query_names, query_terms, query_texts, token_names, token_texts};
ghost use Rattle.ftl_parser.specs.Piece.{Piece};
ghost use Rattle.ftl_parser.specs.inner.Scan.{scan};
ghost use Rattle.ftl_parser.specs.Tree.{QueryTree};

/// Doubled brackets leave no trace; AND binds more than OR, an until more than AND, and a unary form
/// most; AND and OR go to the left and untils to the right.
#[tactic(auto, unfolding(fixed_point::specs::Decimal::thousandths_of, fixed_point::specs::Decimal::unsigned_thousandths, fixed_point::specs::Decimal::decimals_of))]
pub fn small_queries_are_parsed()
    ensures { ParsesSmallQueries }
{}

/// A query that stops too early begins as one to its end.
pub fn an_unended_query_stops_at_its_end()
    ensures { StopsAtTheEnd }
{}

/// The number of a DIST is at most 10^12 thousandths, with at most three decimals.
#[tactic(auto, unfolding(fixed_point::specs::Decimal::thousandths_of, fixed_point::specs::Decimal::unsigned_thousandths, fixed_point::specs::Decimal::decimals_of))]
pub fn numbers_out_of_range_are_found()
    ensures { FindsUnfitNumbers }
{}

/// Each size is judged at its limit, and the first one that passes it is told.
pub fn sizes_are_judged_in_order()
    ensures { JudgesSizes }
{}

/// Tokens spell at most one query.
#[tactic(auto, using(crate::proofs::grammar::Drives::one_query))]
pub fn tokens_spell_at_most_one_query()
    ensures { (tokens : List Piece) (q r : QueryTree) → SpellsQuery q tokens → SpellsQuery r tokens → q ≡ r }
{}

/// Which numbers of a query are unfit follows from the tokens alone: the marks that its rules give to its
/// tokens are those of a scan of them. So two derivations of the same tokens have the same first number
/// that doesn't fit its place.
#[tactic(auto, using(crate::proofs::grammar::Marks::marks_are_scanned, crate::proofs::grammar::Marks::one_first_unfit))]
pub fn unfit_numbers_are_those_of_the_tokens()
    ensures marks { (tokens : List Piece) (q : QueryTree) (d : SpellsQuery q tokens) → query_marks d ≡ scan comings.Factor tokens }
    ensures first { (tokens : List Piece) (q r : QueryTree) (d : SpellsQuery q tokens) (e : SpellsQuery r tokens) → first_unfit d ≡ first_unfit e }
{}

/// The names of a query, in the order in which it is written, are those among its tokens, and so are its
/// texts. Its terms are spelled by runs of its tokens, one after the other.
#[tactic(auto, using(crate::proofs::grammar::OrderLemmas::names_in_order, crate::proofs::grammar::OrderLemmas::texts_in_order, crate::proofs::grammar::OrderLemmas::terms_in_order))]
pub fn names_and_terms_stand_in_order()
    ensures names { (tokens : List Piece) (q : QueryTree) → SpellsQuery q tokens → query_names q ≡ token_names tokens }
    ensures texts { (tokens : List Piece) (q : QueryTree) → SpellsQuery q tokens → query_texts q ≡ token_texts tokens }
    ensures terms { (tokens : List Piece) (q : QueryTree) → SpellsQuery q tokens → TermsIn (query_terms q) tokens }
{}
