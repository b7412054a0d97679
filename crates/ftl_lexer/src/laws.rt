//! What holds of the tokens of every line. Each is a contract with nothing to run.

ghost use Rattle.std.specs.Prelude.{◌≡◌, ℕ, List, [], ◌∷◌, ◌++◌, Some, None, IsTrue};
ghost use Rattle.case_table.specs.Rows.{code_of};
ghost use Rattle.case_table.specs.Language.{symbols};
ghost use Rattle.ftl_lexer.specs.declared.buffer.TheConstants.{LEXER_LIMIT};
ghost use Rattle.ftl_lexer.specs.declared.kinds.Kind.TheVariants.{Number, Text, Sym};
ghost use Rattle.ftl_lexer.specs.Forms.{is_blank, name_len, digits_len, fraction_len, word_kind};
ghost use Rattle.ftl_lexer.specs.Tokens.{bad_place, tokens_of, lexemes};
ghost use Rattle.ftl_lexer.specs.Cut.{Lexeme, cut, put_before, is_word, is_number, has_no_quote, IsQuoted, stands_alone};
ghost use Rattle.ftl_lexer.specs.Laws.{AreTokens};

/// The tokens of a line where each byte is blank or belongs to one: their spans ascend and lie in the
/// line, each has the form of its kind, nothing but blanks stands between them, and none is the front of
/// a longer one. Another line has no tokens.
#[tactic(auto, using(crate::proofs::Spans::no_tokens))]
pub fn tokens_are_tokens()
    ensures tokens { (line : List ℕ) → bad_place line ≡ None → AreTokens line (tokens_of line) }
    ensures none { (line : List ℕ) (place : ℕ) → bad_place line ≡ Some place → tokens_of line ≡ [] }
{}

/// The kinds and bytes of a line's tokens don't depend on places: they are what the line is cut into.
#[tactic(auto, using(crate::proofs::Cuts::lexemes_from_cut, crate::proofs::Cuts::cut_from_good))]
pub fn cut_gives_the_tokens()
    ensures from_cut { (line : List ℕ) (all : List Lexeme) → cut 0 line ≡ Some all
        → (bad_place line ≡ None) × (lexemes line ≡ all) }
    ensures to_cut { (line : List ℕ) → bad_place line ≡ None → cut 0 line ≡ Some (lexemes line) }
{}

/// What is written at the front of a text is read back, whatever stands after it: a name or a reserved
/// word where no byte of a name follows, a number where neither a digit nor a point with a digit
/// follows, a text, which has two quotes and none between them, a symbol that begins no longer one, and
/// a blank, which is dropped.
#[tactic(auto, using(crate::proofs::Fronts::cut_word, crate::proofs::Fronts::cut_number, crate::proofs::Fronts::cut_text, crate::proofs::Fronts::quoted_form, crate::proofs::Fronts::cut_symbol, crate::proofs::Fronts::cut_blank))]
pub fn written_tokens_are_read_back()
    ensures word { (word rest : List ℕ) → IsTrue (is_word word) → name_len rest ≡ 0
        → cut 0 (word ++ rest) ≡ put_before (word_kind word, word) (cut 0 rest) }
    ensures number { (number rest : List ℕ) → IsTrue (is_number number) → digits_len rest ≡ 0 → fraction_len rest ≡ 0
        → cut 0 (number ++ rest) ≡ put_before (Number, number) (cut 0 rest) }
    ensures text { (text rest : List ℕ) → IsQuoted text
        → cut 0 (text ++ rest) ≡ put_before (Text, text) (cut 0 rest) }
    ensures quoted { (inner : List ℕ) → IsTrue (has_no_quote inner) → IsQuoted (34 ∷ inner ++ 34 ∷ []) }
    ensures symbol { (symbol : ℕ) (rest : List ℕ) (code : ℕ) → IsTrue (stands_alone symbol)
        → code_of symbols (symbol ∷ []) ≡ Some code
        → cut 0 (symbol ∷ rest) ≡ put_before (Sym code, symbol ∷ []) (cut 0 rest) }
    ensures blank { (b : ℕ) (rest : List ℕ) → IsTrue (is_blank b) → cut 0 (b ∷ rest) ≡ cut 0 rest }
{}

/// The limit of this crate by its number.
pub fn limits_in_numbers()
    ensures lexer { LEXER_LIMIT ≡ 16384 }
{}
