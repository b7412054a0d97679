//! Texts without their quotes.

ghost use Rattle.std.specs.Prelude.{◌≡◌, ◌∷◌, ◌++◌, [], IsTrue};
ghost use Rattle.ftl_lexer.specs.Cut.{IsQuoted, has_no_quote};

/// The bytes of a text token between its quotes.
#[inline]
pub fn unquoted(text: &[u8]) -> &[u8]
    requires { IsQuoted text.now }
    ensures whole { text.now ≡ 34 ∷ result.now ++ 34 ∷ [] }
    ensures inside { IsTrue (has_no_quote result.now) }
{
    &text[1..text.len() - 1]
}
