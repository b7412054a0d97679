//! What kind a token is of.
ghost use Rattle.std.specs.Prelude.{◌≡◌, ◌<◌, ◌≤◌, ℕ, List};
ghost use Rattle.case_table.specs.declared.key.TheConstants.{CLASS};
ghost use Rattle.case_table.specs.declared.symbol.TheConstants.{ASSIGN};
ghost use Rattle.command_text.specs.Piece.{piece_of};
ghost use Rattle.command_text.specs.inner.Reading.{kind_by_code, kind_in};
ghost use Rattle.command_text.specs.inner.Tests.{is_key, is_sign, is_name, is_text};

use case_table::key;
use ftl_lexer::Kind;
use motion::AttrKind;

/// Whether a token is the word of a code, which is none of queries.
#[inline]
#[tactic(auto, using(crate::proofs::reader::TableLemmas::token_tests))]
pub(crate) fn is_key(kind: Kind, code: u8) -> bool
    requires { CLASS ≤ code }
    ensures { (bytes : List ℕ) → result ≡ is_key code (piece_of kind bytes) }
{
    match kind {
        Kind::Key(found) => found == code,
        _ => false,
    }
}

/// Whether a token is the symbol of a code, which isn't the last one.
#[inline]
#[tactic(auto, using(crate::proofs::reader::TableLemmas::token_tests))]
pub(crate) fn is_sign(kind: Kind, code: u8) -> bool
    requires { code < ASSIGN }
    ensures { (bytes : List ℕ) → result ≡ is_sign code (piece_of kind bytes) }
{
    match kind {
        Kind::Sym(found) => found == code,
        _ => false,
    }
}

#[inline]
#[tactic(auto, using(crate::proofs::reader::TableLemmas::token_tests))]
pub(crate) fn is_name(kind: Kind) -> bool
    ensures { (bytes : List ℕ) → result ≡ is_name (piece_of kind bytes) }
{
    matches!(kind, Kind::Name)
}

#[inline]
#[tactic(auto, using(crate::proofs::reader::TableLemmas::token_tests))]
pub(crate) fn is_text(kind: Kind) -> bool
    ensures { (bytes : List ℕ) → result ≡ is_text (piece_of kind bytes) }
{
    matches!(kind, Kind::Text)
}

#[inline]
fn kind_of(code: u8) -> Option<AttrKind>
    ensures { result ≡ kind_by_code code }
{
    match code {
        key::NUM => Some(AttrKind::Num),
        key::TEXT => Some(AttrKind::Text),
        key::DYN => Some(AttrKind::Dyn),
        _ => None,
    }
}

/// The kind of attribute that a word names.
#[inline]
#[tactic(auto, using(crate::proofs::reader::TableLemmas::token_tests))]
pub(crate) fn attr_kind(kind: Kind) -> Option<AttrKind>
    ensures { (bytes : List ℕ) → result ≡ kind_in (piece_of kind bytes) }
{
    match kind {
        Kind::Key(code) => kind_of(code),
        _ => None,
    }
}
