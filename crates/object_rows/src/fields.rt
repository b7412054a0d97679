//! What a field gives.
ghost use Rattle.std.specs.Prelude.{◌≡◌, Some, None, if◌then◌else◌};
ghost use Rattle.std.specs.Option.{option_copied};
ghost use Rattle.std.specs.List.{list_all};
ghost use Rattle.ftl_lexer.specs.Cut.{is_word};
ghost use Rattle.ftl_lexer.specs.Forms.{begins_name, continues_name};
ghost use Rattle.object_rows.specs.Fields.{given_by, is_object_name, is_text_byte, is_text_field, one_leg};

use crate::columns::Form;
use case_table::reserved_code;
use fixed_point::{Fix, Slope, Word};
use motion::{Given, Legs};

fn begins_name(byte: u8) -> bool
    ensures { result ≡ begins_name byte }
{
    byte.is_ascii_alphabetic() || byte == b'_'
}

fn continues_name(byte: u8) -> bool
    ensures { result ≡ continues_name byte }
{
    byte.is_ascii_alphanumeric() || byte == b'_'
}

fn all_continue(bytes: &[u8]) -> bool
    ensures { result ≡ list_all continues_name bytes.now }
{
    bytes.iter().all(|byte| continues_name(*byte))
}

fn is_word(field: &[u8]) -> bool
    ensures { result ≡ is_word field.now }
{
    match field.split_first() {
        Some((first, rest)) => begins_name(*first) && all_continue(rest),
        None => false,
    }
}

/// The name of an object, None where the field is no name, or a reserved one.
pub(crate) fn object_name(field: &[u8]) -> Option<Word>
    ensures { result ≡ (if is_object_name field.now then Some field.now else None) }
{
    let name = Word::of(field)?;
    if is_word(field) && reserved_code(field).is_none() {
        Some(name)
    } else {
        None
    }
}

fn is_text_byte(byte: u8) -> bool
    ensures { result ≡ is_text_byte byte }
{
    (b' '..=b'~').contains(&byte) && byte != b'"'
}

fn are_text_bytes(bytes: &[u8]) -> bool
    ensures { result ≡ list_all is_text_byte bytes.now }
{
    bytes.iter().all(|byte| is_text_byte(*byte))
}

fn text(field: &[u8]) -> Option<Word>
    ensures { result ≡ (if is_text_field field.now then Some field.now else None) }
{
    let text = Word::of(field)?;
    if are_text_bytes(field) {
        Some(text)
    } else {
        None
    }
}

/// What a field of this form gives, None where it isn't of the form.
pub(crate) fn given_by(form: Form, field: &[u8]) -> Option<Given>
    ensures { result ≡ given_by form field.now }
{
    match form {
        Form::Number => Some(Given::Num(Fix::read(field)?)),
        Form::Text => Some(Given::Text(text(field)?)),
        Form::Rate => Some(Given::Rate(Legs::steady(Slope::read(field)?))),
    }
}
