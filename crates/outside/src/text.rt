// Texts in memory by their names, in a list.
ghost use Rattle.std.specs.Prelude.{◌≡◌, ℕ, List, OnOk, OnErr, MatchOption, position, None, Some, length, ◌<◌, take};
ghost use Rattle.std.specs.Option.{option_copied};
ghost use Rattle.std.specs.Str.{bytes_eq};
ghost use Rattle.outside.specs.Shelf.{texts_of, texts_with};

use std::alloc::{AllocError, Global};
use std::marker::Model;

/// A text with its name.
#[derive(Drop)]
pub struct Text {
    name: Vec<u8>,
    bytes: Vec<u8>,
}

impl Model for Text {
    ghost use Rattle.std.specs.Prelude.{ℕ, List};

    ghost Value = { List ℕ × List ℕ };

    ghost view = { λ t. (t.name.items, t.bytes.items) };
}

// The place of the first text under the name.
fn place_of(texts: &[Text], name: &[u8]) -> Option<usize>
    ensures { result ≡ position (λ entry. bytes_eq entry.0 name.now) texts.now }
{
    texts.iter().position(|text| text.name.as_slice() == name)
}

/// The bytes under the name.
#[tactic(auto, using(crate::proofs::Entries::entry_lemmas))]
pub fn get<'a>(texts: &'a [Text], name: &[u8]) -> Option<&'a [u8]>
    ensures { option_copied result ≡ texts_of texts.now name.now }
{
    let place = place_of(texts, name)?;
    let text = &texts[place];
    Some(&text.bytes)
}

/// Puts the bytes under the name, in place of those that are there.
#[tactic(auto, using(crate::proofs::Entries::entry_lemmas))]
pub fn set(
    alloc: Global,
    texts: &mut Vec<Text>,
    name: &[u8],
    bytes: &[u8],
) -> Result<(), AllocError>
    ensures ok { OnOk result ((other : List ℕ) → texts_of texts.new.items other ≡ texts_with (texts_of texts.old.items) name.now bytes.now other) }
    ensures err { OnErr result (texts.new.items ≡ texts.old.items) }
{
    let text = Text {
        name: name.to_vec(alloc)?,
        bytes: bytes.to_vec(alloc)?,
    };
    match place_of(texts, name) {
        Some(place) => texts[place] = text,
        None => texts.push(text)?,
    }
    Ok(())
}
