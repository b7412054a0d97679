//! Who sends a line.
ghost use Rattle.std.specs.Prelude.{◌≡◌, is_none, not, option_map};
ghost use Rattle.case_table.specs.Language.{reserved_words};
ghost use Rattle.case_table.specs.Rows.{code_of};
ghost use Rattle.users.specs.Sender.{after_space, may_be_user, sent, sent_in};

use crate::word::word_at;
use case_table::reserved_code;

/// The most bytes of a user.
pub const USER_LIMIT: usize = 8;

/// The limit, in numbers.
pub fn limits_in_numbers()
    ensures { USER_LIMIT ≡ 8 }
{}

// No reserved word has one byte.
#[tactic(auto, using(crate::proofs::ReservedLemmas::one_byte))]
fn is_reserved(word: &[u8]) -> bool
    ensures { result ≡ not (is_none (code_of reserved_words word.now)) }
{
    word.len() > 1 && reserved_code(word).is_some()
}

fn may_be_user(word: &[u8]) -> bool
    ensures { result ≡ may_be_user word.now }
{
    !word.is_empty() && word.len() <= USER_LIMIT && !is_reserved(word)
}

/// What stands after one space.
fn after_space(bytes: &[u8]) -> Option<&[u8]>
    ensures { option_map (λ line. line.now) result ≡ after_space bytes.now }
{
    match bytes.split_first() {
        Some((b' ', line)) => Some(line),
        _ => None,
    }
}

/// The user and the line of some bytes: a name of at most [`USER_LIMIT`] bytes that isn't reserved, one space, and the line,
/// which may be blank. None where the bytes don't begin so.
pub fn sent_in(bytes: &[u8]) -> Option<(&[u8], &[u8])>
    ensures { option_map (λ s. sent (s.0.now, s.1.now)) result ≡ sent_in bytes.now }
{
    let user = word_at(bytes);
    if !may_be_user(user) {
        return None;
    }
    let line = after_space(&bytes[user.len()..])?;
    Some((user, line))
}
