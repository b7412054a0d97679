//! The tokens of a line, kept with the line.

ghost use Rattle.std.specs.Prelude.{◌≡◌, ℕ, ◌≤◌, ◌<◌, ◌+◌, [], Err, length, vec_len, vec_capacity, OnOk, OnErr, IfErr, IsTrue, ◌↔◌, slice_get, slice_range, option_map, IfSome};
ghost use Rattle.ftl_lexer.specs.Tokens.{bad_place, tokens_of, texts_of_tokens, lexemes};
ghost use Rattle.ftl_lexer.specs.Cut.{HasForm};
ghost use Rattle.ftl_lexer.specs.Faults.{ExplainsBytes, StandsAfter};
ghost use Rattle.ftl_lexer.specs.inner.Room.{room_of, HoldLine, BuffersStandAfter};
ghost use Rattle.ftl_lexer.specs.declared.fault.LexFault.TheVariants.{NoMemory};
ghost use Rattle.ftl_lexer.specs.Forms.{FitsLexer};

use crate::walk::{Step, bad_token, next};
use crate::{Kind, LexFault, Token};
use std::alloc::{AllocError, Global};
use std::marker::Model;

/// The most bytes of a line that is cut into tokens.
pub const LEXER_LIMIT: usize = 16_384;

// Adds the tokens of a line, up to the first byte at which no token begins, and answers that byte.
fn fill(tokens: &mut Vec<Token>, line: &[u8]) -> Option<usize>
    requires empty { tokens.old.items ≡ [] }
    requires short { FitsLexer (length line.now) }
    requires room { length line.now ≤ vec_capacity tokens.old }
    ensures bad { result ≡ bad_place line.now }
    ensures tokens { result ≡ None → tokens.new.items ≡ tokens_of line.now }
    ensures room { length line.now ≤ vec_capacity tokens.new }
{
    let mut at = 0;
    'filling: loop {
        match next(line, at) {
            Step::End => return None,
            Step::Token { kind, lo, hi } => {
                let token = Token {
                    kind,
                    lo: lo as u16,
                    hi: hi as u16,
                };
                tokens.push(token).unwrap();
                at = hi;
            }
            Step::Bad(place) => return Some(place),
        }
    }
}

// Room for a line of this length and for its tokens, of which there are no more than bytes. Fails only
// where the line or the tokens had no room.
fn make_room(line: &mut Vec<u8>, tokens: &mut Vec<Token>, len: usize) -> Result<(), AllocError>
    ensures line { line.new.items ≡ line.old.items }
    ensures tokens { tokens.new.items ≡ tokens.old.items }
    ensures kept { vec_capacity tokens.old ≤ vec_capacity tokens.new }
    ensures room { OnOk result (len ≤ room_of line.new tokens.new) }
    ensures full { OnErr result (room_of line.old tokens.old < len) }
{
    line.reserve(len.saturating_sub(line.len()))?;
    tokens.reserve(len.saturating_sub(tokens.len()))
}

// Reads a line and its tokens in place of those before. Wants no memory where both have room for it.
fn read_into(held: &mut Vec<u8>, tokens: &mut Vec<Token>, line: &[u8]) -> Result<(), LexFault>
    requires { FitsLexer (length line.now) }
    ensures ok { OnOk result (HoldLine line.now held.new tokens.new) }
    ensures cause { IfErr result (ExplainsBytes line.now) }
    ensures stands { IfErr result (BuffersStandAfter held.old tokens.old held.new tokens.new) }
    ensures room { result ≡ Err NoMemory → room_of held.old tokens.old < length line.now }
{
    if make_room(held, tokens, line.len()).is_err() {
        let Some(place) = bad_token(line) else {
            return Err(LexFault::NoMemory);
        };
        held.clear();
        tokens.clear();
        return Err(LexFault::BadToken(place));
    }
    held.clear();
    tokens.clear();
    if let Some(place) = fill(tokens, line) {
        tokens.clear();
        return Err(LexFault::BadToken(place));
    }
    held.extend_from_slice(line).unwrap();
    Ok(())
}

#[inline]
fn part(line: &[u8], lo: u16, hi: u16) -> &[u8]
    requires ascend { lo ≤ hi }
    requires within { hi ≤ length line.now }
    ensures { result.now ≡ slice_range line.now lo hi }
{
    &line[lo as usize..hi as usize]
}

/// The tokens of a line, with a copy of the line. A contract sees the line: the tokens are `tokens_of`
/// it, and each of its bytes is blank or belongs to a token. One value can be read into again and
/// again, and wants no memory for a line that is no longer than the one that it holds.
#[derive(Drop)]
pub struct Tokens {
    line: Vec<u8>,
    tokens: Vec<Token>,
}

impl Model for Tokens {
    ghost use Rattle.std.specs.Prelude.{◌≡◌, ◌≤◌, ℕ, List, None, length, vec_capacity};
    ghost use Rattle.ftl_lexer.specs.Tokens.{bad_place, tokens_of};
    ghost use Rattle.ftl_lexer.specs.declared.buffer.TheConstants.{LEXER_LIMIT};

    ghost Value = { List ℕ };

    ghost view = { λ t. t.line.items };

    ghost invariant = { λ t. (t.tokens.items ≡ tokens_of t.line.items)
        × (bad_place t.line.items ≡ None)
        × (length t.line.items ≤ LEXER_LIMIT)
        × (length t.line.items ≤ vec_capacity t.tokens) };
}

impl Tokens {
    /// The tokens of the empty line. Takes no memory.
    pub fn new(alloc: Global) -> Tokens
        ensures { result ≡ [] }
    {
        Tokens {
            line: Vec::new(alloc),
            tokens: Vec::new(alloc),
        }
    }

    /// Reads a line of at most 16,384 bytes in place of the one before. Answers `BadToken` with the
    /// first byte at which no token begins, also where there is no memory; it then holds the empty line.
    /// After `NoMemory` it holds what it held, which the line is longer than.
    pub fn read(&mut self, line: &[u8]) -> Result<(), LexFault>
        requires { FitsLexer (length line.now) }
        ensures ok { OnOk result ((self.new ≡ line.now) × (bad_place line.now ≡ None)) }
        ensures cause { IfErr result (ExplainsBytes line.now) }
        ensures stands { IfErr result (StandsAfter self.old self.new) }

        // A line that is no longer than the one it holds has room where that one stands.
        ensures room { result ≡ Err NoMemory → length self.old < length line.now }
    {
        read_into(&mut self.line, &mut self.tokens, line)
    }

    /// The number of tokens.
    #[inline]
    pub fn len(&self) -> usize
        ensures value { result ≡ length (tokens_of self.now) }
        ensures read { bad_place self.now ≡ None }
        ensures short { FitsLexer (length self.now) }
    {
        // Reading a field brings in the invariant, which the clauses follow from.
        let _line = &self.line;
        self.tokens.len()
    }

    /// Whether the line has no token: it is empty or blank.
    #[inline]
    pub fn is_empty(&self) -> bool
        ensures { IsTrue result ↔ (tokens_of self.now ≡ []) }
    {
        self.tokens.is_empty()
    }

    /// The token at a place, counted from 0. `None` exactly if `i` is out of bounds.
    #[inline]
    pub fn get(&self, i: usize) -> Option<Token>
        ensures { result ≡ slice_get (tokens_of self.now) i }
    {
        self.tokens.get(i).copied()
    }

    /// The bytes of the token at a place, a text with its quotes.
    #[inline]
    pub fn text(&self, i: usize) -> &[u8]
        requires { i < length (tokens_of self.now) }
        ensures { slice_get (texts_of_tokens self.now) i ≡ Some result.now }
    {
        let token = self.tokens[i];
        part(&self.line, token.lo, token.hi)
    }

    /// The kind and the bytes of the token at a place. `None` exactly if `i` is out of bounds.
    #[inline]
    pub fn lexeme(&self, i: usize) -> Option<(Kind, &[u8])>
        ensures value { option_map (λ l. (l.0, l.1.now)) result ≡ slice_get (lexemes self.now) i }
        ensures form { IfSome result (λ l. HasForm l.0 l.1.now) }
    {
        let token = self.get(i)?;
        Some((token.kind, self.text(i)))
    }
}
