//! The tokens of one line.

ghost use Rattle.std.specs.Prelude.{◌≡◌, length, IfOk, IfErr};
ghost use Rattle.ftl_lexer.specs.Faults.{ExplainsBytes};
ghost use Rattle.ftl_lexer.specs.Tokens.{bad_place};
ghost use Rattle.ftl_lexer.specs.Forms.{FitsLexer};

use crate::LexFault;
use crate::buffer::Tokens;
use std::alloc::Global;

/// The tokens of a line of at most 16,384 bytes. Answers `BadToken` with the first byte at which no
/// token begins, also where there is no memory.
pub fn tokens(alloc: Global, line: &[u8]) -> Result<Tokens, LexFault>
    requires { FitsLexer (length line.now) }
    ensures ok { IfOk result (λ t. (t ≡ line.now) × (bad_place line.now ≡ None)) }
    ensures cause { IfErr result (ExplainsBytes line.now) }
{
    let mut tokens = Tokens::new(alloc);
    tokens.read(line)?;
    Ok(tokens)
}
