//! Bytes and numbers at the end of a buffer.
ghost use Rattle.std.specs.Prelude.{◌≡◌, ◌++◌, decimal, OnOk, OnErr};
ghost use Rattle.line_meaning.specs.Reply.{ok_line};
ghost use Rattle.reply_text.specs.Begins.{Begins};

use itoa::Buffer;
use std::alloc::AllocError;

/// Writes bytes to the end.
#[tactic(auto, using(crate::proofs::BeginLemmas::begins_more))]
pub(crate) fn push(out: &mut Vec<u8>, bytes: &[u8]) -> Result<(), AllocError>
    ensures ok { OnOk result (out.new.items ≡ out.old.items ++ bytes.now) }
    ensures err { OnErr result (out.new.items ≡ out.old.items) }
    ensures begins { Begins out.old.items out.new.items }
{
    out.extend_from_slice(bytes)?;
    Ok(())
}

/// Writes a whole number in decimal digits.
pub(crate) fn push_whole(out: &mut Vec<u8>, number: u64) -> Result<(), AllocError>
    ensures ok { OnOk result (out.new.items ≡ out.old.items ++ decimal number) }
    ensures begins { Begins out.old.items out.new.items }
{
    push(out, Buffer::new().format(number).as_bytes())
}

/// Writes the end of an accepted line's reply. After an error nothing has changed.
pub fn push_ok(out: &mut Vec<u8>) -> Result<(), AllocError>
    ensures ok { OnOk result (out.new.items ≡ out.old.items ++ ok_line) }
    ensures err { OnErr result (out.new.items ≡ out.old.items) }
    ensures begins { Begins out.old.items out.new.items }
{
    push(out, b"ok\n")
}
