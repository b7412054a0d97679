// Replies are gathered, and written together.
ghost use Rattle.std.specs.Prelude.{◌≡◌, ◌≤◌, ℕ, List, Some, true, IfOk, length};
ghost use Rattle.outside.specs.Faults.{HasCauseOrNoMemory};
ghost use Rattle.line_loop.specs.Stop.{WritesAll, StopHasCause};
ghost use Rattle.line_loop.specs.Gathered.{Sends};

use crate::stop::Stop;
use outside::{OutFail, Sink};

/// How many gathered bytes may wait for a line that doesn't ask the context.
pub const GATHERED: usize = 65_536;

/// Writes all of the bytes, with as many writes as it takes, unless a write fails.
#[tactic(auto, using(crate::proofs::LinesLemmas::grown))]
pub fn write_all<K: Sink>(sink: &mut K, bytes: &[u8]) -> Result<(), OutFail>
    ensures cause { HasCauseOrNoMemory (K.faults sink.old) (K.faults sink.new) result }
    ensures written { (written : List ℕ) → K.written sink.old ≡ Some written →
        WritesAll bytes.now written result (K.written sink.new) }
{
    let mut count = 0;
    while count < bytes.len() {
        count += sink.write(&bytes[count..])?;
    }
    Ok(())
}

/// How many gathered bytes may wait until a line is answered: none where it may ask the context, since the replies
/// before it are written also where the context fails.
#[inline]
pub fn most_waiting(asks: bool) -> usize
    ensures { asks ≡ true → result ≡ 0 }
{
    if asks { 0 } else { GATHERED }
}

/// Writes the gathered replies, where there are more than `most` bytes of them.
pub fn send<K: Sink>(sink: &mut K, replies: &mut Vec<u8>, most: usize) -> Result<(), Stop>
    ensures cause { (context : ℕ) → StopHasCause (K.faults sink.old) (K.faults sink.new) context context result }
    ensures sends { Sends replies.old.items (K.written sink.old) result replies.new.items (K.written sink.new) }
    ensures few { IfOk result (λ _. length replies.new.items ≤ most) }
{
    if replies.len() <= most {
        return Ok(());
    }
    match write_all(sink, replies) {
        Ok(()) => {
            replies.clear();
            Ok(())
        }
        Err(OutFail::Failed) => Err(Stop::Write),
        Err(OutFail::NoMemory) => Err(Stop::NoMemory),
    }
}
