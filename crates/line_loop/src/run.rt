// The read loop.
ghost use Rattle.std.specs.Prelude.{◌≡◌, ◌≤◌, ◌+◌, ◌-◌, [], ℕ, List, Some, min, max};
ghost use Rattle.line_loop.specs.Ending.{EndsWithCause, KeepsLimit, HasEnding};
ghost use Rattle.line_loop.specs.Kept.{kept_part};
ghost use Rattle.line_loop.specs.Lines.{last_line};
ghost use Rattle.line_loop.specs.Run.{answered_lines};
ghost use Rattle.line_loop.specs.Spending.{total_cost};
ghost use Rattle.line_loop.specs.Stop.{Point, IsAt, Takes, StopHasCause};

use crate::buffer::LineBuffer;
use crate::lines::{answer_line, take_piece};
use crate::replies::{GATHERED, send};
use crate::stop::Stop;
use crate::{Ending, Handler};
use outside::{Failed, Sink, Source};
use std::alloc::Global;

/// The most bytes that a read asks for.
pub const PIECE: usize = 4096;

/// Answers the lines of a source and writes the replies to a sink, until the source or the machine is done, a call of
/// the outside fails, there is no memory, or the source has more than `limit` bytes.
///
/// Lines end with a line feed; one carriage return directly before it is dropped. The last line may lack its line feed.
/// Each line that has ended is answered before the next read. The replies are gathered and written together: before the
/// next read, before a line that may ask the context, where they have more than [`GATHERED`] bytes, and at the end. A read asks
/// for at most [`PIECE`] bytes, and for none past the limit but the one that shows that there is another.
pub fn run_lines<C, H: Handler<C>, S: Source, K: Sink>(
    alloc: Global,
    limit: u64,
    handler: &mut H,
    source: &mut S,
    sink: &mut K,
    context: &mut C,
) -> Ending
    ensures cause { EndsWithCause result
        (record { source = S.faults source.old; sink = K.faults sink.old; context = H.faults context.old })
        (record { source = S.faults source.new; sink = K.faults sink.new; context = H.faults context.new }) }

    // Where the source tells its bytes.
    ensures taken { (bytes : List ℕ) → S.left source.old ≡ Some bytes → KeepsLimit limit bytes result (S.left source.new) }

    // Where the sink, the handler and the context tell what they hold too.
    ensures ends { (start : Point H.State) (bytes : List ℕ) →
        IsAt start (H.state handler.old context.old) (K.written sink.old) → S.left source.old ≡ Some bytes →
        HasEnding H.machine H.leaves limit start bytes result
        (H.state handler.new context.new) (K.written sink.new) (S.left source.new) }
    ensures spends { (start : Point H.State) (bytes : List ℕ) →
        IsAt start (H.state handler.old context.old) (K.written sink.old) → S.left source.old ≡ Some bytes →
        H.spent handler.new ≤ H.spent handler.old + total_cost H.machine H.cost start.state (answered_lines H.machine limit start.state bytes) }
{
    let Ok(mut line) = LineBuffer::new(alloc, H::LONGEST) else {
        return Ending::NoMemory;
    };
    // With room for a short reply after those that wait, so that a refusal takes no memory.
    let Ok(mut replies) = Vec::with_capacity(alloc, GATHERED + PIECE) else {
        return Ending::NoMemory;
    };
    let mut piece = [0u8; PIECE];
    let mut taken = 0;
    'reading: while !handler.is_done() {
        match source.read(&mut piece[..room(limit, taken)]) {
            Err(Failed) => return Ending::ReadFault,
            Ok(0) => {
                if let Err(stop) = finish(handler, context, sink, &mut replies, &line) {
                    return Ending::from(stop);
                }
                return Ending::Done;
            }
            Ok(_) if taken == limit => return Ending::InputLimit,
            Ok(len) => {
                taken += len as u64;
                let taking = take_piece(
                    handler,
                    context,
                    sink,
                    &mut line,
                    &mut replies,
                    &piece[..len],
                );
                if let Err(stop) = taking {
                    return Ending::from(stop);
                }
            }
        }
    }
    Ending::Done
}

// How many bytes the next read asks for: what the limit leaves, but one to see whether there is another.
#[inline]
fn room(limit: u64, taken: u64) -> usize
    requires { taken ≤ limit }
    ensures { result ≡ max 1 (min PIECE (limit - taken)) }
{
    (limit - taken).clamp(1, PIECE as u64) as usize
}

// At the end of the input: answers the last line, where it lacks its line feed.
fn finish<C, H: Handler<C>, K: Sink>(
    handler: &mut H,
    context: &mut C,
    sink: &mut K,
    replies: &mut Vec<u8>,
    line: &LineBuffer,
) -> Result<(), Stop>
    requires none { replies.old.items ≡ [] }
    ensures cause { StopHasCause (K.faults sink.old) (K.faults sink.new) (H.faults context.old) (H.faults context.new) result }
    ensures takes { (start : Point H.State) (begun : List ℕ) →
        IsAt start (H.state handler.old context.old) (K.written sink.old) → line.now.kept ≡ kept_part H.LONGEST begun →
        Takes H.machine H.leaves start (last_line begun) result (H.state handler.new context.new) (K.written sink.new) }
    ensures spends { (now : H.State) (begun : List ℕ) → H.state handler.old context.old ≡ Some now →
        line.now.kept ≡ kept_part H.LONGEST begun →
        H.spent handler.new ≤ H.spent handler.old + total_cost H.machine H.cost now (last_line begun) }
{
    let last = line.unended();
    if last.is_empty() {
        return Ok(());
    }
    if let Err(stop) = answer_line(handler, context, sink, replies, last) {
        return Err(stop);
    }
    send(sink, replies, 0)
}
