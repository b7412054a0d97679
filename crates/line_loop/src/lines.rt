// Lines are answered as they end.
ghost use Rattle.std.specs.Prelude.{◌≡◌, ◌≤◌, ◌++◌, ◌∷◌, ◌+◌, ◌-◌, [], ℕ, List, Some, length, OnOk, position, ◌==◌};
ghost use Rattle.std.specs.List.{list_any, position_or_len};
ghost use Rattle.std.specs.Str.Lines.{strip_carriage_return};
ghost use Rattle.line_loop.specs.Lines.{ended_from, open_from, line_feed_byte};
ghost use Rattle.line_loop.specs.Kept.{IsKeptLine, kept_part};
ghost use Rattle.line_loop.specs.Spending.{total_cost};
ghost use Rattle.line_loop.specs.Stop.{Point, IsAt, Takes, StopHasCause};
ghost use Rattle.line_loop.specs.Gathered.{Gathers, Collects};

use crate::Handler;
use crate::buffer::{LineBuffer, without_carriage_return};
use crate::replies::{most_waiting, send};
use crate::stop::Stop;
use outside::{OutFail, Sink};

// The bytes that are looked at together for a line feed, which a compiler does many at a time.
const GROUP: usize = 32;

#[tactic(auto, using(std::proofs::lemmas::List::Folds::list_any_more))]
fn has_line_feed(group: &[u8; GROUP]) -> bool
    ensures { result ≡ list_any (λ byte. byte == line_feed_byte) group.now }
{
    let mut found = false;
    'bytes: for byte in group {
        found |= *byte == b'\n';
    }
    found
}

// What is left of the bytes after the groups in front that have no line feed.
#[tactic(auto, using(crate::proofs::GroupLemmas::passed_group))]
fn after_groups(bytes: &[u8]) -> &[u8]
    ensures part { length result.now ≤ length bytes.now }
    ensures place { position_or_len (λ byte. byte == line_feed_byte) bytes.now
        ≡ length bytes.now - length result.now + position_or_len (λ byte. byte == line_feed_byte) result.now }
{
    let mut rest = bytes;
    'groups: while let Some((group, later)) = rest.split_first_chunk::<GROUP>() {
        if has_line_feed(group) {
            break;
        }
        rest = later;
    }
    rest
}

fn first_line_feed(bytes: &[u8]) -> Option<usize>
    ensures { result ≡ position (λ byte. byte == line_feed_byte) bytes.now }
{
    bytes.iter().position(|byte| *byte == b'\n')
}

// The place of the first line feed.
#[tactic(auto, using(crate::proofs::GroupLemmas::place_behind))]
fn line_end(bytes: &[u8]) -> Option<usize>
    ensures { result ≡ position (λ byte. byte == line_feed_byte) bytes.now }
{
    let rest = after_groups(bytes);
    match first_line_feed(rest) {
        Some(place) => Some(bytes.len() - rest.len() + place),
        None => None,
    }
}

/// Answers a line, unless the machine is done. The reply is gathered after the earlier ones; these are written before,
/// where there are many of them or the line may ask the context.
pub fn answer_line<C, H: Handler<C>, K: Sink>(
    handler: &mut H,
    context: &mut C,
    sink: &mut K,
    replies: &mut Vec<u8>,
    kept: &[u8],
) -> Result<(), Stop>
    ensures cause { StopHasCause (K.faults sink.old) (K.faults sink.new) (H.faults context.old) (H.faults context.new) result }
    ensures collects { (start : Point H.State) (before : List (List ℕ)) (line : List ℕ) →
        Gathers H.machine start before (H.state handler.old context.old) (K.written sink.old) replies.old.items →
        IsKeptLine H.LONGEST kept.now line →
        Collects H.machine H.leaves start (before ++ line ∷ []) result
        (H.state handler.new context.new) (K.written sink.new) replies.new.items }
    ensures spends { (now : H.State) (line : List ℕ) → H.state handler.old context.old ≡ Some now → IsKeptLine H.LONGEST kept.now line →
        H.spent handler.new ≤ H.spent handler.old + total_cost H.machine H.cost now (line ∷ []) }
{
    if handler.is_done() {
        return Ok(());
    }
    H::long_lines_step_alike();
    let most = most_waiting(handler.asks(kept));
    if let Err(stop) = send(sink, replies, most) {
        return Err(stop);
    }
    match handler.answer(kept, context, replies) {
        Ok(()) => Ok(()),
        Err(OutFail::Failed) => Err(Stop::Context),
        Err(OutFail::NoMemory) => Err(Stop::NoMemory),
    }
}

/// Answers a line of which `end` came last. A line that lies whole in its piece isn't copied.
fn answer_ended<C, H: Handler<C>, K: Sink>(
    handler: &mut H,
    context: &mut C,
    sink: &mut K,
    line: &mut LineBuffer,
    replies: &mut Vec<u8>,
    end: &[u8],
) -> Result<(), Stop>
    requires { line.old.longest ≡ H.LONGEST }
    ensures cause { StopHasCause (K.faults sink.old) (K.faults sink.new) (H.faults context.old) (H.faults context.new) result }
    ensures cleared { OnOk result (line.new ≡ record line.old { kept = [] }) }
    ensures collects { (start : Point H.State) (before : List (List ℕ)) (begun : List ℕ) →
        Gathers H.machine start before (H.state handler.old context.old) (K.written sink.old) replies.old.items →
        line.old.kept ≡ kept_part H.LONGEST begun →
        Collects H.machine H.leaves start (before ++ strip_carriage_return (begun ++ end.now) ∷ []) result
        (H.state handler.new context.new) (K.written sink.new) replies.new.items }
    ensures spends { (now : H.State) (begun : List ℕ) → H.state handler.old context.old ≡ Some now →
        line.old.kept ≡ kept_part H.LONGEST begun →
        H.spent handler.new ≤ H.spent handler.old + total_cost H.machine H.cost now (strip_carriage_return (begun ++ end.now) ∷ []) }
{
    if line.unended().is_empty() {
        return answer_line(
            handler,
            context,
            sink,
            replies,
            without_carriage_return(end),
        );
    }
    if line.extend(end).is_err() {
        return Err(Stop::NoMemory);
    }
    let whole = without_carriage_return(line.unended());
    if let Err(stop) = answer_line(handler, context, sink, replies, whole) {
        return Err(stop);
    }
    line.clear();
    Ok(())
}

/// Takes a piece of the input: answers the lines that end in it, writes the replies, and keeps what begins after them.
pub fn take_piece<C, H: Handler<C>, K: Sink>(
    handler: &mut H,
    context: &mut C,
    sink: &mut K,
    line: &mut LineBuffer,
    replies: &mut Vec<u8>,
    piece: &[u8],
) -> Result<(), Stop>
    requires longest { line.old.longest ≡ H.LONGEST }
    requires none { replies.old.items ≡ [] }
    ensures cause { StopHasCause (K.faults sink.old) (K.faults sink.new) (H.faults context.old) (H.faults context.new) result }
    ensures longest { OnOk result (line.new.longest ≡ line.old.longest) }
    ensures none { OnOk result (replies.new.items ≡ []) }
    ensures takes { (start : Point H.State) (begun : List ℕ) →
        IsAt start (H.state handler.old context.old) (K.written sink.old) → line.old.kept ≡ kept_part H.LONGEST begun →
        Takes H.machine H.leaves start (ended_from begun piece.now) result (H.state handler.new context.new) (K.written sink.new) }
    ensures begins { (begun : List ℕ) → line.old.kept ≡ kept_part H.LONGEST begun →
        OnOk result (line.new.kept ≡ kept_part H.LONGEST (open_from begun piece.now)) }
    ensures spends { (start : Point H.State) (begun : List ℕ) →
        IsAt start (H.state handler.old context.old) (K.written sink.old) → line.old.kept ≡ kept_part H.LONGEST begun →
        H.spent handler.new ≤ H.spent handler.old + total_cost H.machine H.cost start.state (ended_from begun piece.now) }
{
    let mut taken = 0;
    'lines: while let Some(len) = line_end(&piece[taken..]) {
        let end = &piece[taken..taken + len];
        if let Err(stop) = answer_ended(handler, context, sink, line, replies, end) {
            return Err(stop);
        }
        taken += len + 1;
    }
    if line.extend(&piece[taken..]).is_err() {
        return Err(Stop::NoMemory);
    }
    send(sink, replies, 0)
}
