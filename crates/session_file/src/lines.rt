//! The lines of a text, from the front.
ghost use Rattle.std.specs.Prelude.{◌≡◌, ◌+◌, ◌∷◌, [], ◌<◌, ◌≤◌, ◌^◌, ◌==◌, length, position, false, MatchOption, IfSome};
ghost use Rattle.std.specs.Str.{bytes_eq};
ghost use Rattle.std.specs.Str.Lines.{lines, strip_carriage_return};
ghost use Rattle.session_file.specs.Kept.{is_passed};
ghost use Rattle.session_file.specs.Reading.{read_on, stops};
ghost use Rattle.session_file.specs.declared.counts.Progress.{Progress};
ghost use Rattle.session_file.specs.declared.fault.FileFault.TheVariants as faults;

use crate::kept::is_passed;

/// The place of the first line feed.
fn line_end(text: &[u8]) -> Option<usize>
    ensures { result ≡ position (λ byte. byte == 10) text.now }
{
    text.iter().position(|byte| *byte == b'\n')
}

fn without_carriage_return(line: &[u8]) -> &[u8]
    ensures { result.now ≡ strip_carriage_return line.now }
{
    match line {
        [line @ .., b'\r'] => line,
        line => line,
    }
}

/// Whether a line is these bytes.
pub(crate) fn is_line(line: &[u8], bytes: &[u8]) -> bool
    ensures { result ≡ bytes_eq line.now bytes.now }
{
    line == bytes
}

/// The first line of a text, without its end, and what follows it. None where there is no line.
#[tactic(auto, using(crate::proofs::LineLemmas::line_steps))]
pub(crate) fn split_line(text: &[u8]) -> Option<(&[u8], &[u8])>
    ensures line { MatchOption result (lines text.now ≡ []) (λ r. lines text.now ≡ r.0.now ∷ lines r.1.now) }
    ensures shorter { IfSome result (λ r. length r.1.now < length text.now) }
{
    if text.is_empty() {
        return None;
    }
    match line_end(text) {
        Some(end) => Some((without_carriage_return(&text[..end]), &text[end + 1..])),
        None => Some((text, &[])),
    }
}

/// How many lines a text has. The last one may lack its line feed.
pub fn line_count(text: &[u8]) -> u64
    ensures { result ≡ length (lines text.now) }
{
    let mut count = 0;
    let mut rest = text;
    'lines: while let Some((_, later)) = split_line(rest) {
        count += 1;
        rest = later;
    }
    count
}

/// The first line that is neither blank nor a comment, with its number and what follows it, in a text of
/// which the first line has the number `first`.
#[tactic(auto, using(crate::proofs::ReadLemmas::read_passed))]
pub(crate) fn next_written(first: u64, text: &[u8]) -> Option<(u64, &[u8], &[u8])>
    requires { first + length text.now ≤ 2 ^ 63 }
    ensures line { MatchOption result
        ((p : Progress) → read_on p first (lines text.now) ≡ stops faults.NoEnd)
        (λ r. (p : Progress) → read_on p first (lines text.now) ≡ read_on p r.0 (r.1.now ∷ lines r.2.now)) }
    ensures written { IfSome result (λ r. is_passed r.1.now ≡ false) }
    ensures room { IfSome result (λ r. r.0 + 1 + length r.2.now ≤ 2 ^ 63) }
{
    let mut number = first;
    let mut rest = text;
    'lines: while let Some((line, later)) = split_line(rest) {
        if !is_passed(line) {
            return Some((number, line, later));
        }
        number += 1;
        rest = later;
    }
    None
}
