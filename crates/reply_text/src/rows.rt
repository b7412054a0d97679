//! The line of a row.
ghost use Rattle.std.specs.Prelude.{◌≡◌, ℕ, ◌++◌, ◌∷◌, [], codes, decimal, nat_le, nat_lt, ◌&&◌, OnOk};
ghost use Rattle.std.specs.List.{flat_map, list_any};
ghost use Rattle.tick_set.specs.Runs.{pairs};
ghost use Rattle.line_meaning.specs.Reply.{name_text, row_line, run_text, time_word};
ghost use Rattle.reply_text.specs.Begins.{Begins};

use crate::buffer::push;
use fixed_point::Word;
use itoa::Buffer;
use std::alloc::AllocError;
use tick_set::Span;

/// Writes the line of a row by the names of its objects, as `later a b : 12..30`. On error `out` still begins
/// with its old contents.
#[tactic(auto, using(crate::proofs::BeginLemmas::begins_through, crate::proofs::BeginLemmas::begins_more))]
pub fn push_row(
    out: &mut Vec<u8>,
    now: u32,
    names: &[Word],
    runs: &[Span],
) -> Result<(), AllocError>
    ensures ok { OnOk result (out.new.items ≡ out.old.items ++ row_line now names.now (pairs runs.now)) }
    ensures begins { Begins out.old.items out.new.items }
{
    push(out, time_word(now, runs))?;
    push_names(out, names)?;
    push(out, b" :")?;
    push_runs(out, runs)?;
    push(out, b"\n")
}

/// Writes names, each with a space before it.
#[tactic(auto, using(crate::proofs::BeginLemmas::begins_through))]
pub(crate) fn push_names(out: &mut Vec<u8>, names: &[Word]) -> Result<(), AllocError>
    ensures ok { OnOk result (out.new.items ≡ out.old.items ++ flat_map name_text names.now) }
    ensures begins { Begins out.old.items out.new.items }
{
    let mut rest = names;
    'names: while let Some((name, later)) = rest.split_first() {
        push_name(out, name)?;
        rest = later;
    }
    Ok(())
}

#[tactic(auto, using(crate::proofs::BeginLemmas::begins_more))]
pub(crate) fn push_name(out: &mut Vec<u8>, name: &Word) -> Result<(), AllocError>
    ensures ok { OnOk result (out.new.items ≡ out.old.items ++ name_text name.now) }
    ensures begins { Begins out.old.items out.new.items }
{
    out.extend_from_slice(b" ")?;
    out.extend_from_slice(name.bytes())?;
    Ok(())
}

/// `now` where one of the runs has the present tick, `later` where one has a later tick, else `past`.
#[tactic(auto, using(crate::proofs::PairLemmas::any_pairs))]
fn time_word(now: u32, runs: &[Span]) -> &'static [u8]
    ensures { result.now ≡ time_word now (pairs runs.now) }
{
    if has_tick(now, runs) {
        b"now"
    } else if has_later_tick(now, runs) {
        b"later"
    } else {
        b"past"
    }
}

fn has_tick(now: u32, runs: &[Span]) -> bool
    ensures { result ≡ list_any (λ run. nat_le run.lo now && nat_le now run.hi) runs.now }
{
    runs.iter().any(|run| run.lo <= now && now <= run.hi)
}

fn has_later_tick(now: u32, runs: &[Span]) -> bool
    ensures { result ≡ list_any (λ run. nat_lt now run.hi) runs.now }
{
    runs.iter().any(|run| now < run.hi)
}

#[tactic(auto, using(crate::proofs::BeginLemmas::begins_through))]
pub(crate) fn push_runs(out: &mut Vec<u8>, runs: &[Span]) -> Result<(), AllocError>
    ensures ok { OnOk result (out.new.items ≡ out.old.items ++ flat_map run_text (pairs runs.now)) }
    ensures begins { Begins out.old.items out.new.items }
{
    let mut rest = runs;
    while let Some((run, later)) = rest.split_first() {
        push_run(out, run.lo, run.hi)?;
        rest = later;
    }
    Ok(())
}

#[tactic(auto, using(crate::proofs::BeginLemmas::begins_more))]
pub(crate) fn push_run(out: &mut Vec<u8>, lo: u32, hi: u32) -> Result<(), AllocError>
    ensures ok { OnOk result (out.new.items ≡ out.old.items ++ run_text (lo, hi)) }
    ensures begins { Begins out.old.items out.new.items }
{
    let mut digits = Buffer::new();
    out.extend_from_slice(b" ")?;
    out.extend_from_slice(digits.format(lo).as_bytes())?;
    out.extend_from_slice(b"..")?;
    out.extend_from_slice(digits.format(hi).as_bytes())?;
    Ok(())
}
