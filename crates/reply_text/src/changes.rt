//! The lines of registered queries: what changes for them, and what `list` tells of them.
ghost use Rattle.std.specs.Prelude.{◌≡◌, ℕ, Bool, ◌++◌, codes, OnOk};
ghost use Rattle.tick_set.specs.Runs.{pairs};
ghost use Rattle.line_meaning.specs.Changes.{change_head, change_lines, ticks_line, turn_line};
ghost use Rattle.line_meaning.specs.Reply.{query_line};
ghost use Rattle.reply_text.specs.Begins.{Begins};

use crate::buffer::push;
use crate::rows::{push_name, push_names, push_run, push_runs};
use fixed_point::Word;
use std::alloc::AllocError;
use tick_set::Span;

/// Writes the lines of what changes for target objects of a query, by the query's name and theirs: `gain` and
/// `lose` with the runs of ticks, where there are any, `enter` and `leave`. On error `out` still begins with its old
/// contents.
#[tactic(auto, using(crate::proofs::BeginLemmas::begins_through))]
pub fn push_change(
    out: &mut Vec<u8>,
    query: &Word,
    names: &[Word],
    gained: &[Span],
    lost: &[Span],
    enters: bool,
    leaves: bool,
) -> Result<(), AllocError>
    ensures ok { OnOk result (out.new.items ≡ out.old.items
        ++ change_lines query.now names.now (pairs gained.now) (pairs lost.now) enters leaves) }
    ensures begins { Begins out.old.items out.new.items }
{
    push_ticks(out, b"gain", query, names, gained)?;
    push_ticks(out, b"lose", query, names, lost)?;
    push_turn(out, b"enter", query, names, enters)?;
    push_turn(out, b"leave", query, names, leaves)
}

/// Writes a word and the names of the query and of the objects.
#[tactic(auto, using(crate::proofs::BeginLemmas::begins_through))]
fn push_head(out: &mut Vec<u8>, word: &[u8], query: &Word, names: &[Word]) -> Result<(), AllocError>
    ensures ok { OnOk result (out.new.items ≡ out.old.items ++ change_head word.now query.now names.now) }
    ensures begins { Begins out.old.items out.new.items }
{
    push(out, word)?;
    push_name(out, query)?;
    push_names(out, names)
}

/// Writes a line with runs of ticks, where there are any.
#[tactic(auto, using(crate::proofs::BeginLemmas::begins_through))]
fn push_ticks(
    out: &mut Vec<u8>,
    word: &[u8],
    query: &Word,
    names: &[Word],
    runs: &[Span],
) -> Result<(), AllocError>
    ensures ok { OnOk result (out.new.items ≡ out.old.items ++ ticks_line (change_head word.now query.now names.now) (pairs runs.now)) }
    ensures begins { Begins out.old.items out.new.items }
{
    if runs.is_empty() {
        return Ok(());
    }
    push_head(out, word, query, names)?;
    push(out, b" :")?;
    push_runs(out, runs)?;
    push(out, b"\n")
}

/// Writes a line without ticks, where it happens.
#[tactic(auto, using(crate::proofs::BeginLemmas::begins_through))]
fn push_turn(
    out: &mut Vec<u8>,
    word: &[u8],
    query: &Word,
    names: &[Word],
    happens: bool,
) -> Result<(), AllocError>
    ensures ok { OnOk result (out.new.items ≡ out.old.items ++ turn_line (change_head word.now query.now names.now) happens) }
    ensures begins { Begins out.old.items out.new.items }
{
    if !happens {
        return Ok(());
    }
    push_head(out, word, query, names)?;
    push(out, b"\n")
}

/// Writes the line of a registered query by the word of its kind, as `watch w 0..30`. On error `out` still begins with its old contents.
#[tactic(auto, using(crate::proofs::BeginLemmas::begins_through))]
pub fn push_query(
    out: &mut Vec<u8>,
    word: &[u8],
    name: &Word,
    entry: u32,
    expiry: u32,
) -> Result<(), AllocError>
    ensures ok { OnOk result (out.new.items ≡ out.old.items ++ query_line word.now name.now entry expiry) }
    ensures begins { Begins out.old.items out.new.items }
{
    push(out, word)?;
    push_name(out, name)?;
    push_run(out, entry, expiry)?;
    push(out, b"\n")
}
