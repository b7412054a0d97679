//! The rows of an answer, in the order of their targets.
ghost use Rattle.std.specs.Prelude.{◌≡◌, ◌++◌, ℕ, [], map, nat_le, OnOk, OnErr, IfOk};
ghost use Rattle.std.specs.List.{flat_map, list_any};
ghost use Rattle.std.specs.BTreeMap.{insert_entry};
ghost use Rattle.tick_set.specs.Runs.{IsNormal, pairs, spans_have};
ghost use Rattle.tick_set.specs.SetOperation.{kept};
ghost use Rattle.replica.specs.Text.{Begins};
ghost use Rattle.replica.specs.Messages.{row_view};
ghost use Rattle.replica.specs.Rows.{bytes_cmp, rows_after_told, run_text, span_text, target_row_text, target_rows_text, ticks_at};
ghost use Rattle.replica.specs.Ticks.{StayBefore, combined};

use crate::fronts::{front_len, joined};
use interval_set::IntervalSet;
use itoa::Buffer;
use std::alloc::{AllocError, Global};
use std::collections::BTreeMap;
use std::marker::Model;
use tick_set::{SetOperation, Span, TickSet};

// Fewer runs than these are made anew with the others.
const SHORT: usize = 8;

/// A target and ticks that a line tells of it.
#[derive(Drop)]
pub(crate) struct ToldRow {
    pub target: Vec<u8>,
    pub ticks: IntervalSet,
}

/// Rows, each seen as its target and the maximal runs of its ticks.
#[derive(Drop)]
pub(crate) struct Rows {
    ticks: BTreeMap<Vec<u8>, IntervalSet>,
}

impl Model for Rows {
    ghost use Rattle.std.specs.Prelude.{List, ℕ, map};
    ghost use Rattle.tick_set.specs.Runs.{pairs};

    ghost Value = { List (List ℕ × List (ℕ × ℕ)) };

    ghost view = { λ r. map (λ e. (e.0.items, pairs e.1)) r.ticks.entries };
}

impl Rows {
    /// No rows. Takes no memory.
    pub fn new(alloc: Global) -> Rows
        ensures { result ≡ [] }
    {
        Rows {
            ticks: BTreeMap::new(alloc),
        }
    }

    /// Adds the ticks told of a target to its row, or takes them from it. After an error the rows are unchanged.
    pub fn change(
        &mut self,
        alloc: Global,
        operation: SetOperation,
        told: ToldRow,
    ) -> Result<(), AllocError>
        ensures ok { OnOk result (self.new ≡ rows_after_told operation (row_view told) self.old) }
        ensures err { OnErr result (self.new ≡ self.old) }
    {
        let ticks = ticks_after(&self.ticks, alloc, operation, &told)?;
        put(&mut self.ticks, told.target, ticks)
    }

    /// Writes each row that has a tick from `first` on, with those ticks.
    #[tactic(auto, using(crate::proofs::BeginLemmas::begins_through, crate::proofs::BeginLemmas::begins_more))]
    pub fn push_text(&self, first: u32, out: &mut Vec<u8>) -> Result<(), AllocError>
        ensures ok { OnOk result (out.new.items ≡ out.old.items ++ target_rows_text first self.now) }
        ensures begins { Begins out.old.items out.new.items }
    {
        for (target, ticks) in &self.ticks {
            push_row(first, target, ticks.spans(), out)?;
        }
        Ok(())
    }
}

// The ticks of a target after a change.
fn ticks_after(
    rows: &BTreeMap<Vec<u8>, IntervalSet>,
    alloc: Global,
    operation: SetOperation,
    told: &ToldRow,
) -> Result<IntervalSet, AllocError>
    ensures { IfOk result (λ r. pairs r ≡ combined operation
        (ticks_at told.now.target.items (map (λ e. (e.0.items, pairs e.1)) rows.now.entries)) (pairs told.now.ticks)) }
{
    let empty = nothing(alloc);
    let old = rows.get(told.target.as_slice()).unwrap_or(&empty);
    combined(alloc, operation, old, &told.ticks)
}

// Puts the ticks of a target in place of those that it had.
fn put(
    rows: &mut BTreeMap<Vec<u8>, IntervalSet>,
    target: Vec<u8>,
    ticks: IntervalSet,
) -> Result<(), AllocError>
    ensures ok { OnOk result (map (λ e. (e.0.items, pairs e.1)) rows.new.entries
        ≡ insert_entry bytes_cmp (map (λ e. (e.0.items, pairs e.1)) rows.old.entries) target.items (pairs ticks)) }
    ensures err { OnErr result (rows.new.entries ≡ rows.old.entries) }
{
    rows.insert(target, ticks)?;
    Ok(())
}

// The set without a tick. Takes no memory.
fn nothing(alloc: Global) -> IntervalSet
    ensures { result ≡ [] }
{
    IntervalSet::from_runs(Vec::new(alloc))
}

// The ticks of both that the operation keeps, as a set.
fn kept(
    alloc: Global,
    operation: SetOperation,
    old: &IntervalSet,
    told: &IntervalSet,
) -> Result<IntervalSet, AllocError>
    ensures { IfOk result (λ r. (t : ℕ) → spans_have r t ≡ kept operation (spans_have old.now t) (spans_have told.now t)) }
{
    match operation {
        SetOperation::Union => old.union(alloc, told),
        SetOperation::Meet => old.meet(alloc, told),
        SetOperation::Without => old.without(alloc, told),
    }
}

// The same, as maximal runs.
fn made_anew(
    alloc: Global,
    operation: SetOperation,
    old: &IntervalSet,
    told: &IntervalSet,
) -> Result<IntervalSet, AllocError>
    ensures { IfOk result (λ r. pairs r ≡ combined operation (pairs old.now) (pairs told.now)) }
{
    let made = kept(alloc, operation, old, told)?;
    let _runs = made.spans();
    Ok(made)
}

// The ticks of both that the operation keeps, as maximal runs. Those that end before the first tick told are copied.
fn combined(
    alloc: Global,
    operation: SetOperation,
    old: &IntervalSet,
    told: &IntervalSet,
) -> Result<IntervalSet, AllocError>
    ensures { IfOk result (λ r. pairs r ≡ combined operation (pairs old.now) (pairs told.now)) }
{
    let runs = old.spans();
    let count = front_len(operation, runs, told.spans());
    if count < SHORT {
        return made_anew(alloc, operation, old, told);
    }
    let (front, tail) = runs.split_at(count);
    changed_behind(alloc, operation, front, tail, told)
}

// The same, of runs of which those in front stay as they are.
fn changed_behind(
    alloc: Global,
    operation: SetOperation,
    front: &[Span],
    tail: &[Span],
    told: &IntervalSet,
) -> Result<IntervalSet, AllocError>
    requires normal { IsNormal (front.now ++ tail.now) }
    requires stay { StayBefore operation front.now told.now }
    ensures { IfOk result (λ r. pairs r ≡ combined operation (pairs (front.now ++ tail.now)) (pairs told.now)) }
{
    let made = tail_after(alloc, operation, tail, told)?;
    let whole = joined(alloc, front, made.spans())?;
    Ok(whole)
}

// What the operation keeps of a tail.
fn tail_after(
    alloc: Global,
    operation: SetOperation,
    tail: &[Span],
    told: &IntervalSet,
) -> Result<IntervalSet, AllocError>
    requires { IsNormal tail.now }
    ensures { IfOk result (λ r. (t : ℕ) → spans_have r t ≡ kept operation (spans_have tail.now t) (spans_have told.now t)) }
{
    let before = IntervalSet::from_runs(Vec::from_slice(alloc, tail)?);
    kept(alloc, operation, &before, told)
}

#[tactic(auto, using(crate::proofs::BeginLemmas::begins_through, crate::proofs::BeginLemmas::begins_more))]
fn push_row(first: u32, target: &[u8], spans: &[Span], out: &mut Vec<u8>) -> Result<(), AllocError>
    ensures ok { OnOk result (out.new.items ≡ out.old.items ++ target_row_text first (target.now, pairs spans.now)) }
    ensures begins { Begins out.old.items out.new.items }
{
    if !has_from(first, spans) {
        return Ok(());
    }
    out.extend_from_slice(target)?;
    out.extend_from_slice(b" :")?;
    push_spans(first, spans, out)?;
    out.extend_from_slice(b"\n")?;
    Ok(())
}

fn some_ends_from(first: u32, spans: &[Span]) -> bool
    ensures { result ≡ list_any (λ s. nat_le first s.hi) spans.now }
{
    spans.iter().any(|span| first <= span.hi)
}

// Whether there is a tick from `first` on.
fn has_from(first: u32, spans: &[Span]) -> bool
    ensures { result ≡ list_any (λ s. nat_le first s.1) (pairs spans.now) }
{
    some_ends_from(first, spans)
}

#[tactic(auto, using(crate::proofs::BeginLemmas::begins_through, crate::proofs::BeginLemmas::begins_more))]
fn push_spans(first: u32, spans: &[Span], out: &mut Vec<u8>) -> Result<(), AllocError>
    ensures ok { OnOk result (out.new.items ≡ out.old.items ++ flat_map (span_text first) (pairs spans.now)) }
    ensures begins { Begins out.old.items out.new.items }
{
    let mut rest = spans;
    while let Some((span, later)) = rest.split_first() {
        if first <= span.hi {
            push_run(first.max(span.lo), span.hi, out)?;
        }
        rest = later;
    }
    Ok(())
}

#[tactic(auto, using(crate::proofs::BeginLemmas::begins_through, crate::proofs::BeginLemmas::begins_more))]
fn push_run(lo: u32, hi: u32, out: &mut Vec<u8>) -> Result<(), AllocError>
    ensures ok { OnOk result (out.new.items ≡ out.old.items ++ run_text (lo, hi)) }
    ensures begins { Begins out.old.items out.new.items }
{
    let mut digits = Buffer::new();
    out.extend_from_slice(b" ")?;
    out.extend_from_slice(digits.format(lo).as_bytes())?;
    out.extend_from_slice(b"..")?;
    out.extend_from_slice(digits.format(hi).as_bytes())?;
    Ok(())
}
