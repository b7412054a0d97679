//! What surely holds of a query and what possibly does where positions may be off: why it isn't told, and its rows.
ghost use Rattle.std.specs.Prelude.{◌≡◌, ◌+◌, ◌≤◌, ◌++◌, unsigned_abs, None, IfErr, IfOk, IsOk, OnOk};
ghost use Rattle.tick_set.specs.declared.spans.TheConstants.{LAST_TICK, SPAN_LIMIT};
ghost use Rattle.tick_set.specs.Ticks.{IsTick};
ghost use Rattle.exact.specs.First.{or_else};
ghost use Rattle.formula.specs.Resolved.{IsResolved};
ghost use Rattle.formula.specs.Tree.{resolved_view};
ghost use Rattle.ftl_parser.specs.Tree.{query_view, view};
ghost use Rattle.geometry.specs.declared.limits.TheConstants.{RADIUS_LIMIT};
ghost use Rattle.meaning.specs.Answer.{answer_where};
ghost use Rattle.meaning.specs.Binding.{holds_by};
ghost use Rattle.meaning.specs.Fits.{FitsItsClasses};
ghost use Rattle.meaning.specs.Reads.{query_reads, sizes_of};
ghost use Rattle.object_store.specs.Contents.{catalog_of};
ghost use Rattle.worlds.specs.Blurred.{blurred};
ghost use Rattle.line_meaning.specs.Ask.{query_in};
ghost use Rattle.line_meaning.specs.Blurred.{blurred_refusal, has_not_or_circle, is_blurred_past, rows_blurred};
ghost use Rattle.line_meaning.specs.FirstFault.{blurred_size_refusal, first_blurred_refusal, refusal_if_barred};
ghost use Rattle.line_meaning.specs.Looks.{most_reads};
ghost use Rattle.line_meaning.specs.Reply.{rows_text};
ghost use Rattle.database.specs.Keeping.{TellsAcceptedWrites, world_of_database};
ghost use Rattle.database.specs.Telling.{IsStoppedBy, IsToAsk, RefusesFreely, RefusesOrWrites, TakesAtMost, tally};

use crate::asking::{most_bindings, refusal_by_type};
use crate::database::Database;
use crate::rows::push_rows;
use blur::{Blur, BlurredWorld, blurred_answer};
use command_text::{CommandFault, Refusal};
use fixed_point::Fix;
use formula::RQuery;
use ftl_parser::{Formula, Query, has_circle, has_not};
use ftl_typer::resolve;
use line_meaning::{BLURRED_BINDING_LIMIT, BLURRED_SPAN_LIMIT};
use std::alloc::{AllocError, Global};
use std::sync::ledger::Ledger;
use steps::Steps;
use tick_set::{LAST_TICK, Window};

/// A query from now to `span` ticks later: whether what surely holds is asked for, or else what possibly does, and by how
/// much each position may be off.
#[derive(Clone, Copy)]
pub(crate) struct Doubted<'a> {
    pub(crate) sure: bool,
    pub(crate) error: Fix,
    pub(crate) span: u32,
    pub(crate) query: &'a Query,
}

/// The same with the query by number, where nothing refuses it.
#[derive(Clone, Copy)]
struct Resolved<'a> {
    asked: &'a Doubted<'a>,
    query: &'a RQuery,
}

/// What is asked of positions that may be off by an error, which has no sign.
fn blur_of(sure: bool, error: Fix) -> Blur
    requires { unsigned_abs error ≤ RADIUS_LIMIT }
    ensures sure { result.sure ≡ sure }
    ensures error { result.error ≡ unsigned_abs error }
{
    let error = error.raw().unsigned_abs() as u32;
    Blur { sure, error }
}

/// Whether a formula has a NOT or a circle.
fn is_barred(formula: &Formula) -> bool
    ensures { result ≡ has_not_or_circle (view formula.now) }
{
    has_not(formula) || has_circle(formula)
}

/// Whether a span is too long, or reaches past the last tick.
fn is_past(now: u32, span: u32) -> bool
    requires now { IsTick now }
    requires span { IsTick span }
    ensures { result ≡ is_blurred_past now span }
{
    span > BLURRED_SPAN_LIMIT || now + span > LAST_TICK
}

/// Why a query whose names, kinds and bounds are right is refused.
#[tactic(auto, using(crate::proofs::BlurredLemmas::few_saturated))]
fn size_refusal(database: &Database, span: u32, query: &Query) -> Option<Refusal>
    requires now { IsTick database.now.clock }
    requires span { IsTick span }
    ensures { result ≡ blurred_size_refusal (world_of_database database.now) database.now.clock span (query_view query.now) }
{
    let schema = database.store.schema();
    if is_past(database.clock, span) {
        Some(Refusal::SpanRange)
    } else if most_bindings(schema, query.from.items()) > u64::from(BLURRED_BINDING_LIMIT) {
        Some(Refusal::BindingLimit)
    } else {
        None
    }
}

/// The refusal of names, kinds and bounds, of a formula with a NOT or a circle or of one without.
fn refusal_if_barred(barred: bool, refusal: Option<Refusal>) -> Option<Refusal>
    ensures { result ≡ refusal_if_barred barred refusal }
{
    if !barred {
        return refusal;
    }
    match refusal {
        None | Some(Refusal::TermRange) => Some(Refusal::WrongKind),
        _ => refusal,
    }
}

/// Why a query is refused, by the refusal of its names, kinds and bounds.
fn refusal_of(
    database: &Database,
    span: u32,
    query: &Query,
    by_type: Option<Refusal>,
) -> Option<Refusal>
    requires now { IsTick database.now.clock }
    requires span { IsTick span }
    ensures { result ≡ or_else (refusal_if_barred (has_not_or_circle (query_view query.now).formula) by_type)
        (blurred_size_refusal (world_of_database database.now) database.now.clock span (query_view query.now)) }
{
    let first = refusal_if_barred(is_barred(&query.formula), by_type);
    first.or(size_refusal(database, span, query))
}

/// The query by number, where nothing refuses it. Want of memory is told only where nothing does.
fn judged(
    alloc: Global,
    database: &Database,
    span: u32,
    query: &Query,
) -> Result<RQuery, CommandFault>
    requires asked { IsToAsk database.now span (query_view query.now) }
    ensures query { IfOk result (λ q. resolved_view q ≡ query_in (world_of_database database.now) (query_view query.now)) }
    ensures sound { IfOk result (λ q. IsResolved (resolved_view q)) }
    ensures fits { IfOk result (λ q. FitsItsClasses (world_of_database database.now) (resolved_view q)) }
    ensures right { IsOk result → first_blurred_refusal (world_of_database database.now) database.now.clock span (query_view query.now) ≡ None }
    ensures cause { IfErr result (λ fault.
        IsStoppedBy (first_blurred_refusal (world_of_database database.now) database.now.clock span (query_view query.now)) fault) }
{
    match resolve(alloc, query, database.store.schema(), &database.regions) {
        Ok(resolved) => match refusal_of(database, span, query, None) {
            Some(refusal) => Err(CommandFault::Refused(refusal)),
            None => Ok(resolved),
        },
        Err(fault) => match refusal_of(database, span, query, refusal_by_type(fault)) {
            Some(refusal) => Err(CommandFault::Refused(refusal)),
            None => Err(CommandFault::NoMemory),
        },
    }
}

/// Writes the rows that answer a query, from now to the expiry. On error `out` still begins with its old contents.
fn push_blurred<L: Ledger, M: Ledger>(
    alloc: Global,
    database: &Database,
    resolved: &Resolved,
    reads: &mut Steps<L>,
    probes: &mut Steps<M>,
    out: &mut Vec<u8>,
) -> Result<(), AllocError>
    requires accepted { TellsAcceptedWrites database.now }
    requires resolved { IsResolved (resolved_view resolved.now.query.now) }
    requires fits { FitsItsClasses (world_of_database database.now) (resolved_view resolved.now.query.now) }
    requires error { unsigned_abs resolved.now.asked.now.error ≤ RADIUS_LIMIT }
    requires short { resolved.now.asked.now.span ≤ SPAN_LIMIT }
    requires reached { database.now.clock + resolved.now.asked.now.span ≤ LAST_TICK }
    ensures ok { OnOk result (out.new.items ≡ out.old.items ++ rows_text (catalog_of database.now.store) database.now.clock
        (answer_where (world_of_database database.now) (resolved_view resolved.now.query.now)
        (holds_by (blurred resolved.now.asked.now.sure (unsigned_abs resolved.now.asked.now.error) (world_of_database database.now))
        (world_of_database database.now) (resolved_view resolved.now.query.now) (database.now.clock + resolved.now.asked.now.span))
        database.now.clock (database.now.clock + resolved.now.asked.now.span))) }
    ensures takes { TakesAtMost
        (query_reads (sizes_of (catalog_of database.now.store) (resolved_view resolved.now.query.now))
        (resolved.now.asked.now.span + 1) (resolved_view resolved.now.query.now))
        (tally out.old.items reads.old probes.old) (tally out.new.items reads.new probes.new) }
{
    let window = Window {
        lo: database.clock,
        hi: database.clock + resolved.asked.span,
    };
    let store = &database.store;
    let world = BlurredWorld {
        store,
        regions: &database.regions,
        blur: blur_of(resolved.asked.sure, resolved.asked.error),
    };
    let answer = blurred_answer(alloc, resolved.query, &world, window, reads, probes)?;
    push_rows(alloc, store, database.clock, answer.rows(), out)
}

/// Tells what surely holds of a query, or what possibly does. On want of memory `out` still begins with its old contents.
pub(crate) fn tell_blurred<L: Ledger, M: Ledger>(
    alloc: Global,
    database: &Database,
    asked: &Doubted,
    reads: &mut Steps<L>,
    probes: &mut Steps<M>,
    out: &mut Vec<u8>,
) -> Result<(), CommandFault>
    requires query { IsToAsk database.now asked.now.span (query_view asked.now.query.now) }
    requires error { unsigned_abs asked.now.error ≤ RADIUS_LIMIT }
    requires accepted { TellsAcceptedWrites database.now }
    ensures answered { RefusesOrWrites
        (blurred_refusal (world_of_database database.now) database.now.clock asked.now.span (query_view asked.now.query.now))
        (rows_text (catalog_of database.now.store) database.now.clock
        (rows_blurred asked.now.sure (world_of_database database.now) database.now.clock asked.now.span asked.now.error (query_view asked.now.query.now)))
        out.old.items out.new.items result }
    ensures takes { TakesAtMost (most_reads (world_of_database database.now) asked.now.span (query_view asked.now.query.now))
        (tally out.old.items reads.old probes.old) (tally out.new.items reads.new probes.new) }
    ensures free { RefusesFreely (tally out.old.items reads.old probes.old) (tally out.new.items reads.new probes.new) result }
{
    let query = judged(alloc, database, asked.span, asked.query)?;
    let resolved = Resolved {
        asked,
        query: &query,
    };
    push_blurred(alloc, database, &resolved, reads, probes, out)?;
    Ok(())
}
