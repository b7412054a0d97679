//! Queries: why they are refused, and their answers.
ghost use Rattle.std.specs.Prelude.{◌≡◌, ◌+◌, ◌≤◌, ◌++◌, None, min, map, IfErr, IfOk, IsOk, OnOk};
ghost use Rattle.tick_set.specs.declared.spans.TheConstants.{LAST_TICK, SPAN_LIMIT};
ghost use Rattle.tick_set.specs.Ticks.{IsTick};
ghost use Rattle.formula.specs.Resolved.{IsResolved};
ghost use Rattle.formula.specs.Tree.{resolved_view};
ghost use Rattle.ftl_parser.specs.Tree.{query_view, view};
ghost use Rattle.ftl_typer.specs.Resolved.{class_place};
ghost use Rattle.meaning.specs.Answer.{answer};
ghost use Rattle.meaning.specs.Fits.{FitsItsClasses};
ghost use Rattle.meaning.specs.Reads.{query_reads, sizes_of};
ghost use Rattle.object_store.specs.Contents.{catalog_of};
ghost use Rattle.history.specs.Catalog.{capacity_of, product_of};
ghost use Rattle.line_meaning.specs.Ask.{is_past_span, query_in, span_limit};
ghost use Rattle.line_meaning.specs.FirstFault.{asked_refusal, refusal_by_type, size_refusal};
ghost use Rattle.line_meaning.specs.Looks.{most_reads};
ghost use Rattle.line_meaning.specs.Reply.{rows_text};
ghost use Rattle.database.specs.Keeping.{TellsAcceptedWrites, world_of_database};
ghost use Rattle.database.specs.Telling.{Asks, IsStoppedBy, IsToAsk, RefusesFreely, TakesAtMost, tally};

use crate::database::Database;
use crate::rows::push_rows;
use command_text::{CommandFault, Refusal};
use fixed_point::Word;
use formula::RQuery;
use ftl_parser::{Formula, FromPart, Query, most_names, nesting};
use ftl_typer::{TypeFault, resolve};
use kept_rows::BINDING_LIMIT;
use line_meaning::{ASSIGNED_SPAN_LIMIT, CIRCLE_NAMES, CIRCLE_SPAN_LIMIT};
use object_store::Schema;
use std::alloc::{AllocError, Global};
use std::sync::ledger::Ledger;
use steps::Steps;
use tick_set::{LAST_TICK, SPAN_LIMIT, Window};

/// A query from now to `span` ticks later.
#[derive(Clone, Copy)]
pub(crate) struct Asked<'a> {
    pub(crate) span: u32,
    pub(crate) query: &'a Query,
}

/// The same by number, where nothing refuses it.
#[derive(Clone, Copy)]
struct Resolved<'a> {
    span: u32,
    query: &'a RQuery,
}

/// The longest span of a formula, in ticks.
#[tactic(auto, using(crate::proofs::AskLemmas::some_saturated))]
fn span_limit(formula: &Formula) -> u32
    ensures { result ≡ span_limit (view formula.now) }
{
    if nesting(formula) > 0 {
        ASSIGNED_SPAN_LIMIT
    } else if most_names(formula) >= CIRCLE_NAMES {
        CIRCLE_SPAN_LIMIT
    } else {
        SPAN_LIMIT
    }
}

/// Whether a span is too long, or reaches past the last tick.
pub fn is_past_span(now: u32, span: u32, formula: &Formula) -> bool
    requires now { IsTick now }
    requires span { IsTick span }
    ensures { result ≡ is_past_span now span (view formula.now) }
{
    span > span_limit(formula) || now + span > LAST_TICK
}

/// The capacity of a class by its name. Where the class isn't there the first one stands for it, as in a
/// query by number; no such query is judged by its capacities.
fn capacity_of(schema: &Schema, class: &Word) -> u32
    ensures { result ≡ capacity_of schema.now (class_place schema.now class.now) }
{
    let number = schema.class_of(class).unwrap_or(0);
    match schema.class(number) {
        Some(class) => class.capacity(),
        None => 0,
    }
}

/// How many bindings there may come to be of variables of these classes, or the largest number.
pub fn most_bindings(schema: &Schema, parts: &[FromPart]) -> u64
    ensures { result ≡ min (product_of (map (capacity_of schema.now) (map (λ part. class_place schema.now part.class) parts.now))) u64.MAX }
{
    let mut bindings: u64 = 1;
    let mut rest = parts;
    'parts: while let Some((part, later)) = rest.split_first() {
        bindings = bindings.saturating_mul(u64::from(capacity_of(schema, &part.class)));
        rest = later;
    }
    bindings
}

/// Why a query whose names, kinds and bounds are right is refused.
#[tactic(auto, using(crate::proofs::AskLemmas::many_saturated))]
fn size_refusal(database: &Database, span: u32, query: &Query) -> Option<Refusal>
    requires now { IsTick database.now.clock }
    requires span { IsTick span }
    ensures { result ≡ size_refusal (world_of_database database.now) database.now.clock span (query_view query.now) }
{
    let schema = database.store.schema();
    if is_past_span(database.clock, span, &query.formula) {
        Some(Refusal::SpanRange)
    } else if most_bindings(schema, query.from.items()) > u64::from(BINDING_LIMIT) {
        Some(Refusal::BindingLimit)
    } else {
        None
    }
}

/// The refusal of a fault of names, kinds or bounds. None of want of memory.
pub fn refusal_by_type(fault: TypeFault) -> Option<Refusal>
    ensures { result ≡ refusal_by_type fault }
{
    match fault {
        TypeFault::UnknownName(_) => Some(Refusal::UnknownName),
        TypeFault::NameTaken(_) => Some(Refusal::NameTaken),
        TypeFault::WrongKind(_) => Some(Refusal::WrongKind),
        TypeFault::TermRange(_) => Some(Refusal::TermRange),
        TypeFault::NoMemory => None,
    }
}

/// The query by number, where nothing refuses it. Its span and its classes are judged before it is made, so
/// that want of memory is told only where nothing refuses it.
fn judged(
    alloc: Global,
    database: &Database,
    span: u32,
    query: &Query,
) -> Result<RQuery, CommandFault>
    requires asked { IsToAsk database.now span (query_view query.now) }
    ensures query { IfOk result (λ q. resolved_view q ≡ query_in (world_of_database database.now) (query_view query.now)) }
    ensures sound { IfOk result (λ q. IsResolved (resolved_view q)) }
    ensures fits { IfOk result (λ q. FitsItsClasses (world_of_database database.now) (resolved_view q)) }
    ensures right { IsOk result → asked_refusal (world_of_database database.now) database.now.clock span (query_view query.now) ≡ None }
    ensures cause { IfErr result (λ fault.
        IsStoppedBy (asked_refusal (world_of_database database.now) database.now.clock span (query_view query.now)) fault) }
{
    let size = size_refusal(database, span, query);
    match resolve(alloc, query, database.store.schema(), &database.regions) {
        Ok(resolved) => match size {
            Some(refusal) => Err(CommandFault::Refused(refusal)),
            None => Ok(resolved),
        },
        Err(fault) => match refusal_by_type(fault).or(size) {
            Some(refusal) => Err(CommandFault::Refused(refusal)),
            None => Err(CommandFault::NoMemory),
        },
    }
}

/// Writes the rows that answer a query, from now to the expiry. On error `out` still begins with its old
/// contents.
fn push_answer<L: Ledger, M: Ledger>(
    alloc: Global,
    database: &Database,
    resolved: &Resolved,
    reads: &mut Steps<L>,
    probes: &mut Steps<M>,
    out: &mut Vec<u8>,
) -> Result<(), AllocError>
    requires accepted { TellsAcceptedWrites database.now }
    requires resolved { IsResolved (resolved_view resolved.now.query.now) }
    requires fits { FitsItsClasses (world_of_database database.now) (resolved_view resolved.now.query.now) }
    requires short { resolved.now.span ≤ SPAN_LIMIT }
    requires reached { database.now.clock + resolved.now.span ≤ LAST_TICK }
    ensures ok { OnOk result (out.new.items ≡ out.old.items ++ rows_text (catalog_of database.now.store) database.now.clock
        (answer (world_of_database database.now) (resolved_view resolved.now.query.now) database.now.clock
        (database.now.clock + resolved.now.span))) }
    ensures takes { TakesAtMost
        (query_reads (sizes_of (catalog_of database.now.store) (resolved_view resolved.now.query.now)) (resolved.now.span + 1)
        (resolved_view resolved.now.query.now))
        (tally out.old.items reads.old probes.old) (tally out.new.items reads.new probes.new) }
{
    let window = Window {
        lo: database.clock,
        hi: database.clock + resolved.span,
    };
    let store = &database.store;
    let answer = answers::ask(
        alloc,
        resolved.query,
        store,
        &database.regions,
        window,
        reads,
        probes,
    )?;
    push_rows(alloc, store, database.clock, answer.rows(), out)
}

/// Answers a query. On want of memory `out` still begins with its old contents.
pub(crate) fn ask<L: Ledger, M: Ledger>(
    alloc: Global,
    database: &Database,
    asked: &Asked,
    reads: &mut Steps<L>,
    probes: &mut Steps<M>,
    out: &mut Vec<u8>,
) -> Result<(), CommandFault>
    requires query { IsToAsk database.now asked.now.span (query_view asked.now.query.now) }
    requires accepted { TellsAcceptedWrites database.now }
    ensures asked { Asks (world_of_database database.now) database.now.clock asked.now.span (query_view asked.now.query.now)
        out.old.items out.new.items result }
    ensures takes { TakesAtMost (most_reads (world_of_database database.now) asked.now.span (query_view asked.now.query.now))
        (tally out.old.items reads.old probes.old) (tally out.new.items reads.new probes.new) }
    ensures free { RefusesFreely (tally out.old.items reads.old probes.old) (tally out.new.items reads.new probes.new) result }
{
    let query = judged(alloc, database, asked.span, asked.query)?;
    let resolved = Resolved {
        span: asked.span,
        query: &query,
    };
    push_answer(alloc, database, &resolved, reads, probes, out)?;
    Ok(())
}
