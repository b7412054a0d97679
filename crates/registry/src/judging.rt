//! Why a query that is to be registered is refused.
ghost use Rattle.std.specs.Prelude.{◌≡◌, ◌∷◌, [], None, IfErr, IfOk, IsOk};
ghost use Rattle.formula.specs.Resolved.{IsResolved};
ghost use Rattle.formula.specs.Tree.{resolved_view};
ghost use Rattle.meaning.specs.Fits.{FitsItsClasses};
ghost use Rattle.ftl_parser.specs.Tree.{query_view};
ghost use Rattle.tick_set.specs.Ticks.{IsTick};
ghost use Rattle.line_meaning.specs.Ask.{query_in};
ghost use Rattle.line_meaning.specs.FirstFault.{refusal_by_type, refusal_in_order};
ghost use Rattle.database.specs.Keeping.{clock_of, world_of_database};
ghost use Rattle.database.specs.Telling.{IsStoppedBy, IsToAsk};
ghost use Rattle.line_meaning.specs.QueryFault.{passes_beside, register_refusal};
ghost use Rattle.registry.specs.Beside.{refusal_beside, size_refusal_beside};
ghost use Rattle.registry.specs.Judged.{IsRegistrable};
ghost use Rattle.registry.specs.Standing.{Stand, known_of};

use crate::registering::Request;
use command_text::{CommandFault, Refusal};
use database::{Database, is_past_span, most_bindings, refusal_by_type};
use formula::{QUERY_LIMIT, RQuery};
use ftl_parser::Query;
use ftl_typer::{TypeFault, resolve};
use kept_rows::BINDING_LIMIT;
use line_meaning::ALL_BINDINGS_LIMIT;
use live_queries::Live;
use std::alloc::Global;

/// What decides of the registered queries whether one more is refused.
#[derive(Clone, Copy)]
pub(crate) struct Others {
    // Whether one of them has its name.
    taken: bool,
    count: usize,
    // How many bindings there may come to be of all of them, or the largest number.
    bindings: u64,
}

/// Whether a query of so many bindings has no room, by itself or beside the registered ones.
fn is_past_bindings(bindings: u64, others: &Others) -> bool
    ensures { result ≡ passes_beside bindings others.now.bindings }
{
    bindings > u64::from(BINDING_LIMIT)
        || bindings.saturating_add(others.bindings) > u64::from(ALL_BINDINGS_LIMIT)
}

/// Why a query whose names, kinds and bounds are right is refused.
fn size_refusal(database: &Database, others: &Others, span: u32, query: &Query) -> Option<Refusal>
    requires now { IsTick database.now.clock }
    requires span { IsTick span }
    ensures { result ≡ size_refusal_beside (world_of_database database.now) (clock_of database.now) others.now span (query_view query.now) }
{
    let bindings = most_bindings(database.schema(), query.from.items());
    if is_past_span(database.clock(), span, &query.formula) {
        Some(Refusal::SpanRange)
    } else if others.count >= QUERY_LIMIT {
        Some(Refusal::StoreFull)
    } else if is_past_bindings(bindings, others) {
        Some(Refusal::BindingLimit)
    } else {
        None
    }
}

/// Why a query that could not be made by number is refused. None where memory alone is wanting.
fn fault_refusal(fault: TypeFault, taken: bool, size: Option<Refusal>) -> Option<Refusal>
    ensures { result ≡ refusal_in_order (refusal_by_type fault) taken size }
{
    match refusal_by_type(fault) {
        Some(Refusal::UnknownName) => Some(Refusal::UnknownName),
        _ if taken => Some(Refusal::NameTaken),
        Some(refusal) => Some(refusal),
        None => size,
    }
}

/// The query by number, where nothing refuses it beside the others. Want of memory is told only where nothing does.
fn judge_beside(
    alloc: Global,
    database: &Database,
    others: &Others,
    request: &Request,
) -> Result<RQuery, CommandFault>
    requires asked { IsToAsk database.now request.now.span (query_view request.now.query.now) }
    ensures query { IfOk result (λ q. resolved_view q ≡ query_in (world_of_database database.now) (query_view request.now.query.now)) }
    ensures sound { IfOk result (λ q. IsResolved (resolved_view q)) }
    ensures fits { IfOk result (λ q. FitsItsClasses (world_of_database database.now) (resolved_view q)) }
    ensures right { IsOk result → refusal_beside (world_of_database database.now) (clock_of database.now) others.now request.now.span (query_view request.now.query.now) ≡ None }
    ensures cause { IfErr result (λ fault.
        IsStoppedBy (refusal_beside (world_of_database database.now) (clock_of database.now) others.now request.now.span (query_view request.now.query.now)) fault) }
{
    let size = size_refusal(database, others, request.span, request.query);
    match resolve(alloc, request.query, database.schema(), database.regions()) {
        Ok(_) if others.taken => Err(CommandFault::Refused(Refusal::NameTaken)),
        Ok(resolved) => match size {
            Some(refusal) => Err(CommandFault::Refused(refusal)),
            None => Ok(resolved),
        },
        Err(fault) => match fault_refusal(fault, others.taken, size) {
            Some(refusal) => Err(CommandFault::Refused(refusal)),
            None => Err(CommandFault::NoMemory),
        },
    }
}

/// The query by number, where nothing refuses that it is registered. Want of memory is told only where nothing does.
pub fn judge(
    alloc: Global,
    database: &Database,
    live: &Live,
    request: &Request,
) -> Result<RQuery, CommandFault>
    requires asked { IsToAsk database.now request.now.span (query_view request.now.query.now) }
    requires stand { Stand database.now live.now }
    ensures judged { IfOk result (λ q. IsRegistrable database.now live.now request.now (resolved_view q)) }
    ensures cause { IfErr result (λ fault.
        IsStoppedBy (register_refusal (known_of database.now live.now) request.now.name.now request.now.span (query_view request.now.query.now)) fault) }
{
    live.are_kept();
    let others = Others {
        taken: live.has(request.name),
        count: live.count() as usize,
        bindings: live.bindings(),
    };
    judge_beside(alloc, database, &others, request)
}
