//! Registering a query.
ghost use Rattle.formula.specs.Tree.{resolved_view};
ghost use Rattle.ftl_parser.specs.Tree.{query_view};
ghost use Rattle.tick_set.specs.Ticks.{IsTick};
ghost use Rattle.line_meaning.specs.Looks.{most_reads};
ghost use Rattle.database.specs.Keeping.{IsTimely, TellsAcceptedWrites, world_of_database};
ghost use Rattle.database.specs.Telling.{TakesAtMost, tally};
ghost use Rattle.registry.specs.Judged.{IsRegistrable, Registers};
ghost use Rattle.registry.specs.Standing.{Stand};

use crate::telling::push_answer;
use database::Database;
use fixed_point::Word;
use formula::{QueryKind, RQuery};
use ftl_parser::Query;
use live_queries::{Live, QueryInfo};
use std::alloc::{AllocError, Global};
use std::sync::ledger::Ledger;
use steps::Steps;

/// A query that is to be registered: its name, whether it is watched or kept, and its ticks from now on.
#[derive(Clone, Copy)]
pub struct Request<'a> {
    pub name: &'a Word,
    pub kind: QueryKind,
    pub span: u32,
    pub query: &'a Query,
}

/// Registers a query that was judged, from now to its expiry, after the others, and writes its answer. It fails only
/// where memory is out; then no query more is registered, and `out` still begins with its old contents.
pub fn register<L: Ledger, M: Ledger>(
    alloc: Global,
    database: &Database,
    live: &mut Live,
    request: &Request,
    resolved: RQuery,
    reads: &mut Steps<L>,
    probes: &mut Steps<M>,
    out: &mut Vec<u8>,
) -> Result<(), AllocError>
    requires span { IsTick request.now.span }
    requires timely { IsTimely database.now }
    requires accepted { TellsAcceptedWrites database.now }
    requires stand { Stand database.now live.old }
    requires judged { IsRegistrable database.now live.old request.now (resolved_view resolved) }
    ensures registers { Registers database.now request.now (resolved_view resolved) live.old live.new out.old.items out.new.items result }
    ensures takes { TakesAtMost (most_reads (world_of_database database.now) request.now.span (query_view request.now.query.now))
        (tally out.old.items reads.old probes.old) (tally out.new.items reads.new probes.new) }
{
    let now = database.clock();
    let info = QueryInfo {
        name: *request.name,
        kind: request.kind,
        entry: now,
        expiry: now + request.span,
    };
    let (store, regions) = (database.store(), database.regions());
    live.register(alloc, &info, resolved, store, regions, now, reads, probes)?;
    match push_answer(alloc, database, live, request.name, out) {
        Ok(()) => Ok(()),
        Err(AllocError) => {
            live.drop_query(request.name);
            Err(AllocError)
        }
    }
}
