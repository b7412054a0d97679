//! Queries whose first variable ranges over many cars, and how many of these are left to be asked.
ghost use Rattle.std.specs.Prelude.{◌≡◌, ◌≤◌, IfOk, length};
ghost use Rattle.formula_shape.specs.declared.limits.TheConstants.{OBJECT_LIMIT};
ghost use Rattle.ftl_parser.specs.Lawful.{IsLawful};
ghost use Rattle.ftl_parser.specs.Tree.{query_view};
ghost use Rattle.formula.specs.Tree.{resolved_view};
ghost use Rattle.narrowing.specs.Narrowed.{AreOfClasses};

use crate::owned::spent;
use crate::spread::{COUNT, two_squares};
use crate::stores::window;
use answers::domains_of;
use formula::RQuery;
use ftl_lexer::{LEXER_LIMIT, tokens};
use ftl_parser::{Query, parse};
use ftl_typer::resolve;
use narrowing::{can_hold_at, narrowed, narrowed_within};
use object_store::Store;
use polygon::Regions;
use relation::Domains;
use std::alloc::Global;
use std::test::Fail;
use tick_set::Window;

/// A formula with what stands before it, the number of its variables, by how much positions may be off, in thousandths, and
/// the ends of a window.
#[derive(Clone, Copy)]
pub(crate) struct Asked<'a> {
    pub head: &'a [u8],
    pub formula: &'a [u8],
    pub variables: usize,
    pub error: u32,
    pub ends: (u32, u32),
}

// A function that owns a tree or a store has few ways out, since each makes its proof longer.
fn line_of(alloc: Global, asked: &Asked) -> Result<Vec<u8>, Fail> {
    let mut line = asked.head.to_vec(alloc)?;
    line.extend_from_slice(asked.formula)?;
    Ok(line)
}

fn read(alloc: Global, line: &[u8]) -> Result<Query, Fail>
    ensures { IfOk result (λ q. IsLawful (query_view q)) }
{
    if line.len() > LEXER_LIMIT {
        return Err("a line past its length".into());
    }
    let tokens = tokens(alloc, line)?;
    let query = parse(alloc, &tokens, 0)?;
    Ok(query)
}

fn named(alloc: Global, asked: &Asked) -> Result<Query, Fail>
    ensures { IfOk result (λ q. IsLawful (query_view q)) }
{
    let line = line_of(alloc, asked)?;
    read(alloc, &line)
}

fn resolved(
    alloc: Global,
    store: &Store,
    regions: &Regions,
    named: &Query,
    variables: usize,
) -> Result<RQuery, Fail>
    requires { IsLawful (query_view named.now) }
    ensures { IfOk result (λ q. length q.classes ≡ variables) }
{
    let query = resolve(alloc, named, store.schema(), regions)?;
    if query.classes.items().len() == variables {
        Ok(query)
    } else {
        Err("another number of variables".into())
    }
}

fn numbered(alloc: Global, store: &Store, regions: &Regions, asked: &Asked) -> Result<RQuery, Fail>
    ensures { IfOk result (λ q. length q.classes ≡ asked.now.variables) }
{
    let named = named(alloc, asked)?;
    let query = resolved(alloc, store, regions, &named, asked.variables);
    spent(named, query)
}

fn all_objects(alloc: Global, query: &RQuery, store: &Store) -> Result<Domains, Fail>
    requires { length query.now.classes ≤ OBJECT_LIMIT }
    ensures { IfOk result (λ domains. AreOfClasses store.now (resolved_view query.now) domains) }
{
    let domains = domains_of(alloc, query, store)?;
    Ok(domains)
}

fn count_of(found: &Option<Domains>) -> usize {
    match found {
        Some(some) if some.len() > 0 => some.of(0).len(),
        _ => COUNT as usize,
    }
}

fn exactly_left(
    alloc: Global,
    store: &Store,
    regions: &Regions,
    query: &RQuery,
    w: Window,
) -> Result<usize, Fail>
    requires { length query.now.classes ≤ OBJECT_LIMIT }
{
    let objects = all_objects(alloc, query, store)?;
    let found = narrowed(alloc, query, &objects, store, regions, w)?;
    Ok(count_of(&found))
}

fn left_within(
    alloc: Global,
    store: &Store,
    regions: &Regions,
    query: &RQuery,
    error: u32,
    w: Window,
) -> Result<usize, Fail>
    requires { length query.now.classes ≤ OBJECT_LIMIT }
{
    let objects = all_objects(alloc, query, store)?;
    let found = narrowed_within(alloc, query, &objects, store, regions, error, w)?;
    Ok(count_of(&found))
}

fn left_among(alloc: Global, store: &Store, regions: &Regions, asked: &Asked) -> Result<usize, Fail>
    requires { asked.now.variables ≤ OBJECT_LIMIT }
{
    let w = window(asked.ends)?;
    let query = numbered(alloc, store, regions, asked)?;
    let count = left_for(alloc, store, regions, &query, asked.error, w);
    spent(query, count)
}

fn left_for(
    alloc: Global,
    store: &Store,
    regions: &Regions,
    query: &RQuery,
    error: u32,
    w: Window,
) -> Result<usize, Fail>
    requires { length query.now.classes ≤ OBJECT_LIMIT }
{
    if error == 0 {
        exactly_left(alloc, store, regions, query, w)
    } else {
        left_within(alloc, store, regions, query, error, w)
    }
}

/// How many cars are asked.
pub(crate) fn left(alloc: Global, store: &Store, asked: &Asked) -> Result<usize, Fail>
    requires { asked.now.variables ≤ OBJECT_LIMIT }
{
    let regions = two_squares(alloc)?;
    let count = left_among(alloc, store, &regions, asked);
    spent(regions, count)
}

// Whether a formula can hold where a car is over a window, from the last write on.
fn can_be_met(query: &RQuery, store: &Store, regions: &Regions, id: u32, w: Window) -> bool {
    if w.lo < store.last_tick() {
        return true;
    }
    match store.whereabouts(id, w) {
        Some(area) => can_hold_at(query, &area, regions),
        None => false,
    }
}

fn count_met(query: &RQuery, store: &Store, regions: &Regions, w: Window) -> usize {
    (0..COUNT)
        .filter(|id| can_be_met(query, store, regions, *id, w))
        .count()
}

/// With how many cars a formula of one variable can hold where they are.
pub(crate) fn met(alloc: Global, store: &Store, asked: &Asked) -> Result<usize, Fail> {
    let regions = two_squares(alloc)?;
    let count = met_in(alloc, store, &regions, asked);
    spent(regions, count)
}

fn met_in(alloc: Global, store: &Store, regions: &Regions, asked: &Asked) -> Result<usize, Fail> {
    let w = window(asked.ends)?;
    let query = numbered(alloc, store, regions, asked)?;
    let count = count_met(&query, store, regions, w);
    Ok(spent(query, count))
}
