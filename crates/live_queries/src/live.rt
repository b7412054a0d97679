//! The registered queries.
ghost use Rattle.std.specs.Prelude.{◌≡◌, ◌<◌, ◌≤◌, ◌+◌, ◌-◌, ◌*◌, ℕ, All, [], not, drop, length, map, option_map, slice_get, sum_by, ◌++◌, IfOk, OnErr, OnOk};
ghost use Rattle.std.specs.List.{filter, flat_map, list_any};
ghost use Rattle.std.specs.Option.{option_copied};
ghost use Rattle.std.specs.Str.{bytes_eq};
ghost use Rattle.tick_set.specs.Windows.{AreQueryEnds};
ghost use Rattle.formula.specs.Resolved.{IsResolved};
ghost use Rattle.formula.specs.Tree.{resolved_view};
ghost use Rattle.meaning.specs.Fits.{FitsItsClasses};
ghost use Rattle.meaning.specs.Reads.{query_reads, sizes_of, write_reads};
ghost use Rattle.object_store.specs.Contents.{IsObjectId, catalog_of};
ghost use Rattle.atoms.specs.Asked.{told_world, world_in};
ghost use Rattle.answers.specs.Objects.{IsOfAcceptedWrites};
ghost use Rattle.kept_rows.specs.declared.binding.TheConstants.{BINDING_LIMIT};
ghost use Rattle.kept_rows.specs.Numbers.{size_of};
ghost use Rattle.formula.specs.declared.limits.TheConstants.{QUERY_LIMIT};
ghost use Rattle.live_queries.specs.Asked.{ExtendsCatalog, FitsWorld, HaveObjectsBefore, IsObjectWithClass, class_in};
ghost use Rattle.history.specs.Catalog.{Catalog, most_bindings};
ghost use Rattle.live_queries.specs.Columns.{HaveObjectsOf, column_variables};
ghost use Rattle.live_queries.specs.Effort.{all_judged_reads, judged_reads};
ghost use Rattle.live_queries.specs.Kept.{AreKept, IsKeptQuery, registered_query};
ghost use Rattle.live_queries.specs.Missed.{IsOfContents, IsSightOf};
ghost use Rattle.live_queries.specs.Prepared.{AddsRenewal, AreFreshFor, AreMade, ArePrepared, IsPrepared};
ghost use Rattle.live_queries.specs.Registering.{AddsQuery};
ghost use Rattle.live_queries.specs.Untouched.{spread};
ghost use Rattle.live_queries.specs.Told.{answer_of, changes_of, info_of, passings_of, query_named, told_info};
ghost use Rattle.steps.specs.Counting.{StepsAtMost};

use crate::fresh::{Fresh, Renewals, Touched};
use crate::objects::place_among;
use crate::query::LiveQuery;
use crate::sight::Sight;
use crate::told::{AnswerRow, Move, QueryInfo};
use crate::written::{Present, WriteTo, Written};
use answers::StoredWorld;
use fixed_point::Word;
use formula::{ClassNo, RQuery};
use object_store::Store;
use polygon::Regions;
use std::alloc::{AllocError, Global};
use std::marker::Model;
use std::sync::ledger::Ledger;
use std::vec::IntoIter;
use steps::Steps;

/// The registered queries with their rows, in the order of registration. What is told of them is told by their rows
/// alone.
#[derive(Drop)]
pub struct Live {
    queries: Vec<LiveQuery>,
}

impl Model for Live {
    ghost use Rattle.std.specs.Prelude.{ℕ, List};
    ghost use Rattle.std.specs.Coded.{codes};
    ghost use Rattle.formula_shape.specs.ShapeCode.{shape_code};
    ghost use Rattle.formula.specs.declared.tree.RAtom.{RAtom};
    ghost use Rattle.formula.specs.declared.tree.RTerm.{RTerm};
    ghost use Rattle.live_queries.specs.Effort.{all_judged_reads};
    ghost use Rattle.live_queries.specs.Kept.{AreKept, KeptQuery};

    ghost Value = { List KeptQuery };

    ghost coded = { Prim.hlevel (codes, shape_code {A = RAtom} {B = ℕ × RTerm} (Prim.hlevel codes)) };

    ghost view = { λ a. a.queries.items };

    ghost invariant = { λ a. AreKept a.queries.items };
}

impl Live {
    /// No query. It takes no memory.
    pub fn new(alloc: Global) -> Live
        ensures { result ≡ [] }
    {
        Live {
            queries: Vec::new(alloc),
        }
    }

    /// How many queries are registered, at most [`formula::QUERY_LIMIT`].
    pub fn count(&self) -> u32
        ensures { result ≡ length self.now }
    {
        self.queries.len() as u32
    }

    /// What is so of all registered queries, for a caller's proof. It does nothing.
    pub fn are_kept(&self)
        ensures { AreKept self.now }
    {
        let _queries = &self.queries;
    }

    /// Whether a query of this name is registered.
    pub fn has(&self, name: &Word) -> bool
        ensures { result ≡ list_any (λ k. bytes_eq k.name name.now) self.now }
    {
        self.queries.iter().any(|query| query.is_named(name))
    }

    /// How many numbers the bindings of all queries may have: the sum of the products of their classes' capacities.
    pub fn bindings(&self) -> u64
        ensures { result ≡ sum_by (λ k. size_of (column_variables k.columns)) self.now }
    {
        bindings_of(&self.queries)
    }

    /// The registered query of a place in the order of registration, from 0. None exactly where there is none.
    pub fn query_at(&self, place: usize) -> Option<QueryInfo>
        ensures { option_map told_info result ≡ option_map info_of (slice_get self.now place) }
    {
        match self.queries.get(place) {
            Some(query) => Some(query.info()),
            None => None,
        }
    }

    /// Takes the query of a name away. Answers whether there was one.
    pub fn drop_query(&mut self, name: &Word) -> bool
        ensures had { result ≡ list_any (λ k. bytes_eq k.name name.now) self.old }
        ensures others { self.new ≡ filter (λ k. not (bytes_eq k.name name.now)) self.old }
    {
        let had = self.has(name);
        self.queries.retain(|query| !query.is_named(name));
        had
    }

    /// The answer of the query of a name at a tick, row by row in the order of its targets. None exactly where no
    /// query has the name. It fails only where memory is out.
    pub fn answer(
        &self,
        alloc: Global,
        name: &Word,
        now: u32,
    ) -> Result<Option<Vec<AnswerRow>>, AllocError>
        ensures { IfOk result (λ answer. option_map (λ rows. rows.items) answer
            ≡ option_map (λ k. answer_of k now) (query_named self.now name.now)) }
    {
        match self.query(name) {
            Some(query) => Ok(Some(query.answer(alloc, now)?)),
            None => Ok(None),
        }
    }

    // The query of a name.
    fn query(&self, name: &Word) -> Option<&LiveQuery>
        ensures { option_copied result ≡ query_named self.now name.now }
    {
        self.queries.iter().find(|query| query.is_named(name))
    }

    /// Which targets of each query enter and leave as time passes from tick `before` to `now`, in the order of
    /// registration and then of the targets. It fails only where memory is out.
    pub fn passed(&self, alloc: Global, before: u32, now: u32) -> Result<Vec<Move>, AllocError>
        ensures { IfOk result (λ moves. moves.items ≡ flat_map (passings_of before now) self.now) }
    {
        let mut moves = Vec::new(alloc);
        add_passings(alloc, &self.queries, before, now, &mut moves)?;
        Ok(moves)
    }

    /// Notes that time has passed to `now`, so that the passing of time from then on looks only at rows that turn. It
    /// takes no memory and changes nothing that is told.
    pub fn advance(&mut self, now: u32)
        ensures { self.new ≡ self.old }
    {
        advance_each(&mut self.queries, now);
    }

    /// What a write that was prepared changes for the targets of each query at tick `now`, in the order of
    /// registration and then of the targets. It fails only where memory is out.
    pub fn changes(&self, alloc: Global, fresh: &Fresh, now: u32) -> Result<Vec<Move>, AllocError>
        requires { IsPrepared self.now fresh.now }
        ensures { IfOk result (λ moves. moves.items ≡ changes_of fresh.now.object now self.now fresh.now.renewals) }
    {
        let mut moves = Vec::new(alloc);
        let (touched, rest) = fresh.renewals.parts();
        let prepared = Ahead {
            object: fresh.object,
            class: fresh.class,
            touched,
            rest,
        };
        add_changes(alloc, &self.queries, &prepared, now, &mut moves)?;
        Ok(moves)
    }

    /// Registers a query after the others at tick `now`, with its rows in the store as it is: of a watched one those
    /// from `now` on, which may be after its entry. It fails only where memory is out, and then nothing has changed.
    ///
    /// The query is right by number and fits the classes and the regions, it has at most 1,000,000 bindings, and it
    /// has at most 100,000,000 ticks after its entry. `reads` counts the looks at timelines.
    pub fn register<L: Ledger, M: Ledger>(
        &mut self,
        alloc: Global,
        info: &QueryInfo,
        query: RQuery,
        store: &Store,
        regions: &Regions,
        now: u32,
        reads: &mut Steps<L>,
        probes: &mut Steps<M>,
    ) -> Result<(), AllocError>
        requires few { length self.old < QUERY_LIMIT }
        requires accepted { IsOfAcceptedWrites store.now }
        requires resolved { IsResolved (resolved_view query) }
        requires fits { FitsItsClasses (world_in store.now regions.now) (resolved_view query) }
        requires size { most_bindings (catalog_of store.now).classes query.classes ≤ BINDING_LIMIT }
        requires ends { AreQueryEnds info.now.entry info.now.expiry }
        ensures ok { OnOk result (AddsQuery (world_in store.now regions.now) now (told_info info.now) (resolved_view query) self.old self.new) }
        ensures err { OnErr result (self.new ≡ self.old) }
        ensures reads { StepsAtMost reads.old reads.new
            (query_reads (sizes_of (catalog_of store.now) (resolved_view query)) (info.now.expiry + 1 - info.now.entry) (resolved_view query)) }
    {
        let world = StoredWorld { store, regions };
        let present = Present {
            world: &world,
            tick: now,
        };
        let added = LiveQuery::new(alloc, info, query, &present, reads, probes)?;
        self.queries.push(added)?;
        Ok(())
    }

    /// What a write at tick `now` to one object makes of the queries, which have the rows from before it. No row is
    /// judged anew of a binding without the object, and none of a query whose expiry is before the write. The ticks are
    /// judged alone of which the write may change what is told: of a watched query those from `now` on, and of a kept one
    /// as many more before as its formula sees ahead. It fails only where memory is out.
    ///
    /// `reads` counts the looks at timelines.
    pub fn refresh<L: Ledger, M: Ledger>(
        &self,
        alloc: Global,
        id: u32,
        store: &Store,
        regions: &Regions,
        now: u32,
        reads: &mut Steps<L>,
        probes: &mut Steps<M>,
    ) -> Result<Fresh, AllocError>
        requires accepted { IsOfAcceptedWrites store.now }
        requires fits { All (FitsWorld (world_in store.now regions.now)) self.now }
        requires there { IsObjectId store.now id }
        requires before { HaveObjectsBefore id (catalog_of store.now) self.now }
        ensures object { IfOk result (λ f. f.object ≡ id) }
        ensures class { IfOk result (λ f. f.class ≡ class_in store.now id) }
        ensures prepared { IfOk result (IsPrepared self.now) }
        ensures fresh { IfOk result (λ f. AreFreshFor (world_in store.now regions.now) f.object f.class now self.now f.renewals) }
        ensures reads { StepsAtMost reads.old reads.new
            (write_reads (catalog_of store.now) (map registered_query self.now) now (class_in store.now id)) }
        ensures judged { reads.new ≤ reads.old + all_judged_reads (catalog_of store.now) self.now now (class_in store.now id) }
    {
        let class = class_of(store, id);
        let world = StoredWorld { store, regions };
        let present = Present {
            world: &world,
            tick: now,
        };
        let queries = &self.queries;
        let renewals = renewals_of(alloc, queries, id, &present, reads, probes)?;
        Ok(Fresh {
            object: id,
            class,
            renewals,
        })
    }

    /// Makes what was prepared of a write. It takes no memory and can't fail.
    pub fn commit(&mut self, fresh: Fresh)
        requires { IsPrepared self.old fresh }
        ensures { AreMade fresh.object fresh.class fresh.renewals self.old self.new }
    {
        let (touched, rest) = fresh.renewals.into_parts();
        commit_each(&mut self.queries, fresh.object, fresh.class, touched, rest);
    }
}

// The class of an object.
fn class_of(store: &Store, id: u32) -> ClassNo
    requires { IsObjectId store.now id }
    ensures { result ≡ class_in store.now id }
{
    match store.class_of(id) {
        Some(class) => class,
        None => unreachable!(),
    }
}

// An object with its place in the class, which is looked for once and not again for each query.
fn written(store: &Store, id: u32) -> Written
    requires { IsObjectId store.now id }
    ensures written { IsOfContents store.now result }
    ensures id { result.id ≡ id }
    ensures class { result.class ≡ class_in store.now id }
{
    let class = class_of(store, id);
    let ids = store.class_names(class);
    Written {
        id,
        class,
        count: ids.len(),
        place: place_among(ids, store.object_count(), id),
    }
}

// What is prepared of a write so far, and where its object was seen last.
#[derive(Drop)]
struct Preparing {
    renewals: Renewals,
    sight: Sight,
}

// Adds what a write to an object makes of a query. Nothing is evaluated of one that the object misses.
fn add_renewal<L: Ledger, M: Ledger>(
    alloc: Global,
    query: &LiveQuery,
    write: &WriteTo,
    reads: &mut Steps<L>,
    probes: &mut Steps<M>,
    made: &mut Preparing,
) -> Result<(), AllocError>
    requires accepted { IsOfAcceptedWrites write.now.present.world.now.store.now }
    requires fits { FitsWorld (told_world write.now.present.world.now) query.now }
    requires written { IsOfContents write.now.present.world.now.store.now write.now.object.now }
    requires before { (old : Catalog) × ExtendsCatalog write.now.object.now.id old (catalog_of write.now.present.world.now.store.now) × HaveObjectsOf old query.now.query.classes query.now.columns }
    requires sight { IsSightOf write.now.present.world.now.store.now write.now.object.now.id made.old.sight }
    requires few { length made.old.renewals < QUERY_LIMIT }
    ensures added { OnOk result (AddsRenewal (told_world write.now.present.world.now) write.now.object.now.id write.now.object.now.class write.now.present.tick query.now made.old.renewals made.new.renewals) }
    ensures sight { IsSightOf write.now.present.world.now.store.now write.now.object.now.id made.new.sight }
    ensures reads { StepsAtMost reads.old reads.new
        (judged_reads (catalog_of write.now.present.world.now.store.now) write.now.present.tick write.now.object.now.class query.now) }
{
    if query.is_missed(write, &mut made.sight) {
        made.renewals.pass();
        return Ok(());
    }
    add_evaluated(alloc, query, write, reads, probes, &mut made.renewals)
}

// The same of a query that the object doesn't surely miss. Not inlined: the others are passed over in a short loop, which
// makes no room for what would be made of them.
#[inline(never)]
fn add_evaluated<L: Ledger, M: Ledger>(
    alloc: Global,
    query: &LiveQuery,
    write: &WriteTo,
    reads: &mut Steps<L>,
    probes: &mut Steps<M>,
    renewals: &mut Renewals,
) -> Result<(), AllocError>
    requires accepted { IsOfAcceptedWrites write.now.present.world.now.store.now }
    requires fits { FitsWorld (told_world write.now.present.world.now) query.now }
    requires object { IsObjectWithClass write.now.present.world.now.store.now write.now.object.now.id write.now.object.now.class }
    requires before { (old : Catalog) × ExtendsCatalog write.now.object.now.id old (catalog_of write.now.present.world.now.store.now) × HaveObjectsOf old query.now.query.classes query.now.columns }
    requires few { length renewals.old < QUERY_LIMIT }
    ensures added { OnOk result (AddsRenewal (told_world write.now.present.world.now) write.now.object.now.id write.now.object.now.class write.now.present.tick query.now renewals.old renewals.new) }
    ensures reads { StepsAtMost reads.old reads.new
        (judged_reads (catalog_of write.now.present.world.now.store.now) write.now.present.tick write.now.object.now.class query.now) }
{
    let renewal = query.renewal(alloc, write, reads, probes)?;
    renewals.add(renewal)?;
    Ok(())
}

// What a write to an object of a class makes of each of these queries. One that it doesn't touch takes no memory. Not
// inlined, so that its loop has the registers for itself.
#[inline(never)]
fn renewals_of<L: Ledger, M: Ledger>(
    alloc: Global,
    queries: &[LiveQuery],
    id: u32,
    present: &Present,
    reads: &mut Steps<L>,
    probes: &mut Steps<M>,
) -> Result<Renewals, AllocError>
    requires few { length queries.now ≤ QUERY_LIMIT }
    requires accepted { IsOfAcceptedWrites present.now.world.now.store.now }
    requires fits { All (FitsWorld (told_world present.now.world.now)) queries.now }
    requires there { IsObjectId present.now.world.now.store.now id }
    requires before { HaveObjectsBefore id (catalog_of present.now.world.now.store.now) queries.now }
    ensures prepared { IfOk result (λ renewals. ArePrepared (class_in present.now.world.now.store.now id) queries.now renewals) }
    ensures fresh { IfOk result (λ renewals. AreFreshFor (told_world present.now.world.now) id (class_in present.now.world.now.store.now id) present.now.tick queries.now renewals) }
    ensures reads { StepsAtMost reads.old reads.new (all_judged_reads (catalog_of present.now.world.now.store.now) queries.now present.now.tick (class_in present.now.world.now.store.now id)) }
{
    let renewals = Renewals::new(alloc);
    if queries.is_empty() {
        return Ok(renewals);
    }
    let object = written(present.world.store, id);
    let write = WriteTo {
        object: &object,
        present: *present,
    };
    let sight = Sight::none();
    let mut made = Preparing { renewals, sight };
    let mut rest = queries;
    'queries: while let Some((query, later)) = rest.split_first() {
        add_renewal(alloc, query, &write, reads, probes, &mut made)?;
        rest = later;
    }
    let Preparing { renewals, sight: _ } = made;
    Ok(renewals)
}

// How many numbers the bindings of these queries may have.
fn bindings_of(queries: &[LiveQuery]) -> u64
    requires { length queries.now ≤ QUERY_LIMIT }
    ensures sum { result ≡ sum_by (λ k. size_of (column_variables k.columns)) queries.now }
    ensures bound { result ≤ length queries.now * BINDING_LIMIT }
{
    match queries.split_first() {
        Some((query, queries)) => u64::from(query.size()) + bindings_of(queries),
        None => 0,
    }
}

// Adds which targets of these queries enter and leave.
fn add_passings(
    alloc: Global,
    queries: &[LiveQuery],
    before: u32,
    now: u32,
    moves: &mut Vec<Move>,
) -> Result<(), AllocError>
    ensures { OnOk result (moves.new.items ≡ moves.old.items ++ flat_map (passings_of before now) queries.now) }
{
    let Some((query, queries)) = queries.split_first() else {
        return Ok(());
    };
    query.add_passings(alloc, before, now, moves)?;
    add_passings(alloc, queries, before, now, moves)
}

// Notes in each of these queries that time has passed to `now`.
fn advance_each(queries: &mut [LiveQuery], now: u32)
    ensures { queries.new ≡ queries.old }
{
    let Some((query, queries)) = queries.split_first_mut() else {
        return;
    };
    query.advance(now);
    advance_each(queries, now);
}

// What is prepared of a write to an object for the queries that are left: some are touched, and so many stand after the last
// one.
#[derive(Clone, Copy)]
struct Ahead<'a> {
    object: u32,
    class: ClassNo,
    touched: &'a [Touched],
    rest: usize,
}

// Adds what changes for the targets of these queries.
fn add_changes(
    alloc: Global,
    queries: &[LiveQuery],
    prepared: &Ahead,
    now: u32,
    moves: &mut Vec<Move>,
) -> Result<(), AllocError>
    requires { ArePrepared prepared.now.class queries.now (spread prepared.now.touched.now prepared.now.rest) }
    ensures { OnOk result (moves.new.items ≡ moves.old.items ++ changes_of prepared.now.object now queries.now (spread prepared.now.touched.now prepared.now.rest)) }
{
    let Some((first, touched)) = prepared.touched.split_first() else {
        return Ok(());
    };
    let Some((query, queries)) = after(queries, first.passed).split_first() else {
        return Ok(());
    };
    query.add_moves(alloc, prepared.object, &first.renewal.changes, now, moves)?;
    let ahead = Ahead {
        object: prepared.object,
        class: prepared.class,
        touched,
        rest: prepared.rest,
    };
    add_changes(alloc, queries, &ahead, now, moves)
}

// The queries after the first so many.
#[inline]
fn after(queries: &[LiveQuery], count: usize) -> &[LiveQuery]
    requires { count ≤ length queries.now }
    ensures { result.now ≡ drop count queries.now }
{
    &queries[count..]
}

// Makes what was prepared of these queries, of which some are touched and so many stand after the last one.
fn commit_each(
    queries: &mut [LiveQuery],
    object: u32,
    class: ClassNo,
    mut touched: IntoIter<Touched>,
    rest: usize,
)
    requires kept { All IsKeptQuery queries.old }
    requires prepared { ArePrepared class queries.old (spread touched.rest.items rest) }
    ensures made { AreMade object class (spread touched.rest.items rest) queries.old queries.new }
    ensures kept { All IsKeptQuery queries.new }
{
    let Some(first) = touched.next() else {
        return;
    };
    let (_, queries) = queries.split_at_mut(first.passed);
    let Some((query, queries)) = queries.split_first_mut() else {
        return;
    };
    query.commit(object, class, first.renewal);
    commit_each(queries, object, class, touched, rest);
}
