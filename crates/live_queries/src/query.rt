//! One registered query with its rows.
ghost use Rattle.std.specs.Prelude.{◌≡◌, ◌<◌, ◌≤◌, ◌+◌, ◌-◌, ◌*◌, ◌++◌, ◌&&◌, ◌↔◌, ℕ, All, max, nat_le, nat_lt, not, true, Option, take, drop, length, IsSome, IfSome, IfOk, OnOk};
ghost use Rattle.std.specs.Str.{bytes_eq};
ghost use Rattle.meaning.specs.Registered.{first_tick};
ghost use Rattle.kept_rows.specs.declared.binding.TheConstants.{BINDING_LIMIT};
ghost use Rattle.tick_set.specs.Runs.{spans_have};
ghost use Rattle.tick_set.specs.declared.spans.TheConstants.{SPAN_LIMIT};
ghost use Rattle.tick_set.specs.Windows.{AreQueryEnds};
ghost use Rattle.history.specs.Catalog.{Catalog, most_bindings};
ghost use Rattle.formula.specs.declared.kind.QueryKind.TheVariants.{Keep, Watch};
ghost use Rattle.formula.specs.Reach.{counted};
ghost use Rattle.formula.specs.Resolved.{IsResolved};
ghost use Rattle.formula.specs.Tree.{resolved_view};
ghost use Rattle.meaning.specs.Fits.{FitsItsClasses};
ghost use Rattle.meaning.specs.Reads.{query_reads, sizes_of};
ghost use Rattle.object_store.specs.Contents.{catalog_of};
ghost use Rattle.atoms.specs.Asked.{told_world};
ghost use Rattle.answers.specs.Objects.{IsOfAcceptedWrites};
ghost use Rattle.kept_rows.specs.Changes.{AreReady, AreRising, rows_after};
ghost use Rattle.kept_rows.specs.Listing.{lines_upto, passing_of};
ghost use Rattle.kept_rows.specs.Moves.{move_of};
ghost use Rattle.kept_rows.specs.Numbers.{IsBindingCount, size_of};
ghost use Rattle.live_queries.specs.Asked.{ExtendsCatalog, FitsWorld, IsObjectWithClass};
ghost use Rattle.live_queries.specs.Columns.{HaveObjectsOf, column_variables};
ghost use Rattle.live_queries.specs.Current.{row_at};
ghost use Rattle.live_queries.specs.Effort.{judged_reads};
ghost use Rattle.live_queries.specs.Kept.{IsKeptQuery};
ghost use Rattle.live_queries.specs.Missed.{IsClearOf, IsOfContents, IsSightOf};
ghost use Rattle.live_queries.specs.Prepared.{AreNewRows, HaveRoomFor, IsFreshFor, IsMade, IsReadyFor};
ghost use Rattle.live_queries.specs.Registering.{IsRegistered};
ghost use Rattle.live_queries.specs.Renewed.{judged_from, judged_tick};
ghost use Rattle.live_queries.specs.Untouched.{TouchesQuery, or_untouched, untouched};
ghost use Rattle.live_queries.specs.Written.{HaveObjectsWith};
ghost use Rattle.live_queries.specs.Told.{answer_of, info_of, key_of, listed_lines, move as told_move, moves_of, passing_change as told_passing, passings_of, row_of_line, target_count, target_times, told_info};
ghost use Rattle.steps.specs.Counting.{StepsAtMost};

use crate::columns::{class_count, columns_of, has_class, lack};
use crate::evaluating::{new_rows, rows_between};
use crate::fresh::Renewal;
use crate::lone::{Lone, has_all, lone_of};
use crate::objects::{Objects, add_object, objects_of, width};
use crate::sight::Sight;
use crate::told::{AnswerRow, Move, QueryInfo};
use crate::written::{Arrival, Inquiry, Judged, Present, WriteTo, Written};
use answers::fitting_queries_can_be_asked;
use fixed_point::Word;
use formula::{Binding, ClassNo, QueryKind, RQuery, reach_of};
use interval_set::IntervalSet;
use kept_rows::{Changes, KeptRows, Line, Passing, Targets};
use std::alloc::{AllocError, Global};
use std::marker::Model;
use std::sync::ledger::Ledger;
use steps::Steps;
use tick_set::Window;

/// A registered query. Its variables stand in the order of the numbers of its bindings: the targets first.
#[derive(Drop)]
pub(crate) struct LiveQuery {
    columns: Vec<Objects>,
    // From the flags of the rows, their last field, to the kind there stands together what tells with the formula that a
    // write misses the query: the columns and the classes themselves aren't looked at.
    rows: KeptRows<IntervalSet>,
    entry: u32,
    expiry: u32,
    lone: Option<Lone>,
    kind: QueryKind,
    name: Word,
    query: RQuery,
    targets: Targets,
}

impl Model for LiveQuery {
    ghost use Rattle.std.specs.Prelude.{◌≡◌, ◌≤◌, ◌-◌, ℕ};
    ghost use Rattle.std.specs.Coded.{codes};
    ghost use Rattle.std.specs.Option.{ForSome};
    ghost use Rattle.tick_set.specs.declared.spans.TheConstants.{SPAN_LIMIT};
    ghost use Rattle.formula_shape.specs.ShapeCode.{shape_code};
    ghost use Rattle.formula.specs.Tree.{resolved_view};
    ghost use Rattle.formula.specs.declared.tree.RAtom.{RAtom};
    ghost use Rattle.formula.specs.declared.tree.RTerm.{RTerm};
    ghost use Rattle.live_queries.specs.Kept.{IsKeptQuery, KeptQuery};
    ghost use Rattle.live_queries.specs.Lone.{IsLone};
    ghost use Rattle.live_queries.specs.Told.{target_count, target_width};

    ghost Value = { KeptQuery };

    ghost coded = { Prim.hlevel (codes, shape_code {A = RAtom} {B = ℕ × RTerm} (Prim.hlevel codes)) };

    ghost view = { λ a. record { name = a.name; kind = a.kind; query = resolved_view a.query; entry = a.entry; expiry = a.expiry; columns = a.columns.items; pages = a.rows } };

    ghost invariant = { λ a.
        let k : KeptQuery = record { name = a.name; kind = a.kind; query = resolved_view a.query; entry = a.entry; expiry = a.expiry; columns = a.columns.items; pages = a.rows } in
        IsKeptQuery k × (a.targets.count ≡ target_count k) × (a.targets.width ≡ target_width k) × (a.expiry - a.entry ≤ SPAN_LIMIT)
        × ForSome a.lone (IsLone k.query.classes k.columns) };
}

impl LiveQuery {
    /// A query that is registered anew at tick `now`, with its rows in the store as it is: of a watched one those from
    /// then on. It fails only where memory is out.
    pub(crate) fn new<L: Ledger, M: Ledger>(
        alloc: Global,
        info: &QueryInfo,
        query: RQuery,
        present: &Present,
        reads: &mut Steps<L>,
        probes: &mut Steps<M>,
    ) -> Result<LiveQuery, AllocError>
        requires accepted { IsOfAcceptedWrites present.now.world.now.store.now }
        requires resolved { IsResolved (resolved_view query) }
        requires fits { FitsItsClasses (told_world present.now.world.now) (resolved_view query) }
        requires size { most_bindings (catalog_of present.now.world.now.store.now).classes query.classes ≤ BINDING_LIMIT }
        requires ends { AreQueryEnds info.now.entry info.now.expiry }
        ensures registered { IfOk result (IsRegistered (told_world present.now.world.now) present.now.tick (told_info info.now) (resolved_view query)) }
        ensures kept { IfOk result IsKeptQuery }
        ensures reads { StepsAtMost reads.old reads.new
            (query_reads (sizes_of (catalog_of present.now.world.now.store.now) (resolved_view query)) (info.now.expiry + 1 - info.now.entry) (resolved_view query)) }
    {
        fitting_queries_can_be_asked();
        let columns = columns_of(alloc, &query, present.world.store)?;
        let lo = first_told(info.kind, info.entry, present.tick);
        let inquiry = Inquiry {
            query: &query,
            columns: &columns,
            world: present.world,
        };
        let mut rows = rows_between(alloc, &inquiry, lo, info.expiry, reads, probes)?;
        let targets = targets_of(&columns, query.targets.items().len());
        file_rows(alloc, &mut rows, targets)?;
        let lone = lone_of(&query, &columns);
        Ok(LiveQuery {
            name: info.name,
            kind: info.kind,
            query,
            entry: info.entry,
            expiry: info.expiry,
            columns,
            lone,
            targets,
            rows,
        })
    }

    /// What a write to an object makes of it. None where it stays as it is: it has no variable of its class, it gets no
    /// object and its expiry is before the write or none of its rows changes. The object's place is looked for at a likely
    /// one first. It fails only where memory is out.
    pub(crate) fn renewal<L: Ledger, M: Ledger>(
        &self,
        alloc: Global,
        write: &WriteTo,
        reads: &mut Steps<L>,
        probes: &mut Steps<M>,
    ) -> Result<Option<Renewal>, AllocError>
        requires accepted { IsOfAcceptedWrites write.now.present.world.now.store.now }
        requires fits { FitsWorld (told_world write.now.present.world.now) self.now }
        requires object { IsObjectWithClass write.now.present.world.now.store.now write.now.object.now.id write.now.object.now.class }
        requires before { (old : Catalog) × ExtendsCatalog write.now.object.now.id old (catalog_of write.now.present.world.now.store.now) × HaveObjectsOf old self.now.query.classes self.now.columns }
        ensures ready { IfOk result (λ r. IsReadyFor write.now.object.now.class self.now (or_untouched r)) }
        ensures fresh { IfOk result (λ r. IsFreshFor (told_world write.now.present.world.now) write.now.object.now.id write.now.object.now.class write.now.present.tick self.now (or_untouched r)) }
        ensures touched { IfOk result (λ r. IfSome r (TouchesQuery write.now.object.now.class write.now.present.tick self.now)) }
        ensures reads { StepsAtMost reads.old reads.new
            (judged_reads (catalog_of write.now.present.world.now.store.now) write.now.present.tick write.now.object.now.class self.now) }
    {
        let object = write.object;
        let classes = self.query.classes.items();
        if !has_class(classes, object.class) {
            return Ok(None);
        }
        let count = class_count(write.present.world.store, object.class);
        let grows = lack(&self.columns, classes, object.class, count);
        if self.stays(write.present.tick, grows) {
            return Ok(None);
        }
        let changes = self.new_rows(alloc, write, grows, reads, probes)?;
        Ok(renewal_if_any(grows, changes))
    }

    /// Whether a write to an object leaves it as it is: its only variable is of the object's class, the row of the object
    /// is empty, and the object can't be where its formula needs it. It takes no memory, and no timeline is looked at.
    pub(crate) fn is_missed(&self, write: &WriteTo, sight: &mut Sight) -> bool
        requires written { IsOfContents write.now.present.world.now.store.now write.now.object.now }
        requires before { (old : Catalog) × ExtendsCatalog write.now.object.now.id old (catalog_of write.now.present.world.now.store.now) × HaveObjectsOf old self.now.query.classes self.now.columns }
        requires sight { IsSightOf write.now.present.world.now.store.now write.now.object.now.id sight.old }
        ensures fresh { result ≡ true → IsFreshFor (told_world write.now.present.world.now) write.now.object.now.id write.now.object.now.class write.now.present.tick self.now untouched }
        ensures sight { IsSightOf write.now.present.world.now.store.now write.now.object.now.id sight.new }
    {
        let now = write.present.tick;
        if self.expiry < now {
            return false;
        }
        if !self.has_clear_row(write.object) {
            return false;
        }
        let judged = self.judged_from(now);
        let w = Window {
            lo: first_judged(self.entry, judged),
            hi: self.expiry,
        };
        sight.misses(&self.query, write.object.id, write.present.world, w)
    }

    // Whether its only variable ranges over all objects of the class of this one, whose row is empty.
    fn has_clear_row(&self, object: &Written) -> bool
        ensures { result ≡ true → IsClearOf object.now self.now }
    {
        let Some(lone) = &self.lone else {
            return false;
        };
        if !has_all(lone, object) {
            return false;
        }
        self.rows.is_clear(object.place)
    }

    // Whether a write to an object of one of its classes changes nothing of it: its expiry is before the write, and it
    // gets no object more.
    #[inline]
    fn stays(&self, now: u32, grows: bool) -> bool
        ensures { result ≡ (nat_lt self.now.expiry now && not grows) }
    {
        self.expiry < now && !grows
    }

    // What such a write changes of its rows: nothing after its expiry, and nothing that is told of the ticks before the
    // first that it may change, which aren't judged.
    fn new_rows<L: Ledger, M: Ledger>(
        &self,
        alloc: Global,
        write: &WriteTo,
        grows: bool,
        reads: &mut Steps<L>,
        probes: &mut Steps<M>,
    ) -> Result<Changes<IntervalSet>, AllocError>
        requires accepted { IsOfAcceptedWrites write.now.present.world.now.store.now }
        requires fits { FitsItsClasses (told_world write.now.present.world.now) self.now.query }
        requires object { IsObjectWithClass write.now.present.world.now.store.now write.now.object.now.id write.now.object.now.class }
        requires room { grows ≡ true → HaveRoomFor write.now.object.now.class self.now.query.classes self.now.columns }
        requires objects { HaveObjectsWith (catalog_of write.now.present.world.now.store.now) grows write.now.object.now.class self.now.query.classes write.now.object.now.id self.now.columns }
        ensures ready { IfOk result (AreReady spans_have self.now.pages) }
        ensures rising { IfOk result (AreRising (size_of (column_variables self.now.columns))) }
        ensures rows { IfOk result (AreNewRows (told_world write.now.present.world.now) grows write.now.object.now.id write.now.object.now.class write.now.present.tick self.now) }
        ensures reads { StepsAtMost reads.old reads.new
            (judged_reads (catalog_of write.now.present.world.now.store.now) write.now.present.tick write.now.object.now.class self.now) }
    {
        let now = write.present.tick;
        if self.expiry < now {
            return Ok(Changes::new(alloc));
        }
        let judged = self.judged_from(now);
        let judged = Judged {
            query: &self.query,
            rows: &self.rows,
            world: write.present.world,
            w: Window {
                lo: first_judged(self.entry, judged),
                hi: self.expiry,
            },
            from: kept_before(self.kind, judged),
        };
        let arrival = Arrival {
            object: write.object,
            grows,
        };
        let changes = new_rows(alloc, &judged, &self.columns, &arrival, reads, probes)?;
        Ok(changes)
    }

    // The first tick of which a write at tick `now` may change what is told.
    fn judged_from(&self, now: u32) -> u32
        ensures value { result ≡ judged_from self.now now }
        ensures most { result ≤ now }
    {
        match self.kind {
            QueryKind::Keep => judged_tick(self.kind, reach_of(&self.query.formula), now),
            QueryKind::Watch => now,
        }
    }

    /// Whether it has this name.
    #[inline]
    pub(crate) fn is_named(&self, name: &Word) -> bool
        ensures { result ≡ bytes_eq self.now.name name.now }
    {
        self.name == *name
    }

    /// Its name, its kind and its ticks.
    pub(crate) fn info(&self) -> QueryInfo
        ensures { told_info result ≡ info_of self.now }
    {
        QueryInfo {
            name: self.name,
            kind: self.kind,
            entry: self.entry,
            expiry: self.expiry,
        }
    }

    /// How many numbers its bindings may have.
    pub(crate) fn size(&self) -> u32
        ensures value { result ≡ size_of (column_variables self.now.columns) }
        ensures limit { result ≤ BINDING_LIMIT }
    {
        width(&self.columns)
    }

    // The first tick of its answer.
    #[inline]
    fn first_tick(&self, now: u32) -> u32
        ensures { result ≡ first_tick self.now.kind self.now.entry now }
    {
        match self.kind {
            QueryKind::Watch => now,
            QueryKind::Keep => self.entry,
        }
    }

    // The objects of a target.
    fn key(&self, target: u32, added: u32) -> Binding
        requires { target < target_count self.now }
        ensures { result ≡ key_of added self.now target }
    {
        objects_of(
            &self.columns,
            target * self.targets.width,
            self.query.targets.items(),
            added,
        )
    }

    /// Its answer at a tick. It fails only where memory is out.
    pub(crate) fn answer(&self, alloc: Global, now: u32) -> Result<Vec<AnswerRow>, AllocError>
        ensures { IfOk result (λ rows. rows.items ≡ answer_of self.now now) }
    {
        let lines = self.lines(alloc, now)?;
        let mut rows = Vec::with_capacity(alloc, lines.len())?;
        'told: for line in lines {
            rows.push(self.row(line))?;
        }
        Ok(rows)
    }

    // The lines of its answer.
    fn lines(&self, alloc: Global, now: u32) -> Result<Vec<Line>, AllocError>
        ensures value { IfOk result (λ lines. lines.items ≡ listed_lines self.now now) }
        ensures below { IfOk result (λ lines. All (λ line. line.0 < target_count self.now) lines.items) }
    {
        let Some(window) = Window::new(self.first_tick(now), self.expiry) else {
            return Ok(Vec::new(alloc));
        };
        let lines = kept_rows::answer(alloc, &self.rows, self.targets, window)?;
        Ok(lines)
    }

    // The row of a line.
    fn row(&self, line: Line) -> AnswerRow
        requires { line.0 < target_count self.now }
        ensures { result ≡ row_of_line self.now line }
    {
        AnswerRow {
            key: self.key(line.target(), 0),
            spans: line.into_spans(),
        }
    }

    /// Adds which targets enter and leave from tick `before` to `now`. It fails only where memory is out.
    pub(crate) fn add_passings(
        &self,
        alloc: Global,
        before: u32,
        now: u32,
        moves: &mut Vec<Move>,
    ) -> Result<(), AllocError>
        ensures { OnOk result (moves.new.items ≡ moves.old.items ++ passings_of before now self.now) }
    {
        let passings = self.passings(alloc, before, now)?;
        'told: for passing in passings {
            moves.push(self.move_of_passing(alloc, passing))?;
        }
        Ok(())
    }

    // The targets that enter and leave, by number.
    fn passings(&self, alloc: Global, before: u32, now: u32) -> Result<Vec<Passing>, AllocError>
        ensures value { IfOk result (λ passings. passings.items
            ≡ lines_upto (passing_of (target_times self.now (row_at self.now)) self.now.expiry before now) (target_count self.now)) }
        ensures below { IfOk result (λ passings. All (λ p. p.0 < target_count self.now) passings.items) }
    {
        let passings = kept_rows::passed(
            alloc,
            &self.rows,
            self.targets,
            self.expiry,
            before,
            now,
        )?;
        Ok(passings)
    }

    // A target that enters or leaves.
    fn move_of_passing(&self, alloc: Global, passing: Passing) -> Move
        requires { passing.0 < target_count self.now }
        ensures { result ≡ told_passing self.now passing }
    {
        Move {
            query: self.name,
            key: self.key(passing.target(), 0),
            gained: Vec::new(alloc),
            lost: Vec::new(alloc),
            enters: passing.enters(),
            leaves: !passing.enters(),
        }
    }

    /// Adds what changes of rows change for its targets at tick `now`, where an object may be added. It fails only
    /// where memory is out.
    pub(crate) fn add_moves(
        &self,
        alloc: Global,
        added: u32,
        changes: &Changes<IntervalSet>,
        now: u32,
        moves: &mut Vec<Move>,
    ) -> Result<(), AllocError>
        requires { AreRising (size_of (column_variables self.now.columns)) changes.now }
        ensures { OnOk result (moves.new.items ≡ moves.old.items ++ moves_of added now self.now changes.now) }
    {
        let Some(window) = self.window(now) else {
            return Ok(());
        };
        let found = self.changes(alloc, changes, window, now)?;
        'told: for one in found {
            moves.push(self.move_of_change(one, added))?;
        }
        Ok(())
    }

    // What changes of targets, by number.
    fn changes(
        &self,
        alloc: Global,
        changes: &Changes<IntervalSet>,
        window: Window,
        now: u32,
    ) -> Result<Vec<kept_rows::Move>, AllocError>
        requires { AreRising (size_of (column_variables self.now.columns)) changes.now }
        ensures value { IfOk result (λ found. found.items
            ≡ lines_upto (move_of (target_times self.now (row_at self.now))
            (target_times self.now (rows_after spans_have changes.now (row_at self.now))) window.lo window.hi now) (target_count self.now)) }
        ensures below { IfOk result (λ found. All (λ m. m.target < target_count self.now) found.items) }
    {
        let found = kept_rows::moves(alloc, &self.rows, changes, self.targets, window, now)?;
        Ok(found)
    }

    // The ticks of its answer, unless it has expired.
    fn window(&self, now: u32) -> Option<Window>
        ensures some { IsSome result ↔ (now ≤ self.now.expiry) }
        ensures ends { IfSome result (λ w. (w.lo ≡ first_tick self.now.kind self.now.entry now) × (w.hi ≡ self.now.expiry)) }
    {
        if now > self.expiry {
            return None;
        }
        Window::new(self.first_tick(now), self.expiry)
    }

    // What changes of one target.
    fn move_of_change(&self, one: kept_rows::Move, added: u32) -> Move
        requires { one.target < target_count self.now }
        ensures { result ≡ told_move added self.now one }
    {
        let key = self.key(one.target(), added);
        let enters = one.enters();
        let leaves = one.leaves();
        let (gained, lost) = one.into_runs();
        Move {
            query: self.name,
            key,
            gained,
            lost,
            enters,
            leaves,
        }
    }

    /// Notes that time has passed to `now`. It takes no memory, and no row changes.
    #[inline]
    pub(crate) fn advance(&mut self, now: u32)
        ensures { self.new ≡ self.old }
    {
        self.rows.advance(now);
    }

    /// Makes what was prepared of a write to an object. It takes no memory.
    pub(crate) fn commit(&mut self, object: u32, class: ClassNo, renewal: Renewal)
        requires { IsReadyFor class self.old renewal }
        ensures made { IsMade object class renewal self.old self.new }
        ensures kept { IsKeptQuery self.new }
    {
        add_object(
            &mut self.columns,
            renewal.grows,
            self.query.classes.items(),
            class,
            object,
        );
        self.lone = lone_of(&self.query, &self.columns);
        renewal.changes.commit(&mut self.rows);
    }
}

// What a write makes of a query, if it is something.
fn renewal_if_any(grows: bool, changes: Changes<IntervalSet>) -> Option<Renewal>
    ensures some { IfSome result (λ r. r ≡ record { grows = grows; changes = changes }) }
    ensures value { or_untouched result ≡ record { grows = grows; changes = changes } }
{
    if !grows && changes.is_empty() {
        return None;
    }
    Some(Renewal { grows, changes })
}

// The first tick of a query's rows that is told at tick `now` or later: of a watched one none before `now` is.
fn first_told(kind: QueryKind, entry: u32, now: u32) -> u32
    ensures least { entry ≤ result }
    ensures most { (e : ℕ) → entry ≤ e → now ≤ e → result ≤ e }
    ensures told { (t : ℕ) → first_tick kind entry now ≤ t → nat_le result t ≡ nat_le entry t }
    ensures watched { kind ≡ Watch → now ≤ result }
{
    match kind {
        QueryKind::Watch => entry.max(now),
        QueryKind::Keep => entry,
    }
}

// The first tick of which a write at tick `now` may change what is told of a query of a kind, by how many ticks ahead
// its formula sees.
fn judged_tick(kind: QueryKind, ahead: Option<u32>, now: u32) -> u32
    ensures value { (n : Option ℕ) → ahead ≡ counted n → result ≡ judged_tick kind n now }
    ensures most { result ≤ now }
{
    match (kind, ahead) {
        (QueryKind::Keep, Some(ahead)) => now.saturating_sub(ahead),
        (QueryKind::Keep, None) => 0,
        (QueryKind::Watch, _) => now,
    }
}

// The first of its ticks that is judged.
fn first_judged(entry: u32, judged: u32) -> u32
    ensures least { entry ≤ result }
    ensures most { (e : ℕ) → entry ≤ e → judged ≤ e → result ≤ e }
    ensures value { result ≡ max entry judged }
    ensures judged { (t : ℕ) → judged ≤ t → nat_le result t ≡ nat_le entry t }
{
    entry.max(judged)
}

// Before which tick a judged row stays as it is. Nothing is kept of the past of a watched query.
fn kept_before(kind: QueryKind, judged: u32) -> u32
    ensures kept { kind ≡ Keep → result ≡ judged }
    ensures watched { kind ≡ Watch → result ≡ 0 }
{
    match kind {
        QueryKind::Keep => judged,
        QueryKind::Watch => 0,
    }
}

// Files the rows by their targets where a target may have more than one, so that what it shares with others is to be found.
fn file_rows(
    alloc: Global,
    rows: &mut KeptRows<IntervalSet>,
    targets: Targets,
) -> Result<(), AllocError>
    ensures { rows.new ≡ rows.old }
{
    if targets.width > 1 {
        rows.file(alloc, targets.width)?;
    }
    Ok(())
}

// How the numbers of the bindings of columns are shared among the first so many, which are the targets.
fn targets_of(columns: &[Objects], count: usize) -> Targets
    requires few { count ≤ length columns.now }
    requires size { IsBindingCount (size_of (column_variables columns.now)) }
    ensures count { result.count ≡ size_of (column_variables (take count columns.now)) }
    ensures width { result.width ≡ size_of (column_variables (drop count columns.now)) }
{
    Targets {
        count: width(&columns[..count]),
        width: width(&columns[count..]),
    }
}
