//! The rows of queries.

ghost use Rattle.std.specs.Prelude.{◌≡◌, ◌<◌, ◌&&◌, not, ℕ, [], ◌∷◌, true, length, IfOk};
ghost use Rattle.tick_set.specs.Ticks.{between, within};
ghost use Rattle.formula.specs.Tree.{formula_view, resolved_view};
ghost use Rattle.formula.specs.Value.{no_values};
ghost use Rattle.formula_shape.specs.declared.limits.TheConstants.{OBJECT_LIMIT};
ghost use Rattle.relation.specs.Frames.{EachObjectOf, HasFrame, IsIn, SameFrame, domain_size, frame, vars_of_both};
ghost use Rattle.relation.specs.Key.{has_id, ids_of_variable};
ghost use Rattle.relation.specs.Rows.{table_has};
ghost use Rattle.evaluator.specs.Interpreting.{CanAsk, IsOver};
ghost use Rattle.evaluator.specs.Rows.{AreRowsWhere, is_full, query_reads_upto};
ghost use Rattle.evaluator.specs.inner.Away.{AreAwayFor};
ghost use Rattle.exact.specs.Lists.{SameLength};
ghost use Rattle.steps.specs.Counting.{StepsAtMost};

use crate::rows::{Asking, rows_of};
use crate::variables::has_variable;
use formula::{Binding, Env, RQuery};
use interpreting::Interpreter;
use relation::{Domains, Relation};
use std::alloc::{AllocError, Global};
use std::sync::ledger::Ledger;
use steps::Steps;
use tick_set::Window;
use until_merge::Temporal;

// A variable, what tells when its objects are there, and the window.
#[derive(Drop)]
struct Watched<'a, I> {
    source: &'a I,
    var: u8,
    window: Window,
}

/// The rows of a query, over all its variables: for each binding of objects of their domains the ticks of the window
/// at which all its objects are there and the formula holds. It fails only where memory is out.
pub fn full_rows<'d, S: Temporal, I: Interpreter<S>, L: Ledger, M: Ledger>(
    alloc: Global,
    source: &I,
    q: &RQuery,
    d: &'d Domains,
    w: Window,
    reads: &mut Steps<L>,
    probes: &mut Steps<M>,
) -> Result<Relation<'d, S>, AllocError>
    requires domains { SameLength d.now q.now.classes }
    requires over { IsOver (length d.now) (formula_view q.now.formula) }
    requires can { CanAsk (I.interpretation source.now) (I.atom_fits source.now w.lo w.hi)
        (I.term_fits source.now w.lo w.hi) d.now w.lo w.hi (formula_view q.now.formula) no_values }
    requires objects { (v id : ℕ) → has_id (ids_of_variable d.now v) id ≡ true → I.object_fits source.now w.lo w.hi id }
    ensures rows { IfOk result (λ r. AreRowsWhere S.member d.now w.lo w.hi (between 0 (length q.now.classes))
        (is_full (I.interpretation source.now) (I.present source.now) (resolved_view q.now) w.hi) r) }
    ensures reads { StepsAtMost reads.old reads.new (query_reads_upto d.now w.lo w.hi (resolved_view q.now)) }
{
    let env = Env::new();
    let asking = Asking {
        source,
        values: &env,
        window: w,
    };
    let mut made = rows_of(alloc, &asking, &q.formula, d, reads, probes)?;
    let count = d.len() as u8;
    'vars: for var in 0..count {
        let watched = Watched {
            source,
            var,
            window: w,
        };
        let away = absence_for_rows(alloc, &watched, &made, d, reads)?;
        made = while_there(alloc, made, var, &away)?;
    }
    Ok(made)
}

// The ticks at which the objects of a variable aren't there, as far as rows have such ticks. Where these rows have this
// variable alone, or are few beside its objects, no other object is asked for.
fn absence_for_rows<'d, S: Temporal, I: Interpreter<S>, L: Ledger>(
    alloc: Global,
    watched: &Watched<'_, I>,
    rows: &Relation<'d, S>,
    d: &'d Domains,
    reads: &mut Steps<L>,
) -> Result<Relation<'d, S>, AllocError>
    requires frame { HasFrame rows.now d.now watched.now.window.lo watched.now.window.hi }
    requires known { watched.now.var < length d.now }
    requires objects { EachObjectOf d.now watched.now.var
        (I.object_fits watched.now.source.now watched.now.window.lo watched.now.window.hi) }
    ensures ticks { IfOk result (AreAwayFor S.member (I.present watched.now.source.now)
        watched.now.window.lo watched.now.window.hi watched.now.var rows.now) }
    ensures vars { IfOk result (λ r. r.vars ≡ watched.now.var ∷ []) }
    ensures frame { IfOk result (λ r. HasFrame r d.now watched.now.window.lo watched.now.window.hi) }
    ensures reads { StepsAtMost reads.old reads.new (domain_size d.now watched.now.var) }
{
    let vars = rows.vars();
    if vars == &[watched.var][..] {
        let away = absence_of_rows(alloc, watched, rows, d, reads)?;
        return Ok(away);
    }
    // Uniting the sets of the rows of an object takes longer than to ask whether it is there.
    if has_variable(vars, watched.var) && rows.len() < d.of(watched.var).len() / 8 {
        let own = rows.project(alloc, &[watched.var])?;
        let away = absence_of_rows(alloc, watched, &own, d, reads)?;
        return Ok(away);
    }
    let away = rows_of_absence(alloc, watched, d, reads)?;
    Ok(away)
}

// The same where the rows have this variable alone.
fn absence_of_rows<'d, S: Temporal, I: Interpreter<S>, L: Ledger>(
    alloc: Global,
    watched: &Watched<'_, I>,
    rows: &Relation<'d, S>,
    d: &'d Domains,
    reads: &mut Steps<L>,
) -> Result<Relation<'d, S>, AllocError>
    requires frame { HasFrame rows.now d.now watched.now.window.lo watched.now.window.hi }
    requires one { rows.now.vars ≡ watched.now.var ∷ [] }
    requires known { watched.now.var < length d.now }
    requires objects { EachObjectOf d.now watched.now.var
        (I.object_fits watched.now.source.now watched.now.window.lo watched.now.window.hi) }
    ensures ticks { IfOk result (AreAwayFor S.member (I.present watched.now.source.now)
        watched.now.window.lo watched.now.window.hi watched.now.var rows.now) }
    ensures vars { IfOk result (λ r. r.vars ≡ watched.now.var ∷ []) }
    ensures frame { IfOk result (λ r. HasFrame r d.now watched.now.window.lo watched.now.window.hi) }
    ensures reads { StepsAtMost reads.old reads.new (domain_size d.now watched.now.var) }
{
    rows.rows_stand_in_order();
    // Each domain ascends.
    let _ = d.of(watched.var);
    let mut away = Relation::empty(alloc, &[watched.var], d, watched.window);
    'places: for place in 0..rows.len() {
        let key = rows.key_at(place).unwrap();
        let ticks = watched
            .source
            .absence(alloc, key.get(0).unwrap_or(0), watched.window, reads)?;
        away.put(key, ticks)?;
    }
    Ok(away)
}

// The ticks at which each object of a variable isn't there: no row of those that are there throughout, as most are.
fn rows_of_absence<'d, S: Temporal, I: Interpreter<S>, L: Ledger>(
    alloc: Global,
    watched: &Watched<'_, I>,
    d: &'d Domains,
    reads: &mut Steps<L>,
) -> Result<Relation<'d, S>, AllocError>
    requires known { watched.now.var < length d.now }
    requires objects { EachObjectOf d.now watched.now.var
        (I.object_fits watched.now.source.now watched.now.window.lo watched.now.window.hi) }
    ensures rows { IfOk result (λ r. AreRowsWhere S.member d.now watched.now.window.lo watched.now.window.hi
        (watched.now.var ∷ []) (λ b t. not (I.present watched.now.source.now (b watched.now.var) t)) r) }
    ensures reads { StepsAtMost reads.old reads.new (domain_size d.now watched.now.var) }
{
    let mut away = Relation::empty(alloc, &[watched.var], d, watched.window);
    'ids: for id in d.of(watched.var) {
        let ticks = watched.source.absence(alloc, *id, watched.window, reads)?;
        away.put(key_of(*id), ticks)?;
    }
    Ok(away)
}

// The key of one object.
pub(crate) fn key_of(id: u32) -> Binding
    ensures { result ≡ id ∷ [] }
{
    let mut key = Binding::new();
    key.push(id);
    key
}

// The rows without the ticks at which the object of a variable is away. Where none is ever away, rows that have the
// variable stay as they are, and none is copied.
fn while_there<'d, S: Temporal>(
    alloc: Global,
    rows: Relation<'d, S>,
    var: u8,
    away: &Relation<'d, S>,
) -> Result<Relation<'d, S>, AllocError>
    requires frame { SameFrame away.now rows }
    requires ascend { vars_of_both rows.vars rows.vars ≡ rows.vars }
    requires one { away.now.vars ≡ var ∷ [] }
    requires few { var < OBJECT_LIMIT }
    requires lies { (b : ℕ → ℕ) → IsIn rows.domains b → (t : ℕ) → table_has S.member rows b t ≡ true
        → within rows.lo rows.hi t ≡ true }
    ensures ticks { IfOk result (λ r. (b : ℕ → ℕ) → IsIn rows.entry.domains b → (t : ℕ) → table_has S.member r b t
        ≡ (table_has S.member rows.entry b t && not (table_has S.member away.now b t))) }
    ensures vars { IfOk result (λ r. r.vars ≡ vars_of_both rows.entry.vars (var ∷ [])) }
    ensures frame { IfOk result (λ r. SameFrame r rows.entry) }
{
    if away.is_empty() && has_variable(rows.vars(), var) {
        return Ok(rows);
    }
    let there = away.complement(alloc)?;
    let made = rows.join(alloc, &there)?;
    Ok(made)
}
