//! The rows of pairs.
ghost use Rattle.std.specs.Prelude.{◌≡◌, ◌*◌, ◌<◌, [], ◌∷◌, true, All, IfOk, OnOk, length};
ghost use Rattle.std.specs.List.{list_all};
ghost use Rattle.tick_set.specs.Runs.{spans_have};
ghost use Rattle.relation.specs.Frames.{domain_size};
ghost use Rattle.relation.specs.Key.{key_below, key_in};
ghost use Rattle.relation.specs.Rows.{IsSameHead, table};
ghost use Rattle.evaluator.specs.Keys.{AreAscendingKeys};
ghost use Rattle.evaluator.specs.Rows.{AreRowsWhere};
ghost use Rattle.evaluator.specs.inner.Filled.{IsFilled, keys_behind};
ghost use Rattle.pairs.specs.Pairs.{AreStored, CanAskDistance, IsMover, atom_at, holds_in, keys_of, pair_reads};
ghost use Rattle.steps.specs.Counting.{StepsAtMost};

use crate::distance::Distance;
use crate::movers::{Mover, are_apart, mover_of, movers_of};
use atoms::{StoredWorld, atom_ticks};
use formula::{Binding, Env};
use interval_set::IntervalSet;
use relation::{Domains, Relation};
use std::alloc::{AllocError, Global};
use std::sync::ledger::Ledger;
use steps::Steps;
use tick_set::Window;

/// A distance, what it is asked of, and the window.
#[derive(Clone, Copy)]
pub struct Scene<'a> {
    pub distance: Distance<'a>,
    pub world: StoredWorld<'a>,
    pub w: Window,
}

// An object, and others beside it.
#[derive(Clone, Copy)]
struct Beside<'a> {
    one: &'a Mover,
    others: &'a [Mover],
}

// Two objects.
#[derive(Clone, Copy)]
struct Couple<'a> {
    one: &'a Mover,
    other: &'a Mover,
}

/// The rows of a distance over the first two variables: for each two objects of their domains the ticks of the window at
/// which it compares so. It fails only where memory is out.
///
/// `reads` counts the looks at timelines: one at each object, and two at each pair that isn't told apart by lines.
pub fn rows_of_pairs<'d, L: Ledger, M: Ledger>(
    alloc: Global,
    scene: &Scene<'_>,
    d: &'d Domains,
    reads: &mut Steps<L>,
    probes: &mut Steps<M>,
) -> Result<Relation<'d, IntervalSet>, AllocError>
    requires can { CanAskDistance scene.now.distance scene.now.w.lo scene.now.w.hi }
    requires two { length d.now ≡ 2 }
    requires stored { AreStored scene.now.world.store.now d.now }
    ensures rows { IfOk result (λ r. AreRowsWhere spans_have d.now scene.now.w.lo scene.now.w.hi (0 ∷ 1 ∷ [])
        (atom_at scene.now.world.store.now scene.now.world.regions.now scene.now.distance.atom.now) r) }
    ensures reads { StepsAtMost reads.old reads.new (pair_reads (domain_size d.now)) }
{
    let store = scene.world.store;
    let movers = movers_of(alloc, d.of(1), store, scene.w, reads)?;
    let others = movers.as_slice();
    let mut made = Relation::empty(alloc, &[0, 1], d, scene.w);
    'ids: for id in d.of(0) {
        let one = mover_of(*id, store, scene.w, reads);
        let beside = Beside { one: &one, others };
        put_near(alloc, scene, &beside, &mut made, reads, probes)?;
    }
    Ok(made)
}

// Adds the rows of an object with each of some others.
fn put_near<'d, L: Ledger, M: Ledger>(
    alloc: Global,
    scene: &Scene<'_>,
    beside: &Beside<'_>,
    made: &mut Relation<'d, IntervalSet>,
    reads: &mut Steps<L>,
    probes: &mut Steps<M>,
) -> Result<(), AllocError>
    requires can { CanAskDistance scene.now.distance scene.now.w.lo scene.now.w.hi }
    requires one { IsMover scene.now.world.store.now scene.now.w.lo scene.now.w.hi beside.now.one.now }
    requires movers { All (IsMover scene.now.world.store.now scene.now.w.lo scene.now.w.hi) beside.now.others.now }
    requires head { IsSameHead (table (0 ∷ 1 ∷ []) made.old.domains scene.now.w.lo scene.now.w.hi []) made.old }
    requires inside { list_all (λ key. key_in made.old.domains (0 ∷ 1 ∷ []) (beside.now.one.now.id ∷ key)) (keys_of beside.now.others.now) ≡ true }
    requires ascend { AreAscendingKeys (keys_of beside.now.others.now) }
    requires above { list_all (λ r. key_below r.key (beside.now.one.now.id ∷ [])) made.old.rows ≡ true }
    ensures rows { OnOk result (IsFilled spans_have (holds_in scene.now) (keys_behind beside.now.one.now.id (keys_of beside.now.others.now)) made.old made.new) }
    ensures reads { StepsAtMost reads.old reads.new (length beside.now.others.now * 2) }
{
    'others: for other in beside.others {
        let couple = Couple {
            one: beside.one,
            other,
        };
        put_unless_apart(alloc, scene, &couple, made, reads, probes)?;
    }
    Ok(())
}

// Adds the row of two objects, unless they are told to keep apart.
#[inline]
fn put_unless_apart<'d, L: Ledger, M: Ledger>(
    alloc: Global,
    scene: &Scene<'_>,
    couple: &Couple<'_>,
    made: &mut Relation<'d, IntervalSet>,
    reads: &mut Steps<L>,
    probes: &mut Steps<M>,
) -> Result<(), AllocError>
    requires can { CanAskDistance scene.now.distance scene.now.w.lo scene.now.w.hi }
    requires one { IsMover scene.now.world.store.now scene.now.w.lo scene.now.w.hi couple.now.one.now }
    requires other { IsMover scene.now.world.store.now scene.now.w.lo scene.now.w.hi couple.now.other.now }
    requires head { IsSameHead (table (0 ∷ 1 ∷ []) made.old.domains scene.now.w.lo scene.now.w.hi []) made.old }
    requires inside { key_in made.old.domains (0 ∷ 1 ∷ []) (couple.now.one.now.id ∷ couple.now.other.now.id ∷ []) ≡ true }
    requires above { list_all (λ r. key_below r.key (couple.now.one.now.id ∷ couple.now.other.now.id ∷ [])) made.old.rows ≡ true }
    ensures rows { OnOk result (IsFilled spans_have (holds_in scene.now) ((couple.now.one.now.id ∷ couple.now.other.now.id ∷ []) ∷ []) made.old made.new) }
    ensures reads { StepsAtMost reads.old reads.new 2 }
{
    if are_apart(couple.one, couple.other, scene.distance.most) {
        return Ok(());
    }
    put_pair(alloc, scene, couple, made, reads, probes)
}

// Adds the row of two objects.
fn put_pair<'d, L: Ledger, M: Ledger>(
    alloc: Global,
    scene: &Scene<'_>,
    couple: &Couple<'_>,
    made: &mut Relation<'d, IntervalSet>,
    reads: &mut Steps<L>,
    probes: &mut Steps<M>,
) -> Result<(), AllocError>
    requires can { CanAskDistance scene.now.distance scene.now.w.lo scene.now.w.hi }
    requires one { couple.now.one.now.id < length scene.now.world.store.now.objects }
    requires other { couple.now.other.now.id < length scene.now.world.store.now.objects }
    requires head { IsSameHead (table (0 ∷ 1 ∷ []) made.old.domains scene.now.w.lo scene.now.w.hi []) made.old }
    requires inside { key_in made.old.domains (0 ∷ 1 ∷ []) (couple.now.one.now.id ∷ couple.now.other.now.id ∷ []) ≡ true }
    requires above { list_all (λ r. key_below r.key (couple.now.one.now.id ∷ couple.now.other.now.id ∷ [])) made.old.rows ≡ true }
    ensures rows { OnOk result (IsFilled spans_have (holds_in scene.now) ((couple.now.one.now.id ∷ couple.now.other.now.id ∷ []) ∷ []) made.old made.new) }
    ensures reads { StepsAtMost reads.old reads.new 2 }
{
    let key = key_of(couple.one.id, couple.other.id);
    let world = &scene.world;
    let env = Env::new();
    let ticks = atom_ticks(
        alloc,
        scene.distance.atom,
        &key,
        &env,
        world.store,
        world.regions,
        scene.w,
        reads,
        probes,
    )?;
    made.put(key, ticks)?;
    Ok(())
}

// The key of two objects.
fn key_of(one: u32, other: u32) -> Binding
    ensures { result ≡ one ∷ other ∷ [] }
{
    let mut key = Binding::new();
    key.push(one);
    key.push(other);
    key
}
