//! The rows of formulas that are evaluated binding by binding.

ghost use Rattle.std.specs.Prelude.{◌≡◌, ◌*◌, ◌∷◌, [], true, length, IfOk, OnOk};
ghost use Rattle.std.specs.List.{list_all};
ghost use Rattle.formula.specs.Tree.{formula_view};
ghost use Rattle.formula.specs.Variables.{variables_of};
ghost use Rattle.formula_shape.specs.declared.limits.TheConstants.{OBJECT_LIMIT};
ghost use Rattle.relation.specs.Frames.{domain_size};
ghost use Rattle.relation.specs.Key.{key_below, key_in};
ghost use Rattle.relation.specs.Rows.{IsSameHead, table};
ghost use Rattle.evaluator.specs.Interpreting.{CanAsk, IsOver};
ghost use Rattle.evaluator.specs.Keys.{AreAscendingKeys};
ghost use Rattle.evaluator.specs.Rows.{AreRowsOf, reads_upto};
ghost use Rattle.evaluator.specs.inner.ByBinding.{holds_at, is_over, reads_here};
ghost use Rattle.evaluator.specs.inner.Filled.{IsFilled, keys_behind};
ghost use Rattle.steps.specs.Counting.{StepsAtMost};

use crate::here::Here;
use crate::keys::{keys_of, with_first};
use crate::ticks::ticks_of;
use crate::variables::binding_at;
use formula::{Binding, Env, RFormula};
use interpreting::Interpreter;
use relation::{Domains, Relation};
use std::alloc::{AllocError, Global};
use std::sync::ledger::Ledger;
use steps::Steps;
use tick_set::Window;
use until_merge::Temporal;

// A formula and its variables, what it is asked of, the values that are bound, and the window.
#[derive(Drop)]
pub(crate) struct Scene<'a, I> {
    pub(crate) source: &'a I,
    pub(crate) formula: &'a RFormula,
    pub(crate) variables: &'a [u8],
    pub(crate) values: &'a Env,
    pub(crate) window: Window,
}

// Keys with an object that stands in front of each.
#[derive(Clone, Copy)]
struct Behind<'a> {
    id: u32,
    later: &'a [Binding],
}

// The rows of a formula whose atoms are asked no more often so than over their own variables: no other relation is made,
// nor a list of all keys.
pub(crate) fn rows_by_key<'d, S: Temporal, I: Interpreter<S>, L: Ledger, M: Ledger>(
    alloc: Global,
    scene: &Scene<'_, I>,
    d: &'d Domains,
    reads: &mut Steps<L>,
    probes: &mut Steps<M>,
) -> Result<Relation<'d, S>, AllocError>
    requires vars { scene.now.variables.now ≡ variables_of (formula_view scene.now.formula.now) }
    requires alike { is_over (domain_size d.now) scene.now.variables.now (formula_view scene.now.formula.now) ≡ true }
    requires over { IsOver (length d.now) (formula_view scene.now.formula.now) }
    requires can { CanAsk (I.interpretation scene.now.source.now)
        (I.atom_fits scene.now.source.now scene.now.window.lo scene.now.window.hi)
        (I.term_fits scene.now.source.now scene.now.window.lo scene.now.window.hi) d.now
        scene.now.window.lo scene.now.window.hi
        (formula_view scene.now.formula.now) scene.now.values.now }
    ensures rows { IfOk result (λ r. AreRowsOf S.member (I.interpretation scene.now.source.now) d.now
        scene.now.window.lo scene.now.window.hi (formula_view scene.now.formula.now) scene.now.values.now r) }
    ensures reads { StepsAtMost reads.old reads.new
        (reads_upto d.now scene.now.window.lo scene.now.window.hi (formula_view scene.now.formula.now)) }
{
    // The number of domains bounds the variables.
    let _ = d.len();
    let mut made = Relation::empty(alloc, scene.variables, d, scene.window);
    let Some((first, rest)) = scene.variables.split_first() else {
        let key = Binding::new();
        put_row(alloc, scene, key, &mut made, reads, probes)?;
        return Ok(made);
    };
    let keys = keys_of(alloc, d, rest)?;
    let later = keys.items();
    'ids: for id in d.of(*first) {
        let behind = Behind { id: *id, later };
        put_rows(alloc, scene, &behind, &mut made, reads, probes)?;
    }
    Ok(made)
}

// Adds the rows of keys.
fn put_rows<'d, S: Temporal, I: Interpreter<S>, L: Ledger, M: Ledger>(
    alloc: Global,
    scene: &Scene<'_, I>,
    behind: &Behind<'_>,
    made: &mut Relation<'d, S>,
    reads: &mut Steps<L>,
    probes: &mut Steps<M>,
) -> Result<(), AllocError>
    requires vars { scene.now.variables.now ≡ variables_of (formula_view scene.now.formula.now) }
    requires over { IsOver OBJECT_LIMIT (formula_view scene.now.formula.now) }
    requires can { CanAsk (I.interpretation scene.now.source.now)
        (I.atom_fits scene.now.source.now scene.now.window.lo scene.now.window.hi)
        (I.term_fits scene.now.source.now scene.now.window.lo scene.now.window.hi) made.old.domains
        scene.now.window.lo scene.now.window.hi
        (formula_view scene.now.formula.now) scene.now.values.now }
    requires head { IsSameHead
        (table scene.now.variables.now made.old.domains scene.now.window.lo scene.now.window.hi []) made.old }
    requires inside { list_all (λ key. key_in made.old.domains scene.now.variables.now (behind.now.id ∷ key)) behind.now.later.now
        ≡ true }
    requires ascend { AreAscendingKeys behind.now.later.now }
    requires above { list_all (λ r. key_below r.key (behind.now.id ∷ [])) made.old.rows ≡ true }
    ensures rows { OnOk result (IsFilled S.member (holds_at (I.interpretation scene.now.source.now) scene.now.variables.now
        scene.now.window.lo scene.now.window.hi (formula_view scene.now.formula.now) scene.now.values.now)
        (keys_behind behind.now.id behind.now.later.now) made.old made.new) }
    ensures reads { StepsAtMost reads.old reads.new
        (length behind.now.later.now * reads_here scene.now.window.lo scene.now.window.hi (formula_view scene.now.formula.now)) }
{
    'keys: for key in behind.later {
        let key = with_first(behind.id, key);
        put_row(alloc, scene, key, made, reads, probes)?;
    }
    Ok(())
}

// Adds the row of a key.
fn put_row<'d, S: Temporal, I: Interpreter<S>, L: Ledger, M: Ledger>(
    alloc: Global,
    scene: &Scene<'_, I>,
    key: Binding,
    made: &mut Relation<'d, S>,
    reads: &mut Steps<L>,
    probes: &mut Steps<M>,
) -> Result<(), AllocError>
    requires vars { scene.now.variables.now ≡ variables_of (formula_view scene.now.formula.now) }
    requires over { IsOver OBJECT_LIMIT (formula_view scene.now.formula.now) }
    requires can { CanAsk (I.interpretation scene.now.source.now)
        (I.atom_fits scene.now.source.now scene.now.window.lo scene.now.window.hi)
        (I.term_fits scene.now.source.now scene.now.window.lo scene.now.window.hi) made.old.domains
        scene.now.window.lo scene.now.window.hi
        (formula_view scene.now.formula.now) scene.now.values.now }
    requires head { IsSameHead
        (table scene.now.variables.now made.old.domains scene.now.window.lo scene.now.window.hi []) made.old }
    requires inside { key_in made.old.domains scene.now.variables.now key ≡ true }
    requires above { list_all (λ r. key_below r.key key) made.old.rows ≡ true }
    ensures rows { OnOk result (IsFilled S.member (holds_at (I.interpretation scene.now.source.now) scene.now.variables.now
        scene.now.window.lo scene.now.window.hi (formula_view scene.now.formula.now) scene.now.values.now)
        (key ∷ []) made.old made.new) }
    ensures reads { StepsAtMost reads.old reads.new
        (reads_here scene.now.window.lo scene.now.window.hi (formula_view scene.now.formula.now)) }
{
    let binding = binding_at(scene.variables, &key);
    let here = Here {
        source: scene.source,
        binding: &binding,
        values: scene.values,
    };
    let ticks = ticks_of(alloc, &here, scene.formula, scene.window, reads, probes)?;
    made.put(key, ticks)?;
    Ok(())
}
