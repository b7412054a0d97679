//! The rows of formulas.

ghost use Rattle.std.specs.Prelude.{◌≡◌, ◌<◌, ◌*◌, ◌&&◌, ℕ, true, All, length, IfOk};
ghost use Rattle.tick_set.specs.Ticks.{within};
ghost use Rattle.formula.specs.Tree.{formula_view};
ghost use Rattle.formula.specs.VarSet.{set_has};
ghost use Rattle.formula.specs.Variables.{has_variable, variables_of};
ghost use Rattle.formula_shape.specs.declared.limits.TheConstants.{OBJECT_LIMIT};
ghost use Rattle.meaning.specs.Reads.{term_variables};
ghost use Rattle.meaning.specs.Satisfaction.{sat};
ghost use Rattle.relation.specs.Frames.{agrees, frame, frame_of};
ghost use Rattle.relation.specs.Key.{key_in};
ghost use Rattle.evaluator.specs.Assigned.{CanAskEach, assignment_view, run_holds};
ghost use Rattle.evaluator.specs.Interpreting.{CanAsk, IsOver};
ghost use Rattle.evaluator.specs.Rows.{AreRowsOf, AreRowsWhere, reads_at_key, reads_upto};
ghost use Rattle.evaluator.specs.inner.Column.{AreRowsBeside};
ghost use Rattle.evaluator.specs.inner.Nodes.{needs_right, pair_view};
ghost use Rattle.evaluator.specs.inner.Seen.{IsInWindow};
ghost use Rattle.steps.specs.Counting.{StepsAtMost};

use crate::assignment::{Assignment, row_of_key};
use crate::by_key::{Scene, rows_by_key};
use crate::column::{domains_for, leave_out};
use crate::gathering::united;
use crate::here::Here;
use crate::keys::keys_of;
use crate::narrowing::narrowed;
use crate::node::{Node, Pair};
use crate::operators::{changed_rows, paired_rows};
use crate::over::is_over;
use crate::section::{Section, rows_at};
use crate::stretches::stretches_of;
use crate::variables::binding_of;
use formula::{Binding, Env, RFormula, VarSet, free, free_in_term};
use interpreting::{Interpreter, ValueRun};
use meaning::fewer_objects_take_fewer_looks;
use relation::{Domains, Relation};
use std::alloc::{AllocError, Global};
use std::collections::VecDeque;
use std::sync::ledger::Ledger;
use steps::Steps;
use tick_set::Window;
use until_merge::Temporal;

/// What is asked of atoms and terms, the values that are bound, and the window.
#[derive(Drop)]
pub struct Asking<'a, I> {
    pub source: &'a I,
    pub values: &'a Env,
    pub window: Window,
}

// An assignment, what is asked of its atoms and terms, the values that are bound, and the window.
#[derive(Drop)]
struct Assigning<'a, I> {
    source: &'a I,
    assignment: &'a Assignment<'a>,
    values: &'a Env,
    window: Window,
}

// Variables with an object for each.
#[derive(Clone, Copy)]
struct Keyed<'a> {
    variables: &'a [u8],
    key: &'a Binding,
}

// A formula at the ticks of a section, what is asked of its atoms and terms, and the values that are bound.
#[derive(Drop)]
struct Sectioned<'a, I> {
    source: &'a I,
    formula: &'a RFormula,
    section: Section,
    values: &'a Env,
}

/// The rows of a formula, over its variables: for each binding of objects of their domains the ticks of the window at
/// which it holds, where nothing after the window's last tick counts and these values are bound. It fails only where
/// memory is out.
#[cycle(rows)]
pub fn rows_of<'d, S: Temporal, I: Interpreter<S>, L: Ledger, M: Ledger>(
    alloc: Global,
    asking: &Asking<'_, I>,
    f: &RFormula,
    d: &'d Domains,
    reads: &mut Steps<L>,
    probes: &mut Steps<M>,
) -> Result<Relation<'d, S>, AllocError>
    requires over { IsOver (length d.now) (formula_view f.now) }
    requires can { CanAsk (I.interpretation asking.now.source.now)
        (I.atom_fits asking.now.source.now asking.now.window.lo asking.now.window.hi)
        (I.term_fits asking.now.source.now asking.now.window.lo asking.now.window.hi) d.now
        asking.now.window.lo asking.now.window.hi (formula_view f.now) asking.now.values.now }
    ensures rows { IfOk result (λ r. AreRowsOf S.member (I.interpretation asking.now.source.now) d.now
        asking.now.window.lo asking.now.window.hi (formula_view f.now) asking.now.values.now r) }
    ensures reads { StepsAtMost reads.old reads.new
        (reads_upto d.now asking.now.window.lo asking.now.window.hi (formula_view f.now)) }
{
    // The number of domains bounds the variables.
    let _ = d.len();
    let set = free(f);
    let vars = set.list();
    if is_over(f, vars, d) {
        let scene = Scene {
            source: asking.source,
            formula: f,
            variables: vars,
            values: asking.values,
            window: asking.window,
        };
        let made = rows_by_key(alloc, &scene, d, reads, probes)?;
        return Ok(made);
    }
    match Node::of(f) {
        Node::Truth(_) => unreachable!(),
        Node::Atom(_) => unreachable!(),
        Node::One(change, part) => {
            let rows = rows_of(alloc, asking, part, d, reads, probes)?;
            let made = changed_rows(alloc, change, &rows)?;
            Ok(made)
        }
        Node::Two(pairing, left, right) => {
            if pairing.needs_right() {
                let pair = Pair::ordered(pairing, left, right);
                let led = rows_of_pair(alloc, asking, &pair, d, reads, probes)?;
                return Ok(led);
            }
            let left = rows_of(alloc, asking, left, d, reads, probes)?;
            let right = rows_of(alloc, asking, right, d, reads, probes)?;
            let made = paired_rows(alloc, pairing, &left, &right)?;
            Ok(made)
        }
        Node::Assign(a) => {
            let scene = Assigning {
                source: asking.source,
                assignment: &a,
                values: asking.values,
                window: asking.window,
            };
            let made = rows_of_assignment(alloc, &scene, set, d, reads, probes)?;
            Ok(made)
        }
    }
}

// The rows of AND or UNTIL, which hold nowhere where their right part does: what the left part does elsewhere isn't asked.
#[cycle(rows)]
fn rows_of_pair<'d, S: Temporal, I: Interpreter<S>, L: Ledger, M: Ledger>(
    alloc: Global,
    asking: &Asking<'_, I>,
    pair: &Pair<'_>,
    d: &'d Domains,
    reads: &mut Steps<L>,
    probes: &mut Steps<M>,
) -> Result<Relation<'d, S>, AllocError>
    requires needs { needs_right pair.now.pairing ≡ true }
    requires over { IsOver (length d.now) (pair_view pair.now) }
    requires can { CanAsk (I.interpretation asking.now.source.now)
        (I.atom_fits asking.now.source.now asking.now.window.lo asking.now.window.hi)
        (I.term_fits asking.now.source.now asking.now.window.lo asking.now.window.hi) d.now
        asking.now.window.lo asking.now.window.hi (pair_view pair.now) asking.now.values.now }
    ensures rows { IfOk result (λ r. AreRowsOf S.member (I.interpretation asking.now.source.now) d.now
        asking.now.window.lo asking.now.window.hi (pair_view pair.now) asking.now.values.now r) }
    ensures reads { StepsAtMost reads.old reads.new
        (reads_upto d.now asking.now.window.lo asking.now.window.hi (pair_view pair.now)) }
{
    let right = rows_of(alloc, asking, pair.right, d, reads, probes)?;
    right.rows_stand_in_order();
    let left = rows_beside(alloc, asking, pair.left, &right, reads, probes)?;
    let made = paired_rows(alloc, pair.pairing, &left, &right)?;
    Ok(made)
}

// The rows of a formula where another relation has a row, over its domains: objects that it leaves out aren't asked.
#[cycle(rows)]
fn rows_beside<'d, S: Temporal, I: Interpreter<S>, L: Ledger, M: Ledger>(
    alloc: Global,
    asking: &Asking<'_, I>,
    f: &RFormula,
    other: &Relation<'d, S>,
    reads: &mut Steps<L>,
    probes: &mut Steps<M>,
) -> Result<Relation<'d, S>, AllocError>
    requires over { IsOver (length other.now.domains) (formula_view f.now) }
    requires can { CanAsk (I.interpretation asking.now.source.now)
        (I.atom_fits asking.now.source.now asking.now.window.lo asking.now.window.hi)
        (I.term_fits asking.now.source.now asking.now.window.lo asking.now.window.hi) other.now.domains
        asking.now.window.lo asking.now.window.hi (formula_view f.now) asking.now.values.now }
    ensures rows { IfOk result (AreRowsBeside S.member (I.interpretation asking.now.source.now) other.now.domains
        asking.now.window.lo asking.now.window.hi (formula_view f.now) asking.now.values.now other.now) }
    ensures reads { StepsAtMost reads.old reads.new
        (reads_upto other.now.domains asking.now.window.lo asking.now.window.hi (formula_view f.now)) }
{
    fewer_objects_take_fewer_looks();
    let d = other.domains();
    if leave_out(other, d) {
        let few = domains_for(alloc, other, d)?;
        let near = rows_of(alloc, asking, f, &few, reads, probes)?;
        let wide = near.widen(alloc, d)?;
        return Ok(wide);
    }
    let made = rows_of(alloc, asking, f, d, reads, probes)?;
    Ok(made)
}

// The rows of an assignment with these variables: the term has runs of one value at each key of its variables.
#[cycle(rows)]
fn rows_of_assignment<'d, S: Temporal, I: Interpreter<S>, L: Ledger, M: Ledger>(
    alloc: Global,
    scene: &Assigning<'_, I>,
    set: VarSet,
    d: &'d Domains,
    reads: &mut Steps<L>,
    probes: &mut Steps<M>,
) -> Result<Relation<'d, S>, AllocError>
    requires set { (v : ℕ) → v < OBJECT_LIMIT → set_has set v ≡ has_variable v (assignment_view scene.now.assignment.now) }
    requires over { IsOver (length d.now) (assignment_view scene.now.assignment.now) }
    requires can { CanAsk (I.interpretation scene.now.source.now)
        (I.atom_fits scene.now.source.now scene.now.window.lo scene.now.window.hi)
        (I.term_fits scene.now.source.now scene.now.window.lo scene.now.window.hi) d.now
        scene.now.window.lo scene.now.window.hi
        (assignment_view scene.now.assignment.now) scene.now.values.now }
    ensures rows { IfOk result (λ r. AreRowsOf S.member (I.interpretation scene.now.source.now) d.now
        scene.now.window.lo scene.now.window.hi (assignment_view scene.now.assignment.now) scene.now.values.now r) }
    ensures reads { StepsAtMost reads.old reads.new
        (reads_upto d.now scene.now.window.lo scene.now.window.hi (assignment_view scene.now.assignment.now)) }
{
    // The number of domains bounds the variables.
    let _ = d.len();
    let term_vars = free_in_term(scene.assignment.term).list();
    let keys = keys_of(alloc, d, term_vars)?;
    let mut parts = VecDeque::new(alloc);
    'keys: for key in keys.items() {
        let keyed = Keyed {
            variables: term_vars,
            key,
        };
        let rows = rows_at_key(alloc, scene, &keyed, d, reads, probes)?;
        parts.push_back(rows)?;
    }
    let made = united(alloc, parts, set, d, scene.window)?;
    Ok(made)
}

// The rows of an assignment at one key of its term's variables.
#[cycle(rows)]
fn rows_at_key<'d, S: Temporal, I: Interpreter<S>, L: Ledger, M: Ledger>(
    alloc: Global,
    scene: &Assigning<'_, I>,
    keyed: &Keyed<'_>,
    d: &'d Domains,
    reads: &mut Steps<L>,
    probes: &mut Steps<M>,
) -> Result<Relation<'d, S>, AllocError>
    requires vars { keyed.now.variables.now ≡ term_variables scene.now.assignment.now.term.now }
    requires key { key_in d.now keyed.now.variables.now keyed.now.key.now ≡ true }
    requires over { IsOver (length d.now) (assignment_view scene.now.assignment.now) }
    requires can { CanAsk (I.interpretation scene.now.source.now)
        (I.atom_fits scene.now.source.now scene.now.window.lo scene.now.window.hi)
        (I.term_fits scene.now.source.now scene.now.window.lo scene.now.window.hi) d.now
        scene.now.window.lo scene.now.window.hi
        (assignment_view scene.now.assignment.now) scene.now.values.now }
    ensures rows { IfOk result (λ r. AreRowsWhere S.member d.now scene.now.window.lo scene.now.window.hi
        (variables_of (assignment_view scene.now.assignment.now)) (λ b t. agrees keyed.now.variables.now keyed.now.key.now b
        && sat (I.interpretation scene.now.source.now b) (assignment_view scene.now.assignment.now)
        scene.now.values.now scene.now.window.hi t) r) }
    ensures reads { StepsAtMost reads.old reads.new
        (reads_at_key d.now scene.now.window.lo scene.now.window.hi keyed.now.variables.now
        (formula_view scene.now.assignment.now.body.now)) }
{
    // The number of domains bounds the variables.
    let _ = d.len();
    let binding = binding_of(keyed.variables, keyed.key);
    let here = Here {
        source: scene.source,
        binding: &binding,
        values: scene.values,
    };
    let runs = stretches_of(alloc, &here, scene.assignment, scene.window, reads)?;
    let narrow = narrowed(alloc, d, keyed.variables, keyed.key)?;
    let rows = rows_of_runs(alloc, scene, &runs, &narrow, reads, probes)?;
    let rows = rows.widen(alloc, d)?;
    let own = row_of_key(alloc, keyed.variables, keyed.key, d, scene.window)?;
    let made = own.join(alloc, &rows)?;
    Ok(made)
}

// The rows of an assignment's formula, by the value of each run at its ticks.
#[cycle(rows)]
fn rows_of_runs<'d, S: Temporal, I: Interpreter<S>, L: Ledger, M: Ledger>(
    alloc: Global,
    scene: &Assigning<'_, I>,
    runs: &[ValueRun],
    d: &'d Domains,
    reads: &mut Steps<L>,
    probes: &mut Steps<M>,
) -> Result<Relation<'d, S>, AllocError>
    requires over { IsOver (length d.now) (formula_view scene.now.assignment.now.body.now) }
    requires inside { All (IsInWindow scene.now.window.lo scene.now.window.hi) runs.now }
    requires can { CanAskEach (I.interpretation scene.now.source.now)
        (I.atom_fits scene.now.source.now scene.now.window.lo scene.now.window.hi)
        (I.term_fits scene.now.source.now scene.now.window.lo scene.now.window.hi) d.now
        scene.now.window.lo scene.now.window.hi
        scene.now.assignment.now.depth (formula_view scene.now.assignment.now.body.now) scene.now.values.now runs.now }
    ensures rows { IfOk result (λ r. AreRowsWhere S.member d.now scene.now.window.lo scene.now.window.hi
        (variables_of (formula_view scene.now.assignment.now.body.now)) (run_holds (I.interpretation scene.now.source.now)
        scene.now.assignment.now.depth (formula_view scene.now.assignment.now.body.now) scene.now.values.now
        scene.now.window.hi runs.now) r) }
    ensures reads { StepsAtMost reads.old reads.new
        (length runs.now
        * reads_upto d.now scene.now.window.lo scene.now.window.hi (formula_view scene.now.assignment.now.body.now)) }
{
    let mut parts = VecDeque::new(alloc);
    'runs: for run in runs {
        let bound = scene.values.with(scene.assignment.depth, run.value);
        let section = Section {
            span: run.span,
            window: scene.window,
        };
        let sectioned = Sectioned {
            source: scene.source,
            formula: scene.assignment.body,
            section,
            values: &bound,
        };
        let part = rows_of_section(alloc, &sectioned, d, reads, probes)?;
        parts.push_back(part)?;
    }
    let made = united(alloc, parts, free(scene.assignment.body), d, scene.window)?;
    Ok(made)
}

// The rows of a formula at the ticks of a section. No tick that it doesn't see from them is asked.
#[cycle(rows)]
fn rows_of_section<'d, S: Temporal, I: Interpreter<S>, L: Ledger, M: Ledger>(
    alloc: Global,
    part: &Sectioned<'_, I>,
    d: &'d Domains,
    reads: &mut Steps<L>,
    probes: &mut Steps<M>,
) -> Result<Relation<'d, S>, AllocError>
    requires over { IsOver (length d.now) (formula_view part.now.formula.now) }
    requires can { CanAsk (I.interpretation part.now.source.now)
        (I.atom_fits part.now.source.now part.now.section.window.lo part.now.section.window.hi)
        (I.term_fits part.now.source.now part.now.section.window.lo part.now.section.window.hi) d.now
        part.now.section.window.lo part.now.section.window.hi (formula_view part.now.formula.now) part.now.values.now }
    ensures rows { IfOk result (λ r. AreRowsWhere S.member d.now part.now.section.window.lo part.now.section.window.hi
        (variables_of (formula_view part.now.formula.now)) (λ b t. within part.now.section.span.lo part.now.section.span.hi t
        && sat (I.interpretation part.now.source.now b) (formula_view part.now.formula.now) part.now.values.now
        part.now.section.window.hi t) r) }
    ensures reads { StepsAtMost reads.old reads.new
        (reads_upto d.now part.now.section.window.lo part.now.section.window.hi (formula_view part.now.formula.now)) }
{
    let w = part.section.seen_by(part.formula);
    let asking = Asking {
        source: part.source,
        values: part.values,
        window: w,
    };
    let rows = rows_of(alloc, &asking, part.formula, d, reads, probes)?;
    let made = rows_at(alloc, &rows, part.section, d)?;
    Ok(made)
}
