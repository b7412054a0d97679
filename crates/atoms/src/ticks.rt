//! The ticks of a window at which an atom holds.
ghost use Rattle.std.specs.Prelude.{◌≡◌, ◌+◌, ◌-◌, ◌*◌, ◌≤◌, ◌&&◌, ℕ, true, IfOk, IsTrue, length, slice_index};
ghost use Rattle.courses.specs.Parts.{AreFewTimelines, epochs_of_each, pieces_of_all};
ghost use Rattle.formula.specs.Variables.{atom_has};
ghost use Rattle.meaning.specs.Atom.{atom_holds};
ghost use Rattle.meaning.specs.Reads.{atom_variables};
ghost use Rattle.meaning.specs.Trace.{trace_of};
ghost use Rattle.object_store.specs.Contents.{history_of};
ghost use Rattle.tick_set.specs.Runs.{IsRuns, spans_have};
ghost use Rattle.tick_set.specs.Ticks.{within};
ghost use Rattle.tick_set.specs.Windows.{IsQueryWindow};
ghost use Rattle.atoms.specs.Parts.{HasObject, trace_by};
ghost use Rattle.atoms.specs.Probes.{atom_timelines, probe_limit};
ghost use Rattle.atoms.specs.Sizes.{is_sized};
ghost use Rattle.exact.specs.Lists.{SameLength};

use crate::found::{append, runs_of};
use crate::judged::judged;
use crate::naming::named_by;
use crate::parts::{Traces, part_from, timelines_of};
use crate::straight::straight_ticks;
use crate::variables::variables_of_atom;
use courses::begun_by;
use formula::{Binding, Env, RAtom};
use interval_set::IntervalSet;
use motion::Timeline;
use object_store::Store;
use polygon::Regions;
use std::alloc::{AllocError, Global};
use std::sync::ledger::Ledger;
use steps::Steps;
use tick_set::{Runs, Span, Window};

/// The ticks of the window at which the atom holds of the objects of the binding. Each variable of the atom
/// has an object there. It fails only where memory is out.
///
/// It takes one step of `reads` for each different variable, and of `probes` at most so many for each piece
/// of the timelines of these variables, whatever it answers.
pub fn atom_ticks<L: Ledger, M: Ledger>(
    alloc: Global,
    a: &RAtom,
    b: &Binding,
    env: &Env,
    store: &Store,
    regions: &Regions,
    w: Window,
    reads: &mut Steps<L>,
    probes: &mut Steps<M>,
) -> Result<IntervalSet, AllocError>
    requires sized { IsTrue (is_sized a.now) }
    requires bound { (v : ℕ) → atom_has v a.now ≡ true → HasObject b.now store.now v }
    requires length { IsQueryWindow w }
    ensures ticks { IfOk result (λ s. (t : ℕ) → spans_have s t ≡ (within w.lo w.hi t
        && atom_holds regions.now (trace_of (history_of store.now) (slice_index b.now)) a.now env.now t)) }
    ensures reads { reads.new ≡ reads.old + length (atom_variables a.now) }
    ensures probes { probes.new ≤ probes.old
        + probe_limit a.now (w.hi - w.lo) * pieces_of_all (atom_timelines store.now b.now a.now) w.lo w.hi }
{
    // It stands for each timeline that isn't asked for.
    let none = Timeline::new(alloc);
    let variables = variables_of_atom(a);
    let timelines = timelines_of(variables, b, store, &none, reads);
    let traces = Traces {
        variables,
        timelines: &timelines[..variables.len()],
        w,
    };
    let runs = atom_runs(alloc, a, env, regions, &traces, probes)?;
    Ok(IntervalSet::from_runs(runs))
}

// The runs of these ticks, where the variables of the atom have these timelines.
fn atom_runs<M: Ledger>(
    alloc: Global,
    a: &RAtom,
    env: &Env,
    regions: &Regions,
    traces: &Traces,
    probes: &mut Steps<M>,
) -> Result<Vec<Span>, AllocError>
    requires sized { IsTrue (is_sized a.now) }
    requires variables { traces.now.variables.now ≡ atom_variables a.now }
    requires few { AreFewTimelines traces.now.timelines.now }
    requires same { SameLength traces.now.variables.now traces.now.timelines.now }
    requires length { IsQueryWindow traces.now.w }
    ensures runs { IfOk result (λ runs. IsRuns (λ t. within traces.now.w.lo traces.now.w.hi t
        && atom_holds regions.now (trace_by traces.now.variables.now (epochs_of_each traces.now.timelines.now)) a.now env.now t) runs.items) }
    ensures cost { probes.new ≤ probes.old
        + probe_limit a.now (traces.now.w.hi - traces.now.w.lo) * pieces_of_all (epochs_of_each traces.now.timelines.now) traces.now.w.lo traces.now.w.hi }
{
    match straight_ticks(a, env, regions, traces, probes) {
        Some(found) => runs_of(alloc, &found),
        None => runs_by_parts(alloc, a, env, regions, traces, probes),
    }
}

// The same, by the common parts of these timelines.
fn runs_by_parts<M: Ledger>(
    alloc: Global,
    a: &RAtom,
    env: &Env,
    regions: &Regions,
    traces: &Traces,
    probes: &mut Steps<M>,
) -> Result<Vec<Span>, AllocError>
    requires sized { IsTrue (is_sized a.now) }
    requires variables { traces.now.variables.now ≡ atom_variables a.now }
    requires few { AreFewTimelines traces.now.timelines.now }
    requires same { SameLength traces.now.variables.now traces.now.timelines.now }
    requires length { IsQueryWindow traces.now.w }
    ensures runs { IfOk result (λ runs. IsRuns (λ t. within traces.now.w.lo traces.now.w.hi t
        && atom_holds regions.now (trace_by traces.now.variables.now (epochs_of_each traces.now.timelines.now)) a.now env.now t) runs.items) }
    ensures cost { probes.new ≤ probes.old
        + probe_limit a.now (traces.now.w.hi - traces.now.w.lo) * pieces_of_all (epochs_of_each traces.now.timelines.now) traces.now.w.lo traces.now.w.hi }
{
    let asked = named_by(a);
    let mut begun = begun_by(traces.timelines, traces.w.lo);
    let mut runs = Runs::new(alloc);
    let mut at = traces.w.lo;
    'joining: while at <= traces.w.hi {
        let part = part_from(
            traces.variables,
            asked,
            traces.timelines,
            &mut begun,
            at,
            traces.w.hi,
        );
        append(&mut runs, &judged(a, &part, env, regions, probes))?;
        at = part.span.hi + 1;
    }
    Ok(runs.finish())
}
