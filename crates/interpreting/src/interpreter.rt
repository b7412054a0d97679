//! What tells the truth of atoms and the values of terms.

ghost use Rattle.std.specs.Prelude.{◌≡◌, ◌≤◌, ◌+◌, ◌&&◌, not, ℕ, Bool, true, length, slice_index, IfOk};
ghost use Rattle.tick_set.specs.Ticks.{within};
ghost use Rattle.formula.specs.Variables.{atom_has, term_has};
ghost use Rattle.formula.specs.declared.tree.RAtom.{RAtom};
ghost use Rattle.formula.specs.declared.tree.RTerm.{RTerm};
ghost use Rattle.formula.specs.declared.value.Env.{Env};
ghost use Rattle.meaning.specs.Reads.{atom_variables, term_variables};
ghost use Rattle.meaning.specs.Satisfaction.{Interpretation};
ghost use Rattle.interpreting.specs.Names.{AgreeOn, atom_uses_value, term_uses_value};
ghost use Rattle.interpreting.specs.ValueRuns.{AreValueRuns};
ghost use Rattle.steps.specs.Counting.{StepsAtMost};

use crate::value_run::ValueRun;
use formula::{Binding, Env, RAtom, RTerm};
use std::alloc::{AllocError, Global};
use std::sync::ledger::Ledger;
use steps::Steps;
use tick_set::Window;
use until_merge::Temporal;

/// What tells for one binding at which ticks an atom holds, which values a term has, and when an object is there.
///
/// A binding has the object of a variable at the variable's place. What it has at the places of other variables
/// doesn't matter. Each call fails only where memory is out; `reads` counts its looks at timelines.
pub trait Interpreter<S: Temporal> {
    /// What atoms and terms mean where an assignment gives each variable an object.
    ghost interpretation: { Self → (ℕ → ℕ) → Interpretation };

    /// Whether an object is there at a tick.
    ghost present: { Self → ℕ → ℕ → Bool };

    /// An atom may be asked of an assignment over the ticks of lo to hi, by the values that are bound.
    ghost atom_fits: { Self → ℕ → ℕ → (ℕ → ℕ) → RAtom → Env → Type 0 };

    /// The same of a term.
    ghost term_fits: { Self → ℕ → ℕ → (ℕ → ℕ) → RTerm → Env → Type 0 };

    /// An object may be asked whether it is there over the ticks of lo to hi.
    ghost object_fits: { Self → ℕ → ℕ → ℕ → Type 0 };

    /// The ticks of the window at which the atom holds.
    fn atom<L: Ledger, M: Ledger>(
        &self,
        alloc: Global,
        atom: &RAtom,
        binding: &Binding,
        env: &Env,
        w: Window,
        reads: &mut Steps<L>,
        probes: &mut Steps<M>,
    ) -> Result<S, AllocError>
        requires { atom_fits self.now w.lo w.hi (slice_index binding.now) atom.now env.now }
        ensures ticks { IfOk result (λ s. (t : ℕ) → S.member s t ≡ (within w.lo w.hi t
            && (interpretation self.now (slice_index binding.now)).atom atom.now env.now t)) }
        ensures reads { StepsAtMost reads.old reads.new (length (atom_variables atom.now)) };

    /// The runs of the term's value in the window; a tick at which it has none is in no run.
    fn runs<L: Ledger>(
        &self,
        alloc: Global,
        term: &RTerm,
        binding: &Binding,
        env: &Env,
        w: Window,
        reads: &mut Steps<L>,
    ) -> Result<Vec<ValueRun>, AllocError>
        requires { term_fits self.now w.lo w.hi (slice_index binding.now) term.now env.now }
        ensures runs { IfOk result (λ runs. AreValueRuns
            ((interpretation self.now (slice_index binding.now)).term term.now env.now) w.lo (w.hi + 1) runs.items) }
        ensures reads { StepsAtMost reads.old reads.new (length (term_variables term.now)) };

    /// The ticks of the window at which the object isn't there: few objects have any.
    fn absence<L: Ledger>(
        &self,
        alloc: Global,
        id: u32,
        w: Window,
        reads: &mut Steps<L>,
    ) -> Result<S, AllocError>
        requires { object_fits self.now w.lo w.hi id }
        ensures ticks { IfOk result (λ s. (t : ℕ) → S.member s t ≡ (within w.lo w.hi t
            && not (present self.now id t))) }
        ensures reads { StepsAtMost reads.old reads.new 1 };

    /// An atom depends on its own variables alone.
    ghost atom_sees: { (x : Self) (b c : ℕ → ℕ) (a : RAtom) → ((v : ℕ) → atom_has v a ≡ true → b v ≡ c v)
        → (env : Env) (t : ℕ) → (interpretation x b).atom a env t ≡ (interpretation x c).atom a env t };

    /// A term depends on its own variables alone.
    ghost term_sees: { (x : Self) (b c : ℕ → ℕ) (q : RTerm) → ((v : ℕ) → term_has v q ≡ true → b v ≡ c v)
        → (env : Env) (t : ℕ) → (interpretation x b).term q env t ≡ (interpretation x c).term q env t };

    /// An atom depends on the values that it names alone.
    ghost atom_sees_values: { (x : Self) (b : ℕ → ℕ) (a : RAtom) (env other : Env) → AgreeOn (λ d. atom_uses_value d a) env other
        → (t : ℕ) → (interpretation x b).atom a env t ≡ (interpretation x b).atom a other t };

    /// A term depends on the values that it names alone.
    ghost term_sees_values: { (x : Self) (b : ℕ → ℕ) (q : RTerm) (env other : Env) → AgreeOn (λ d. term_uses_value d q) env other
        → (t : ℕ) → (interpretation x b).term q env t ≡ (interpretation x b).term q other t };

    /// An atom that may be asked over the ticks of lo to hi may be asked over some of them.
    ghost atom_narrows: { (x : Self) (lo hi from upto : ℕ) → lo ≤ from → upto ≤ hi → (b : ℕ → ℕ) (a : RAtom) (env : Env)
        → atom_fits x lo hi b a env → atom_fits x from upto b a env };

    /// And so may a term.
    ghost term_narrows: { (x : Self) (lo hi from upto : ℕ) → lo ≤ from → upto ≤ hi → (b : ℕ → ℕ) (q : RTerm) (env : Env)
        → term_fits x lo hi b q env → term_fits x from upto b q env };
}
