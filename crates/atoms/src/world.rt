//! What a store and its regions tell of atoms, of terms and of the presence of objects.

ghost use Rattle.std.specs.Prelude.{◌≡◌, ◌<◌, is_some, length};
ghost use Rattle.std.proofs.Common.{ap};
ghost use Rattle.interpreting.proofs.FewerLemmas.{not_after, shorter};
ghost use Rattle.interpreting.proofs.NameLemmas.{atom_by_names, term_by_names};
ghost use Rattle.meaning.proofs.LocalityLemmas.{atom_same, term_same};
ghost use Rattle.meaning.specs.Trace.{trace_of};
ghost use Rattle.tick_set.specs.declared.spans.TheConstants.{SPAN_LIMIT};
ghost use Rattle.history.specs.History.{cells_at};
ghost use Rattle.object_store.specs.Contents.{history_of};
ghost use Rattle.atoms.specs.Asked.{CanAskAtom, CanAskTerm, told_by};
ghost use Rattle.exact.proofs.Naturals.{at_most_in_turn};

use crate::present::absence;
use crate::ticks::atom_ticks;
use crate::values::value_runs;
use formula::{Binding, Env, RAtom, RTerm};
use interpreting::{Interpreter, ValueRun};
use interval_set::IntervalSet;
use object_store::Store;
use polygon::Regions;
use std::alloc::{AllocError, Global};
use std::sync::ledger::Ledger;
use steps::Steps;
use tick_set::Window;

/// A store and its regions.
#[derive(Clone, Copy)]
pub struct StoredWorld<'a> {
    pub store: &'a Store,
    pub regions: &'a Regions,
}

impl Interpreter<IntervalSet> for StoredWorld<'_> {
    ghost interpretation = { λ x. told_by x.store.now x.regions.now };

    ghost present = { λ x id t. is_some (cells_at (history_of x.store.now) id t) };

    ghost atom_fits = { λ x lo hi b a env. CanAskAtom x.store.now lo hi b a };

    ghost term_fits = { λ x lo hi b q env. CanAskTerm x.store.now lo hi b q env };

    ghost object_fits = { λ x lo hi id. id < length x.store.now.objects };

    fn atom<L: Ledger, M: Ledger>(
        &self,
        alloc: Global,
        atom: &RAtom,
        binding: &Binding,
        env: &Env,
        w: Window,
        reads: &mut Steps<L>,
        probes: &mut Steps<M>,
    ) -> Result<IntervalSet, AllocError> {
        let ticks = atom_ticks(
            alloc,
            atom,
            binding,
            env,
            self.store,
            self.regions,
            w,
            reads,
            probes,
        )?;
        Ok(ticks)
    }

    fn runs<L: Ledger>(
        &self,
        alloc: Global,
        term: &RTerm,
        binding: &Binding,
        env: &Env,
        w: Window,
        reads: &mut Steps<L>,
    ) -> Result<Vec<ValueRun>, AllocError> {
        let runs = value_runs(alloc, term, binding, env, self.store, w, reads)?;
        Ok(runs)
    }

    fn absence<L: Ledger>(
        &self,
        alloc: Global,
        id: u32,
        w: Window,
        reads: &mut Steps<L>,
    ) -> Result<IntervalSet, AllocError> {
        let ticks = absence(alloc, id, self.store, w, reads)?;
        Ok(ticks)
    }

    ghost atom_sees = { λ x b c a same env t. atom_same x.regions.now
        (trace_of (history_of x.store.now) b) (trace_of (history_of x.store.now) c) a env t
        (λ v has. ap (λ id. cells_at (history_of x.store.now) id t) (same v has)) };

    ghost term_sees = { λ x b c q same env t. term_same
        (trace_of (history_of x.store.now) b) (trace_of (history_of x.store.now) c) env t q
        (λ v has. ap (λ id. cells_at (history_of x.store.now) id t) (same v has)) };

    ghost atom_sees_values = { λ x b a env other same t.
        atom_by_names x.regions.now (trace_of (history_of x.store.now) b) a env other same t };

    ghost term_sees_values = { λ x b q env other same t.
        term_by_names (trace_of (history_of x.store.now) b) q env other same t };

    ghost atom_narrows = { λ x lo hi from upto begins ends b a env can. record {
      sized = can.sized;
      objects = can.objects;
      short = shorter lo hi from upto SPAN_LIMIT begins ends can.short;
    } };

    ghost term_narrows = { λ x lo hi from upto begins ends b q env can. record {
      sized = can.sized;
      objects = can.objects;
      in_range = λ t after before. can.in_range t (at_most_in_turn lo from t begins after) (not_after hi upto t ends before);
    } };
}
