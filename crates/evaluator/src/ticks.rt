//! The ticks of formulas at one binding.

ghost use Rattle.std.specs.Prelude.{◌≡◌, ◌&&◌, ℕ, true, slice_index, IfOk};
ghost use Rattle.tick_set.specs.Ticks.{within};
ghost use Rattle.formula_shape.specs.Shape.{Shape};
ghost use Rattle.formula.specs.Tree.{formula_view};
ghost use Rattle.meaning.specs.Satisfaction.{sat};
ghost use Rattle.evaluator.specs.Assigned.{assignment_view};
ghost use Rattle.evaluator.specs.inner.ByBinding.{AreTicksOf, CanAskHere, reads_here};
ghost use Rattle.steps.specs.Counting.{StepsAtMost};

use crate::assignment::Assignment;
use crate::here::Here;
use crate::node::{Node, Pairing};
use crate::section::Section;
use crate::sets::{changed, paired, union_of};
use crate::stretches::stretches_of;
use fixed_point::UntilForm;
use formula::RFormula;
use interpreting::Interpreter;
use std::alloc::{AllocError, Global};
use std::collections::VecDeque;
use std::sync::ledger::Ledger;
use steps::Steps;
use tick_set::{TickSet, Window};
use until_merge::Temporal;

// UNTIL by its form, with its two formulas.
#[derive(Clone, Copy)]
struct Until<'a> {
    form: UntilForm,
    number: u32,
    guard: &'a RFormula,
    goal: &'a RFormula,
}

// The ticks of the window at which a formula holds at a binding.
#[cycle(ticks)]
pub(crate) fn ticks_of<S: Temporal, I: Interpreter<S>, L: Ledger, M: Ledger>(
    alloc: Global,
    here: &Here<'_, I>,
    f: &RFormula,
    w: Window,
    reads: &mut Steps<L>,
    probes: &mut Steps<M>,
) -> Result<S, AllocError>
    requires { CanAskHere (I.interpretation here.now.source.now (slice_index here.now.binding.now))
        (I.atom_fits here.now.source.now w.lo w.hi (slice_index here.now.binding.now))
        (I.term_fits here.now.source.now w.lo w.hi (slice_index here.now.binding.now)) w.lo w.hi
        (formula_view f.now) here.now.values.now }
    ensures ticks { IfOk result (AreTicksOf S.member
        (I.interpretation here.now.source.now (slice_index here.now.binding.now)) w.lo w.hi
        (formula_view f.now) here.now.values.now) }
    ensures reads { StepsAtMost reads.old reads.new (reads_here w.lo w.hi (formula_view f.now)) }
{
    match Node::of(f) {
        Node::Truth(holds) => {
            let made = ticks_of_truth(alloc, holds, w)?;
            Ok(made)
        }
        Node::Atom(atom) => {
            let made = here
                .source
                .atom(alloc, atom, here.binding, here.values, w, reads, probes)?;
            Ok(made)
        }
        Node::One(change, part) => {
            let ticks = ticks_of(alloc, here, part, w, reads, probes)?;
            let made = changed(alloc, change, &ticks, w)?;
            Ok(made)
        }
        Node::Two(pairing, left, right) => {
            if let Pairing::Until(form, c) = pairing {
                let until = Until {
                    form,
                    number: c,
                    guard: left,
                    goal: right,
                };
                let led = ticks_of_until(alloc, here, &until, w, reads, probes)?;
                return Ok(led);
            }
            let left = ticks_of(alloc, here, left, w, reads, probes)?;
            if pairing.needs_left() && left.is_empty() {
                return Ok(left);
            }
            let right = ticks_of(alloc, here, right, w, reads, probes)?;
            let made = paired(alloc, pairing, &left, &right, w)?;
            Ok(made)
        }
        Node::Assign(a) => {
            let made = ticks_of_assignment(alloc, here, &a, w, reads, probes)?;
            Ok(made)
        }
    }
}

// Those of UNTIL. Where its goal has no tick, its guard isn't evaluated.
#[cycle(ticks)]
fn ticks_of_until<S: Temporal, I: Interpreter<S>, L: Ledger, M: Ledger>(
    alloc: Global,
    here: &Here<'_, I>,
    until: &Until<'_>,
    w: Window,
    reads: &mut Steps<L>,
    probes: &mut Steps<M>,
) -> Result<S, AllocError>
    requires { CanAskHere (I.interpretation here.now.source.now (slice_index here.now.binding.now))
        (I.atom_fits here.now.source.now w.lo w.hi (slice_index here.now.binding.now))
        (I.term_fits here.now.source.now w.lo w.hi (slice_index here.now.binding.now)) w.lo w.hi
        (Shape.Until until.now.form until.now.number (formula_view until.now.guard.now) (formula_view until.now.goal.now))
        here.now.values.now }
    ensures ticks { IfOk result (AreTicksOf S.member
        (I.interpretation here.now.source.now (slice_index here.now.binding.now)) w.lo w.hi
        (Shape.Until until.now.form until.now.number (formula_view until.now.guard.now) (formula_view until.now.goal.now))
        here.now.values.now) }
    ensures reads { StepsAtMost reads.old reads.new
        (reads_here w.lo w.hi (Shape.Until until.now.form until.now.number
        (formula_view until.now.guard.now) (formula_view until.now.goal.now))) }
{
    let goals = ticks_of(alloc, here, until.goal, w, reads, probes)?;
    if goals.is_empty() {
        return Ok(goals);
    }
    let guards = ticks_of(alloc, here, until.guard, w, reads, probes)?;
    let made = paired(
        alloc,
        Pairing::Until(until.form, until.number),
        &guards,
        &goals,
        w,
    )?;
    Ok(made)
}

// All ticks of the window or none.
fn ticks_of_truth<S: TickSet>(alloc: Global, holds: bool, w: Window) -> Result<S, AllocError>
    ensures { IfOk result (λ s. (t : ℕ) → S.member s t ≡ (within w.lo w.hi t && holds)) }
{
    if holds {
        let all = S::of_span(alloc, w.span())?;
        Ok(all)
    } else {
        Ok(S::empty(alloc))
    }
}

// Those of an assignment: the ticks of each run of the term's value at which its formula holds by this value.
#[cycle(ticks)]
fn ticks_of_assignment<S: Temporal, I: Interpreter<S>, L: Ledger, M: Ledger>(
    alloc: Global,
    here: &Here<'_, I>,
    a: &Assignment<'_>,
    w: Window,
    reads: &mut Steps<L>,
    probes: &mut Steps<M>,
) -> Result<S, AllocError>
    requires { CanAskHere (I.interpretation here.now.source.now (slice_index here.now.binding.now))
        (I.atom_fits here.now.source.now w.lo w.hi (slice_index here.now.binding.now))
        (I.term_fits here.now.source.now w.lo w.hi (slice_index here.now.binding.now)) w.lo w.hi
        (assignment_view a.now) here.now.values.now }
    ensures ticks { IfOk result (AreTicksOf S.member
        (I.interpretation here.now.source.now (slice_index here.now.binding.now)) w.lo w.hi
        (assignment_view a.now) here.now.values.now) }
    ensures reads { StepsAtMost reads.old reads.new (reads_here w.lo w.hi (assignment_view a.now)) }
{
    let runs = stretches_of(alloc, here, a, w, reads)?;
    let mut parts = VecDeque::new(alloc);
    'each: for run in &runs {
        let bound = here.values.with(a.depth, run.value);
        let inner = Here {
            source: here.source,
            binding: here.binding,
            values: &bound,
        };
        let section = Section {
            span: run.span,
            window: w,
        };
        let part: S = ticks_of_section(alloc, &inner, a.body, section, reads, probes)?;
        parts.push_back(part)?;
    }
    let made = union_of(alloc, parts)?;
    Ok(made)
}

// The ticks of a section at which a formula holds. None that it doesn't see from them is asked.
#[cycle(ticks)]
fn ticks_of_section<S: Temporal, I: Interpreter<S>, L: Ledger, M: Ledger>(
    alloc: Global,
    here: &Here<'_, I>,
    f: &RFormula,
    section: Section,
    reads: &mut Steps<L>,
    probes: &mut Steps<M>,
) -> Result<S, AllocError>
    requires { CanAskHere (I.interpretation here.now.source.now (slice_index here.now.binding.now))
        (I.atom_fits here.now.source.now section.window.lo section.window.hi (slice_index here.now.binding.now))
        (I.term_fits here.now.source.now section.window.lo section.window.hi (slice_index here.now.binding.now))
        section.window.lo section.window.hi (formula_view f.now) here.now.values.now }
    ensures ticks { IfOk result (λ s. (t : ℕ) → S.member s t ≡ (within section.span.lo section.span.hi t
        && sat (I.interpretation here.now.source.now (slice_index here.now.binding.now)) (formula_view f.now)
        here.now.values.now section.window.hi t)) }
    ensures reads { StepsAtMost reads.old reads.new (reads_here section.window.lo section.window.hi (formula_view f.now)) }
{
    let w = section.seen_by(f);
    let ticks: S = ticks_of(alloc, here, f, w, reads, probes)?;
    let made = ticks.clip(alloc, section.span.window())?;
    Ok(made)
}
