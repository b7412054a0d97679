//! Parts of windows.

ghost use Rattle.std.specs.Prelude.{◌≡◌, ◌≤◌, ◌&&◌, ℕ, IfOk};
ghost use Rattle.tick_set.specs.Ticks.{within};
ghost use Rattle.formula.specs.Reach.{reach};
ghost use Rattle.formula.specs.Tree.{formula_view};
ghost use Rattle.relation.specs.Frames.{HasFrame, frame};
ghost use Rattle.relation.specs.Rows.{table_has};
ghost use Rattle.evaluator.specs.inner.Seen.{last_seen};

use formula::{RFormula, reach_of};
use relation::{Domains, Relation};
use std::alloc::{AllocError, Global};
use tick_set::{Span, Window};
use until_merge::Temporal;

// Some ticks of a window without a gap. The window's last tick is the last that counts.
#[derive(Clone, Copy)]
pub(crate) struct Section {
    pub(crate) span: Span,
    pub(crate) window: Window,
    pub(crate) ghost begins: { window.lo ≤ span.lo },
    pub(crate) ghost ends: { span.hi ≤ window.hi },
}

impl Section {
    // The ticks that a formula sees from these.
    #[tactic(auto, using(crate::proofs::SeenLemmas::last_counted))]
    pub(crate) fn seen_by(self, f: &RFormula) -> Window
        ensures lo { result.lo ≡ self.span.lo }
        ensures hi { result.hi ≡ last_seen (reach (formula_view f.now)) self.span.hi self.window.hi }
    {
        let hi = last_seen(reach_of(f), self.span.hi, self.window.hi);
        Window {
            lo: self.span.lo,
            hi,
        }
    }
}

// The last tick that a formula of this reach sees from a tick, where nothing after `last` counts.
fn last_seen(reach: Option<u32>, tick: u32, last: u32) -> u32
    requires { tick ≤ last }
    ensures { result ≡ last_seen reach tick last }
{
    match reach {
        Some(ahead) => last.min(tick.saturating_add(ahead)),
        None => last,
    }
}

// The ticks of a section that rows have, in the section's window. The rows may be those of another window.
pub(crate) fn rows_at<'d, S: Temporal>(
    alloc: Global,
    rows: &Relation<'d, S>,
    section: Section,
    d: &'d Domains,
) -> Result<Relation<'d, S>, AllocError>
    requires { rows.now.domains ≡ d.now }
    ensures ticks { IfOk result (λ r. (b : ℕ → ℕ) (t : ℕ) → table_has S.member r b t
        ≡ (within section.span.lo section.span.hi t && table_has S.member rows.now b t)) }
    ensures vars { IfOk result (λ r. r.vars ≡ rows.now.vars) }
    ensures frame { IfOk result (λ r. HasFrame r d.now section.window.lo section.window.hi) }
{
    rows.rows_stand_in_order();
    // Each domain ascends.
    let _ = d.len();
    let part = section.span.window();
    let mut made = Relation::empty(alloc, rows.vars(), d, section.window);
    'places: for place in 0..rows.len() {
        let key = rows.key_at(place).unwrap();
        let whole = rows.set_at(place).unwrap();
        let set = whole.clip(alloc, part)?;
        made.put(key, set)?;
    }
    Ok(made)
}
