//! The operators that a set of ticks answers.
ghost use Rattle.std.specs.Prelude.{◌≡◌, ◌&&◌, ℕ, IfOk};
ghost use Rattle.tick_set.specs.Ticks.{LiesIn, within};
ghost use Rattle.tick_set.specs.Operators.{next_at, until_at, until_within_at, until_after_at};
ghost use Rattle.tick_set.specs.Operators.{eventually_within_at, eventually_after_at, always_for_at};
ghost use Rattle.formula.specs.Forms.{bounded_at, until_form_at};

use fixed_point::{BoundForm, UntilForm};
use std::alloc::{AllocError, Global};
use tick_set::{TickSet, Window};

/// Sets of ticks with the operators of time.
///
/// Each call takes sets that lie in the window: this set has the ticks of the operator's first part, and `h`
/// those of its second. It gives the ticks of the window at which the operator holds, where nothing after the
/// window's last tick counts. It fails only where memory is out.
///
/// `c` is any number of ticks.
pub trait Temporal: TickSet {
    /// The ticks whose next one is in the set: NEXTTIME.
    fn next(&self, alloc: Global, w: Window) -> Result<Self, AllocError>
        requires { LiesIn w.lo w.hi (Self.member self.now) }
        ensures { IfOk result (λ r. (t : ℕ) → Self.member r t ≡ (within w.lo w.hi t
            && next_at (Self.member self.now) w.hi t)) };

    /// The ticks from which this set leads to a tick of `h`: UNTIL.
    fn until(&self, alloc: Global, h: &Self, w: Window) -> Result<Self, AllocError>
        requires guard { LiesIn w.lo w.hi (Self.member self.now) }
        requires goal { LiesIn w.lo w.hi (Self.member h.now) }
        ensures { IfOk result (λ r. (t : ℕ) → Self.member r t ≡ (within w.lo w.hi t
            && until_at (Self.member self.now) (Self.member h.now) w.hi t)) };

    /// The same where the tick of `h` is at most `c` later: UNTIL_WITHIN.
    fn until_within(&self, alloc: Global, h: &Self, c: u32, w: Window) -> Result<Self, AllocError>
        requires guard { LiesIn w.lo w.hi (Self.member self.now) }
        requires goal { LiesIn w.lo w.hi (Self.member h.now) }
        ensures { IfOk result (λ r. (t : ℕ) → Self.member r t ≡ (within w.lo w.hi t
            && until_within_at c (Self.member self.now) (Self.member h.now) w.hi t)) };

    /// The same where the tick of `h` is at least `c` later: UNTIL_AFTER.
    fn until_after(&self, alloc: Global, h: &Self, c: u32, w: Window) -> Result<Self, AllocError>
        requires guard { LiesIn w.lo w.hi (Self.member self.now) }
        requires goal { LiesIn w.lo w.hi (Self.member h.now) }
        ensures { IfOk result (λ r. (t : ℕ) → Self.member r t ≡ (within w.lo w.hi t
            && until_after_at c (Self.member self.now) (Self.member h.now) w.hi t)) };

    /// The ticks with a tick of this set at most `c` later: EVENTUALLY_WITHIN.
    fn eventually_within(&self, alloc: Global, c: u32, w: Window) -> Result<Self, AllocError>
        requires { LiesIn w.lo w.hi (Self.member self.now) }
        ensures { IfOk result (λ r. (t : ℕ) → Self.member r t ≡ (within w.lo w.hi t
            && eventually_within_at c (Self.member self.now) w.hi t)) };

    /// The ticks with a tick of this set at least `c` later: EVENTUALLY_AFTER.
    fn eventually_after(&self, alloc: Global, c: u32, w: Window) -> Result<Self, AllocError>
        requires { LiesIn w.lo w.hi (Self.member self.now) }
        ensures { IfOk result (λ r. (t : ℕ) → Self.member r t ≡ (within w.lo w.hi t
            && eventually_after_at c (Self.member self.now) w.hi t)) };

    /// The ticks from which this set has all ticks up to `c` later, as far as the window goes: ALWAYS_FOR.
    fn always_for(&self, alloc: Global, c: u32, w: Window) -> Result<Self, AllocError>
        requires { LiesIn w.lo w.hi (Self.member self.now) }
        ensures { IfOk result (λ r. (t : ℕ) → Self.member r t ≡ (within w.lo w.hi t
            && always_for_at c (Self.member self.now) w.hi t)) };

    /// The operator of UNTIL that a form and a number `c` of ticks choose.
    fn until_by(
        &self,
        alloc: Global,
        form: UntilForm,
        h: &Self,
        c: u32,
        w: Window,
    ) -> Result<Self, AllocError>
        requires guard { LiesIn w.lo w.hi (Self.member self.now) }
        requires goal { LiesIn w.lo w.hi (Self.member h.now) }
        ensures { IfOk result (λ r. (t : ℕ) → Self.member r t ≡ (within w.lo w.hi t
            && until_form_at form c (Self.member self.now) (Self.member h.now) w.hi t)) }
    {
        match form {
            UntilForm::Plain => self.until(alloc, h, w),
            UntilForm::Within => self.until_within(alloc, h, c, w),
            UntilForm::After => self.until_after(alloc, h, c, w),
        }
    }

    /// The operator of one set that a form and a number `c` of ticks choose.
    fn bounded_by(
        &self,
        alloc: Global,
        form: BoundForm,
        c: u32,
        w: Window,
    ) -> Result<Self, AllocError>
        requires { LiesIn w.lo w.hi (Self.member self.now) }
        ensures { IfOk result (λ r. (t : ℕ) → Self.member r t ≡ (within w.lo w.hi t
            && bounded_at form c (Self.member self.now) w.hi t)) }
    {
        match form {
            BoundForm::Within => self.eventually_within(alloc, c, w),
            BoundForm::After => self.eventually_after(alloc, c, w),
            BoundForm::Always => self.always_for(alloc, c, w),
        }
    }
}
