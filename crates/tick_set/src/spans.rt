//! Windows and spans: ticks without a gap.
ghost use Rattle.std.specs.Prelude.{◌≡◌, ◌≤◌, ◌↔◌, IsTrue, IsSome, IfSome};
ghost use Rattle.tick_set.specs.declared.spans.TheConstants.{LAST_TICK};

/// The last tick; the first is 0.
pub const LAST_TICK: u32 = 1_000_000_000;

/// The most ticks from the first to the last of a query's window.
pub const SPAN_LIMIT: u32 = 100_000_000;

/// The ticks from `lo` to `hi`, both included, that a question is asked of.
#[derive(Clone, Copy, Debug, PartialEq, Eq)]
pub struct Window {
    pub lo: u32,
    pub hi: u32,
    pub ghost ordered: { lo ≤ hi },
    pub ghost in_range: { hi ≤ LAST_TICK },
}

impl Window {
    /// None exactly where `lo` is above `hi`, or `hi` above [`LAST_TICK`].
    #[inline]
    pub fn new(lo: u32, hi: u32) -> Option<Window>
        ensures valid { IsSome result ↔ ((lo ≤ hi) × (hi ≤ LAST_TICK)) }
        ensures ends { IfSome result (λ w. (w.lo ≡ lo) × (w.hi ≡ hi)) }
    {
        if is_in_range(lo, hi) {
            Some(Window { lo, hi })
        } else {
            None
        }
    }

    /// The window as one span.
    #[inline]
    pub fn span(self) -> Span
        ensures { (result.lo ≡ self.lo) × (result.hi ≡ self.hi) }
    {
        Span {
            lo: self.lo,
            hi: self.hi,
        }
    }
}

/// The ticks from `lo` to `hi`, both included.
#[derive(Clone, Copy, Debug, PartialEq, Eq)]
pub struct Span {
    pub lo: u32,
    pub hi: u32,
    pub ghost ordered: { lo ≤ hi },
    pub ghost in_range: { hi ≤ LAST_TICK },
}

impl Span {
    /// None exactly where `lo` is above `hi`, or `hi` above [`LAST_TICK`].
    #[inline]
    pub fn new(lo: u32, hi: u32) -> Option<Span>
        ensures valid { IsSome result ↔ ((lo ≤ hi) × (hi ≤ LAST_TICK)) }
        ensures ends { IfSome result (λ s. (s.lo ≡ lo) × (s.hi ≡ hi)) }
    {
        if is_in_range(lo, hi) {
            Some(Span { lo, hi })
        } else {
            None
        }
    }

    /// The span as a window.
    #[inline]
    pub fn window(self) -> Window
        ensures { (result.lo ≡ self.lo) × (result.hi ≡ self.hi) }
    {
        Window {
            lo: self.lo,
            hi: self.hi,
        }
    }
}

// Whether there is a span from `lo` to `hi`.
#[inline]
fn is_in_range(lo: u32, hi: u32) -> bool
    ensures { IsTrue result ↔ ((lo ≤ hi) × (hi ≤ LAST_TICK)) }
{
    lo <= hi && hi <= LAST_TICK
}
