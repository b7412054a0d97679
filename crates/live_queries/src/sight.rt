//! Where a written object is over the ticks that queries have still.
ghost use Rattle.std.specs.Prelude.{◌≡◌, ℕ, true, IfSome};
ghost use Rattle.formula.specs.Tree.{resolved_view};
ghost use Rattle.object_store.specs.Contents.{Contents};
ghost use Rattle.narrowing.specs.Needed.{Fails, told};
ghost use Rattle.narrowing.specs.Whereabouts.{StaysInArea};
ghost use Rattle.live_queries.specs.Missed.{IsSeen, IsSightOf};

use answers::StoredWorld;
use formula::RQuery;
use narrowing::can_hold_at;
use object_store::{Area, Store};
use tick_set::Window;

/// Where a written object is over the window that was looked at last, so that queries with the same ticks share the look.
#[derive(Drop)]
pub(crate) struct Sight {
    seen: Option<Seen>,
}

/// The area in which an object is over a window, wherever it is there.
#[derive(Clone, Copy)]
pub(crate) struct Seen {
    over: Window,
    area: Area,
}

impl Sight {
    /// Nothing was looked at yet.
    pub(crate) fn none() -> Sight
        ensures { (s : Contents) (id : ℕ) → IsSightOf s id result }
    {
        Sight { seen: None }
    }

    /// Whether the formula of a query holds nowhere in a window with an object as its first variable, since the object can't
    /// be where the formula needs it. No timeline is looked at.
    pub(crate) fn misses(&mut self, query: &RQuery, id: u32, world: &StoredWorld, w: Window) -> bool
        requires { IsSightOf world.now.store.now id self.old }
        ensures sight { IsSightOf world.now.store.now id self.new }
        ensures fails { result ≡ true → (b : ℕ → ℕ) → b 0 ≡ id
            → Fails (told world.now.store.now world.now.regions.now b) w.lo w.hi (resolved_view query.now).formula }
    {
        self.look(world.store, id, w);
        match self.area_over(w) {
            Some(area) => !can_hold_at(query, area, world.regions),
            None => false,
        }
    }

    // Looks where the object is over a window, unless that was looked at last.
    fn look(&mut self, store: &Store, id: u32, w: Window)
        requires { IsSightOf store.now id self.old }
        ensures { IsSightOf store.now id self.new }
    {
        if self.area_over(w).is_none() {
            self.seen = seen_over(store, id, w);
        }
    }

    // The area in which it was seen, if this is the window that was looked at last.
    #[inline]
    fn area_over(&self, w: Window) -> Option<&Area>
        ensures { IfSome result (λ area. (s : Contents) (id : ℕ) → IsSightOf s id self.now → StaysInArea s id area.now w.lo w.hi) }
    {
        match &self.seen {
            Some(seen) => seen.area_over(w),
            None => None,
        }
    }
}

impl Seen {
    // The area, if this is the window.
    #[inline]
    fn area_over(&self, w: Window) -> Option<&Area>
        ensures { IfSome result (λ area. (s : Contents) (id : ℕ) → StaysInArea s id self.now.area self.now.over.lo self.now.over.hi
            → StaysInArea s id area.now w.lo w.hi) }
    {
        if self.over.lo == w.lo && self.over.hi == w.hi {
            Some(&self.area)
        } else {
            None
        }
    }
}

// Where an object is over a window. None where it isn't there, or where the window begins before the last write.
// Not inlined: most queries have the ticks of the one before.
#[inline(never)]
fn seen_over(store: &Store, id: u32, w: Window) -> Option<Seen>
    ensures { IsSeen store.now id result }
{
    if w.lo < store.last_tick() {
        return None;
    }
    let area = store.whereabouts(id, w)?;
    Some(Seen { over: w, area })
}
