//! Laws of the definitions, as calls without a body.
ghost use Rattle.std.specs.Prelude.{◌≡◌, ◌≤◌, ℕ, ℤ, false};
ghost use Rattle.history.specs.World.{World};
ghost use Rattle.meaning.specs.Answer.{answer};
ghost use Rattle.plane.specs.Boxes.{candidates, is_candidate, Grid};
ghost use Rattle.plane.specs.Recorded.{Recorded};
ghost use Rattle.plane.specs.Rows.{is_in_range, range_query, rows_among, rows_in_range, IsCovered};

/// The objects that have a value between two bounds, and when, are what answers the query for them.
pub fn the_rows_are_those_of_a_query()
    ensures { (w : World) (class attribute : ℕ) (lo hi : ℤ) (from e : ℕ)
        → answer w (range_query class attribute lo hi) from e ≡ rows_in_range w.history class attribute lo hi from e }
{}

/// Where the index covers some ticks, an object of its class that isn't a candidate has a value between the bounds at
/// none of them.
pub fn other_objects_are_in_no_range()
    ensures { (r : Recorded) (g : Grid) (lo hi : ℤ) (from e : ℕ) → IsCovered r g from e → (id : ℕ) → r.begun id ≤ from
        → is_candidate r g lo hi from e id ≡ false → (t : ℕ) → from ≤ t → t ≤ e
        → is_in_range r.history g.attribute lo hi id t ≡ false }
{}

/// So there the candidates alone tell the rows.
pub fn the_rows_are_told_by_candidates()
    ensures { (r : Recorded) (g : Grid) (lo hi : ℤ) (from e : ℕ) → IsCovered r g from e
        → rows_in_range r.history g.class g.attribute lo hi from e
        ≡ rows_among r.history g.attribute lo hi from e (candidates r g lo hi from e) }
{}
