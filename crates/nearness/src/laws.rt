//! A law of the definitions, as a call without a body.
ghost use Rattle.std.specs.Prelude.{◌≡◌, ℕ, ℤ, Bool, List, Option};
ghost use Rattle.std.specs.List.{filter};
ghost use Rattle.nearness.specs.Kept.{AreBehind};
ghost use Rattle.nearness.specs.Nearest.{is_near};

/// Objects that k of the others stand before may be left out: who is near can be told by the others alone.
pub fn near_by_kept()
    ensures { (far : ℕ → Option ℤ) (ids : List ℕ) (keep : ℕ → Bool) (k : ℕ) → AreBehind far ids keep k
        → (o : ℕ) → is_near far ids k o ≡ is_near far (filter keep ids) k o }
{}
