//! Small histories worked out, and laws of the definitions, as calls without a body.
ghost use Rattle.std.specs.Prelude.{◌≡◌, ℕ, ◌++◌, true, false, None, List, map};
ghost use Rattle.std.specs.List.{IsDistinct, list_all, list_any};
ghost use Rattle.std.specs.Str.{bytes_eq};
ghost use Rattle.history.specs.Catalog.{catalog};
ghost use Rattle.history.specs.Example.{TellsTheCar, TellsTheTank, TellsTheVans};
ghost use Rattle.history.specs.State.{state};
ghost use Rattle.history.specs.Write.{Write, inserts, is_after};

/// The later of two writes at one tick stands, a removed object is absent, and a new insert begins anew.
pub fn a_tank_is_filled_removed_and_inserted_again()
    ensures { TellsTheTank }
{}

/// A place writes the values of x and y, and a move their legs.
pub fn a_car_stands_and_then_moves()
    ensures { TellsTheCar }
{}

/// A place with a move writes both, a place alone goes on with what is left of the legs, and a setting that
/// no attribute has changes nothing.
pub fn a_van_is_shifted_on_its_way()
    ensures { TellsTheVans }
{}

/// Writes after a tick leave the state of each object at that tick: the recorded past stays.
#[tactic(auto, using(crate::proofs::LawLemmas::past_stays))]
pub fn later_writes_leave_the_past()
    ensures { (writes later : List Write) (o : List ℕ) (t : ℕ) → list_all (is_after t) later ≡ true
        → state (writes ++ later) o t ≡ state writes o t }
{}

/// No two objects have the same name.
#[tactic(auto, using(crate::proofs::LawLemmas::names_apart))]
pub fn names_differ()
    ensures { (writes : List Write) → IsDistinct bytes_eq (map (λ o. o.name) (catalog writes).objects) }
{}

/// A name that no write inserts is absent at each tick.
#[tactic(auto, using(crate::proofs::LawLemmas::absent_name))]
pub fn a_name_never_inserted_is_absent()
    ensures { (writes : List Write) (o : List ℕ) (t : ℕ) → list_any (inserts o) writes ≡ false → state writes o t ≡ None }
{}
