//! Laws of registered queries and their rows, each a call that does nothing.
ghost use Rattle.std.specs.Prelude.{◌≡◌, ◌<◌, ◌≤◌, ◌++◌, ℕ, false, true, All, List, length};
ghost use Rattle.geometry.specs.Region.{Region};
ghost use Rattle.history.specs.Catalog.{ClassInfo};
ghost use Rattle.history.specs.History.{ChangesFrom, History, cells_at};
ghost use Rattle.history.specs.World.{World};
ghost use Rattle.meaning.specs.Agreement.{world_with};
ghost use Rattle.meaning.specs.Fits.{FitsItsClasses};
ghost use Rattle.tick_set.specs.Runs.{spans_have};
ghost use Rattle.tick_set.specs.declared.spans.Span.{Span};
ghost use Rattle.kept_rows.specs.declared.change.Change.{Change};
ghost use Rattle.kept_rows.specs.Changes.{rows_after};
ghost use Rattle.kept_rows.specs.Numbers.{counts};
ghost use Rattle.live_queries.specs.Asked.{FitsWorld};
ghost use Rattle.live_queries.specs.Columns.{column_variables, gives, object_at_number};
ghost use Rattle.live_queries.specs.Current.{AreCurrent, IsCurrentFor, row_at, told_from};
ghost use Rattle.meaning.specs.Registered.{changes_of_tick, changes_of_write, registered_answer};
ghost use Rattle.live_queries.specs.Kept.{IsKeptQuery, KeptQuery, registered_query};
ghost use Rattle.live_queries.specs.Told.{answer_of, moves_of, passings_of, told_changes};
ghost use Rattle.live_queries.specs.Prepared.{AreFreshFor, AreMade, IsFreshFor, IsMade};
ghost use Rattle.live_queries.specs.declared.fresh.Renewal.{Renewal};
ghost use Rattle.live_queries.specs.Renewed.{AddsAtMost, ChangesNoObject, IsRenewed, IsSameRequest};

use meaning::{
    absent_objects_satisfy_no_query, expired_queries_stay,
    interpretations_that_agree_give_the_same_truth, other_objects_stay,
    queries_go_on_fitting_their_classes, the_past_changes_as_far_back_as_the_reach,
    the_past_changes_by_what_comes_after,
};

/// What is current before a write to an object is current after it, once the bindings that hold the object are
/// judged anew, of a kept query from the first tick that sees the write on: another binding has the same states at each
/// tick, and a formula that sees so many ticks ahead sees no write that is further ahead. The rows of a query whose expiry
/// is before the write stay as they are.
pub fn a_write_keeps_queries_current()
    ensures { (id now : ℕ) (old new : History) → ChangesFrom id now old new → AddsAtMost id old.catalog new.catalog
        → (regions : List Region) (k k' : KeptQuery) → IsKeptQuery k → IsKeptQuery k'
        → IsCurrentFor (world_with old regions) now k → IsRenewed (world_with new regions) id now k k'
        → IsCurrentFor (world_with new regions) now k' }
{
    other_objects_stay();
    expired_queries_stay();
    the_past_changes_as_far_back_as_the_reach();
    absent_objects_satisfy_no_query();
}

/// A write changes no row of a binding that doesn't hold its object, at any tick, and no row of a query whose expiry is
/// before it. So it is of watched queries too, of whose rows nothing else is said at the ticks before the write.
pub fn other_rows_stay()
    ensures others { (w : World) (id now : ℕ) (k k' : KeptQuery) → IsRenewed w id now k k'
        → (n : ℕ) → gives k'.columns id n ≡ false → (t : ℕ) → row_at k' n t ≡ row_at k n t }
    ensures expired { (w : World) (id now : ℕ) (k k' : KeptQuery) → IsRenewed w id now k k'
        → k.expiry < now → (n t : ℕ) → row_at k' n t ≡ row_at k n t }
{}

/// An insert of a new name moves no number: each binding that there was has its number and its objects still.
pub fn a_write_moves_no_binding()
    ensures { (id now : ℕ) (old new : History) → ChangesFrom id now old new → AddsAtMost id old.catalog new.catalog
        → (regions : List Region) (k k' : KeptQuery) → IsKeptQuery k → IsKeptQuery k'
        → IsCurrentFor (world_with old regions) now k → IsRenewed (world_with new regions) id now k k'
        → (n : ℕ) → counts (column_variables k.columns) n ≡ true
        → (counts (column_variables k'.columns) n ≡ true) × ((v : ℕ) → object_at_number k'.columns n v ≡ object_at_number k.columns n v) }
{}

/// The recorded past is joined to the future that the motions imply: a write changes what is told of the row of a
/// binding, of a kept query before it too, only where it changes the states of its objects from then on.
pub fn a_row_changes_by_what_comes_after()
    ensures { (id now : ℕ) (old new : History) → ChangesFrom id now old new → AddsAtMost id old.catalog new.catalog
        → (regions : List Region) (k k' : KeptQuery) → IsKeptQuery k → IsKeptQuery k'
        → IsCurrentFor (world_with old regions) now k → IsRenewed (world_with new regions) id now k k'
        → (n : ℕ) → counts (column_variables k.columns) n ≡ true
        → ((v : ℕ) → v < length k.query.classes → (t : ℕ) → now ≤ t → t ≤ k.expiry
        → cells_at old (object_at_number k.columns n v) t ≡ cells_at new (object_at_number k.columns n v) t)
        → (t : ℕ) → told_from k now ≤ t → row_at k' n t ≡ row_at k n t }
{
    a_write_keeps_queries_current();
    the_past_changes_by_what_comes_after();
}

/// A class or a region that is added changes nothing of what is current, and the passing of time doesn't: the fewer
/// ticks are told.
pub fn writes_to_no_object_keep_queries_current()
    ensures { (old new : World) → ChangesNoObject old new → (before now : ℕ) → before ≤ now
        → (k : KeptQuery) → FitsItsClasses old k.query
        → IsCurrentFor old before k → IsCurrentFor new now k }
{
    interpretations_that_agree_give_the_same_truth();
}

/// What is told of a query that is current, by its rows alone, is its answer at that tick and what the passing of time
/// changes from then on.
pub fn current_queries_tell_their_answers()
    ensures answer { (w : World) (k : KeptQuery) → IsKeptQuery k → (now : ℕ) → IsCurrentFor w now k
        → k.entry ≤ now → answer_of k now ≡ registered_answer w (registered_query k) now }
    ensures passed { (w : World) (k : KeptQuery) → IsKeptQuery k → (before now : ℕ) → IsCurrentFor w before k
        → k.entry ≤ before → before ≤ now
        → passings_of before now k ≡ told_changes k.name (changes_of_tick w (registered_query k) before now) }
{}

/// What changes of rows are told to change, before they are made, is what the write changes for the targets of the
/// query, where its rows become current by them.
pub fn prepared_changes_tell_what_a_write_changes()
    ensures { (id now : ℕ) (old new : History) → ChangesFrom id now old new → AddsAtMost id old.catalog new.catalog
        → (regions : List Region) (k k' : KeptQuery) → IsKeptQuery k → IsKeptQuery k'
        → IsCurrentFor (world_with old regions) now k → IsRenewed (world_with new regions) id now k k'
        → (changes : List (Change (List Span))) → ((c t : ℕ) → row_at k' c t ≡ rows_after spans_have changes (row_at k) c t)
        → k.entry ≤ now
        → moves_of id now k changes
        ≡ told_changes k.name (changes_of_write (world_with old regions) (world_with new regions) (registered_query k) now) }
{
    a_write_keeps_queries_current();
}

/// What was prepared of a write in a world renews a query once it is made.
pub fn prepared_writes_renew_queries()
    ensures { (w : World) (object class now : ℕ) (r : Renewal) (k k' : KeptQuery)
        → IsFreshFor w object class now k r → IsMade object class r k k' → IsRenewed w object now k k' }
{}

/// What was prepared of a write for all queries, once it is made, keeps them all current.
pub fn committed_writes_keep_queries_current()
    ensures { (id now class : ℕ) (old new : History) → ChangesFrom id now old new → AddsAtMost id old.catalog new.catalog
        → (regions : List Region) (rs : List Renewal) (live live' : List KeptQuery) → All IsKeptQuery live → All IsKeptQuery live'
        → AreCurrent (world_with old regions) now live → AreFreshFor (world_with new regions) id class now live rs
        → AreMade id class rs live live' → AreCurrent (world_with new regions) now live' }
{
    a_write_keeps_queries_current();
    prepared_writes_renew_queries();
}

/// A query goes on fitting a world where classes and regions are added, and once a write to an object is made.
pub fn queries_go_on_fitting_worlds()
    ensures { (old new : World) (m : List ClassInfo) (n : List Region)
        → new.history.catalog.classes ≡ old.history.catalog.classes ++ m → new.regions ≡ old.regions ++ n
        → (k k' : KeptQuery) → IsSameRequest k k' → FitsWorld old k → FitsWorld new k' }
{
    queries_go_on_fitting_their_classes();
}
