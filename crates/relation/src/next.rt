//! The objects that a walk visits for a variable, one after another.

ghost use Rattle.std.specs.Prelude.{◌≡◌, ◌++◌, ℕ, List, if◌then◌else◌};
ghost use Rattle.std.specs.List.Sorted.{IsStrictlyIncreasing};
ghost use Rattle.relation.specs.Group.{IsNextIn, ids_at};
ghost use Rattle.relation.specs.Part.{IsRowPart, offers};
ghost use Rattle.relation.specs.Walk.{goes_left, visited};

use crate::operation::Operation;
use crate::part::Part;
use crate::search::next_in;
use until_merge::Temporal;

// The first object from `from` on that has to be visited, where `ids` is the variable's domain.
pub(crate) fn next_visited<S: Temporal>(
    operation: Operation,
    var: u8,
    ids: &[u32],
    left: &Part<'_, S>,
    right: &Part<'_, S>,
    from: u64,
) -> Option<u32>
    requires { IsStrictlyIncreasing ids.now }
    ensures { (domains : List (List ℕ)) (lo hi : ℕ) → IsRowPart S.member domains lo hi left.now
        → IsRowPart S.member domains lo hi right.now
        → IsNextIn (visited operation var ids.now left.now right.now) from result }
{
    match operation {
        Operation::Meet => next_of_both(var, ids, left, right, from),
        Operation::Union => next_of_either(var, ids, left, right, from),
        Operation::Until(_, _) => next_of_right(var, ids, right, from),
        Operation::Complement => next_in(ids, from),
    }
}

fn next_of_both<S: Temporal>(
    var: u8,
    ids: &[u32],
    left: &Part<'_, S>,
    right: &Part<'_, S>,
    from: u64,
) -> Option<u32>
    requires { IsStrictlyIncreasing ids.now }
    ensures { (domains : List (List ℕ)) (lo hi : ℕ) → IsRowPart S.member domains lo hi left.now
        → IsRowPart S.member domains lo hi right.now
        → IsNextIn (visited Operation.Meet var ids.now left.now right.now) from result }
{
    if goes_left(var, left, right) {
        left.next(from)
    } else {
        next_of_right(var, ids, right, from)
    }
}

// Whether a walk that needs a tick of both goes by the left part: it has no more rows, or the right one doesn't tell
// its objects.
fn goes_left<S: Temporal>(var: u8, left: &Part<'_, S>, right: &Part<'_, S>) -> bool
    ensures { result ≡ goes_left Operation.Meet var left.now right.now }
{
    left.offers(var) && (!right.offers(var) || left.rows.len() <= right.rows.len())
}

fn next_of_right<S: Temporal>(var: u8, ids: &[u32], right: &Part<'_, S>, from: u64) -> Option<u32>
    requires { IsStrictlyIncreasing ids.now }
    ensures { (domains : List (List ℕ)) (lo hi : ℕ) → IsRowPart S.member domains lo hi right.now
        → IsNextIn
        (if offers var right.now then ids_at right.now.place right.now.rows.now else ids.now) from result }
{
    if right.offers(var) {
        right.next(from)
    } else {
        next_in(ids, from)
    }
}

fn next_of_either<S: Temporal>(
    var: u8,
    ids: &[u32],
    left: &Part<'_, S>,
    right: &Part<'_, S>,
    from: u64,
) -> Option<u32>
    requires { IsStrictlyIncreasing ids.now }
    ensures { (domains : List (List ℕ)) (lo hi : ℕ) → IsRowPart S.member domains lo hi left.now
        → IsRowPart S.member domains lo hi right.now
        → IsNextIn (visited Operation.Union var ids.now left.now right.now) from result }
{
    if left.offers(var) && right.offers(var) {
        least(left.next(from), right.next(from))
    } else {
        next_in(ids, from)
    }
}

fn least(first: Option<u32>, second: Option<u32>) -> Option<u32>
    ensures { (xs ys : List ℕ) (from : ℕ) → IsNextIn xs from first → IsNextIn ys from second
        → IsNextIn (xs ++ ys) from result }
{
    match (first, second) {
        (Some(x), Some(y)) => Some(x.min(y)),
        (Some(x), None) => Some(x),
        (None, second) => second,
    }
}
