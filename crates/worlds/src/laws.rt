//! Laws of the definitions, as calls without a result.
ghost use Rattle.worlds.specs.Between.{HoldsIfInSome, HoldsInEach, IsPlainUnmoved, IsPlainWithoutError, LiesBetween};

use meaning::{
    atoms_that_hold_more_make_it_hold_more, interpretations_that_agree_give_the_same_truth,
};
use polygon::{corners_stand_together, near_places_stand_together};

/// In each world in which no object is off by more than the error along an axis at any tick, a formula without NOT holds
/// where it surely holds; and where it holds in such a world, it possibly holds.
pub fn worlds_lie_between()
    ensures surely { HoldsInEach }
    ensures possibly { HoldsIfInSome }

    // In the world in which no object is off, all is as it is told: so that lies between the two.
    ensures unmoved { IsPlainUnmoved }
    ensures between { LiesBetween }
{
    corners_stand_together();
    near_places_stand_together();
    atoms_that_hold_more_make_it_hold_more();
    interpretations_that_agree_give_the_same_truth();
}

/// By an error of 0, what is told is what surely holds, and what possibly does.
pub fn without_error_all_is_told()
    ensures { IsPlainWithoutError }
{
    corners_stand_together();
    interpretations_that_agree_give_the_same_truth();
}
