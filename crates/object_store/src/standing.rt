//! The patches of the objects of a store go with the clock.
ghost use Rattle.std.specs.Prelude.{◌≡◌, ◌≤◌, All};
ghost use Rattle.motion.specs.Timeline.{AreBegunBy};
ghost use Rattle.tick_set.specs.declared.spans.TheConstants.{LAST_TICK};
ghost use Rattle.object_store.specs.ObjectView.{objects_of};
ghost use Rattle.object_store.specs.Placing.{ArePlaced, ArePlacedIn};

use crate::horizon::renew_patches;
use crate::objects::Objects;
use places::{Boxes, HORIZONS, Places};
use tick_set::LAST_TICK;

/// Makes the patches of each horizon anew of which less than three quarters lie ahead. No object has been written after
/// the tick `last`.
pub fn stand(places: &mut Places, objects: &Objects, last: u32, now: u32)
    requires begun { All (λ o. AreBegunBy o.epochs last) (objects_of objects.now.entries) }
    requires placed { ArePlaced places.old (objects_of objects.now.entries) }
    ensures { ArePlaced places.new (objects_of objects.now.entries) }
{
    let from = places.from.max(last).max(now);
    places.from = from;
    stand_by(&mut places.short, objects, from, HORIZONS[0]);
    stand_by(&mut places.middle, objects, from, HORIZONS[1]);
    stand_by(&mut places.long, objects, from, HORIZONS[2]);
    stand_by(&mut places.longest, objects, from, HORIZONS[3]);
}

/// Makes the patches of one horizon anew where less than three quarters of its ticks lie ahead.
fn stand_by(boxes: &mut Boxes, objects: &Objects, from: u32, ticks: u32)
    requires begun { All (λ o. AreBegunBy o.epochs from) (objects_of objects.now.entries) }
    requires placed { ArePlacedIn from boxes.old (objects_of objects.now.entries) }
    ensures { ArePlacedIn from boxes.new (objects_of objects.now.entries) }
{
    let wanted = from.saturating_add(ticks / 4 * 3).min(LAST_TICK);
    if boxes.upto() < wanted {
        let upto = from.saturating_add(ticks).min(LAST_TICK);
        renew_patches(boxes, objects, from, upto);
    }
}
