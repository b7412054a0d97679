//! Three motions and a circle.
ghost use Rattle.std.specs.Prelude.{pos, ◌≤ℤ◌};
ghost use Rattle.geometry.specs.declared.limits.TheConstants.{RADIUS_LIMIT};
ghost use Rattle.linear_crossing.specs.Moving.{IsInReach};

use fixed_point::Fix;
use linear_crossing::Line;

/// Three motions, and the radius of a circle that may hold their positions.
#[derive(Clone, Copy)]
pub struct Trial {
    pub p: Line,
    pub q: Line,
    pub s: Line,
    pub r: Fix,
    pub ghost p_in_reach: { IsInReach p },
    pub ghost q_in_reach: { IsInReach q },
    pub ghost s_in_reach: { IsInReach s },
    pub ghost least: { pos 0 ≤ℤ r },
    pub ghost most: { r ≤ℤ pos RADIUS_LIMIT },
}
