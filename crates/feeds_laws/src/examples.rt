//! A feed of two users worked out, as a call without a body.
ghost use Rattle.feeds_laws.specs.Example.{FollowsAUser};

/// A user's watch that is registered and goes on, while another user moves the clock and removes its object: what the first
/// hears, and what a replica says of it.
pub fn a_user_is_followed()
    ensures { FollowsAUser }
{}
