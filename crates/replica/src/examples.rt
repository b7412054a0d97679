//! Feeds worked out, as calls without a body.
ghost use Rattle.replica.specs.Example.{FollowsFeeds, RefusesFeeds};

/// A watch and a kept query, rows in the order of their bytes, a stop, and lines of other queries.
pub fn feeds_are_followed()
    ensures { FollowsFeeds }
{}

/// The first line that hasn't its form.
pub fn feeds_are_refused()
    ensures { RefusesFeeds }
{}
