//! What users hear, worked out, as calls without a body.
ghost use Rattle.feeds_meaning.specs.HeardExample.{HearsAlone};
ghost use Rattle.feeds_meaning.specs.HubExample.{SharesAWorld};

/// One user's watch: its start and its rows, changes by others, the passing of time, its end, and what refuses a line; and one
/// user's index.
pub fn one_user_hears()
    ensures { HearsAlone }
{}

/// Two users of one world, one who comes later, lines of nobody, and a ninth user.
pub fn users_share_a_world()
    ensures { SharesAWorld }
{}
