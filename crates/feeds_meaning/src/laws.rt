//! What is written for a user, each law a call without a body.
ghost use Rattle.feeds_meaning.specs.HeardLaw.{HearsAlike, HearsTheView};

/// The lines that are written for a user, of those of all users, are what this user hears of what concerns this user: the
/// user's own lines, and the data commands of others that are accepted. So where these are the same, the user is told the
/// same, whatever else the others send.
#[tactic(auto, using(crate::proofs::HeardLemmas::hears_alike, crate::proofs::HeardLemmas::hears_the_view))]
pub fn users_hear_their_views()
    ensures view { HearsTheView }
    ensures alike { HearsAlike }
{}
