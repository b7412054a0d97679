//! Laws of what users hear, each a call without a body.
ghost use Rattle.feeds_laws.specs.Followed.{FollowsNothing, FollowsTheAnswer, HearsWhatIsWritten};
ghost use Rattle.feeds_laws.specs.Written.{WritesTheAnswer};

use command_text::read_commands_are_printable;
use feeds_meaning::users_hear_their_views;
use ftl_typer::queries_without_fault_are_right;
use meaning::{
    interpretations_that_agree_give_the_same_truth, queries_go_on_fitting_their_classes,
    the_answer_is_the_union_of_the_full_rows,
};

/// A replica that hears what one user hears follows the user's query of its name: no line is bad, there is a copy just where
/// such a query is registered, of its kind and at the clock, and at each tick each target is told just where the query's
/// answer tells it. Of a watched query this is so from the clock on, and of a kept one at all ticks.
pub fn replicas_follow_answers()
    ensures registered { FollowsTheAnswer }
    ensures unregistered { FollowsNothing }

    // So at the end the replica writes the rows of the answer, by the names of their objects and in the order of the bytes of
    // these.
    ensures written { WritesTheAnswer }

    // And so does a replica that hears the lines that are written for the user.
    ensures heard { HearsWhatIsWritten }
{
    read_commands_are_printable();
    queries_without_fault_are_right();
    interpretations_that_agree_give_the_same_truth();
    queries_go_on_fitting_their_classes();
    the_answer_is_the_union_of_the_full_rows();
    users_hear_their_views();
}
