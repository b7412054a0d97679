//! Words and runs worked out, as calls without a body.
ghost use Rattle.feeds_run.specs.Example.{AsksByWords, WritesByWords};

/// The words of users, of a replica, and others.
pub fn words_are_told()
    ensures { AsksByWords }
{}

/// Two users, a replica, and the limit of each.
pub fn runs_are_worked_out()
    ensures { WritesByWords }
{}
