//! What the theorem says in other words.
ghost use Rattle.feeds_run.specs.Theorem.{IsComplete};

/// A run in which no count of faults rose is whole, or memory was out after a part of its output.
pub fn a_run_without_faults_is_whole()
    ensures { IsComplete }
{}
