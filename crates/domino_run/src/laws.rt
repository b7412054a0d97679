//! What the theorem says in other words, and the limits.
ghost use Rattle.std.specs.Prelude.{◌≡◌, ◌^◌, ℕ, true, List, Some};
ghost use Rattle.outside.specs.Shelf.{Texts};
ghost use Rattle.run_ends.specs.declared.status.Status.{Status};
ghost use Rattle.run_ends.specs.Ends.{EndsAs, IsWhole, IsWholeOrPart, NoneRose, Seen, Setting, says_all};
ghost use Rattle.domino_run.specs.Machine.{RunState, run_leaves, run_machine, texts_in};
ghost use Rattle.domino_run.specs.Theorem.{RunsAs, run_setting};
ghost use Rattle.domino_run.specs.Words.{Words};
ghost use Rattle.domino_run.specs.declared.running.TheConstants.{INPUT_LIMIT};
ghost use Rattle.domino_run.specs.declared.words.TheConstants.{MOST_DIGITS};

/// The limits, in numbers.
pub fn limits_in_numbers()
    ensures input { INPUT_LIMIT ≡ 2 ^ 30 }
    ensures digits { MOST_DIGITS ≡ 9 }
{}

/// A run whose status says that it is whole has written all and left all texts as they are to be. Where no count of
/// faults rose, every run is whole, or memory was out after a part of its output.
pub fn a_run_without_faults_is_whole()
    ensures by_status { (g : Setting RunState) (status : Status) (after : Seen) → says_all status ≡ true →
        EndsAs run_machine run_leaves texts_in g status after → IsWhole run_machine texts_in g status after }
    ensures complete { (limit : ℕ) (words : Words) (before after : Seen) (looks looks' : ℕ) (status : Status)
        (bytes written : List ℕ) (texts : Texts) → RunsAs limit words before after looks looks' status →
        before.left ≡ Some bytes → before.written ≡ Some written → before.texts ≡ Some texts →
        NoneRose before.faults after.faults →
        IsWholeOrPart run_machine texts_in (run_setting words limit bytes written texts) status after }
{}
