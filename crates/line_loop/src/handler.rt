// The code of a line machine.
ghost use Rattle.std.specs.Prelude.{◌≡◌, ◌≤◌, ◌+◌, ℕ, List, Option, Some, false, OnErr};
ghost use Rattle.outside.specs.Faults.{HasCauseOrNoMemory};
ghost use Rattle.outside.specs.declared.fault.OutFail.TheVariants.{Failed};
ghost use Rattle.line_loop.specs.Kept.{IsLonger};
ghost use Rattle.line_loop.specs.Machine.{Machine, Failures, StepsAlike, AnswersLine};
ghost use Rattle.line_loop.specs.Spending.{Costs};

use outside::OutFail;

/// A line machine in code, with a context that it may use to answer, as a shelf of texts.
pub trait Handler<C> {
    /// The states of the machine.
    ghost State: { Type 0 };

    /// The machine.
    ghost machine: { Machine State };

    /// The state that the handler and the context tell together. `None` claims nothing.
    ghost state: { Self → C → Option State };

    /// How often the context failed. It never falls.
    ghost faults: { C → ℕ };

    /// What a failure on a line may leave of the state before it.
    ghost leaves: { Failures State };

    /// What the handler has spent so far, by a count that it keeps.
    ghost spent: { Self → ℕ };

    /// The most that a line may cost.
    ghost cost: { Costs State };

    ghost LONGEST: { Option ℕ };

    /// The length in bytes of the longest line whose bytes matter: all longer ones step alike. With `None` the bytes of
    /// every line matter.
    const LONGEST: Option<u32>;

    /// Whether the machine takes no more lines.
    fn is_done(&self) -> bool
        ensures { (context : C) (now : State) → state self.now context ≡ Some now → result ≡ machine.done now };

    /// Whether the line, without its end, may ask the context. What it answers `false` of never fails by the context.
    /// It may answer `true` of other lines too: the replies before such a line are written before it is answered.
    fn asks(&self, line: &[u8]) -> bool
        ensures { (context : C) (now : State) (told : Option State) → state self.now context ≡ Some now →
            result ≡ false → leaves Failed now line.now told → ⊥ };

    /// Takes a line without its end: appends the reply to `out` and goes on to the next state. `Failed` is a fault of
    /// the context, whose count rose.
    fn answer(&mut self, line: &[u8], context: &mut C, out: &mut Vec<u8>) -> Result<(), OutFail>
        ensures cause { HasCauseOrNoMemory (faults context.old) (faults context.new) result }
        ensures step { (before : State) → state self.old context.old ≡ Some before →
            AnswersLine machine leaves before line.now result out.old.items out.new.items (state self.new context.new) }
        ensures spends { (before : State) → state self.old context.old ≡ Some before →
            spent self.new ≤ spent self.old + cost before line.now };

    /// Lines longer than `LONGEST` step alike and cost alike: this is what the contract says, and the call does nothing.
    fn long_lines_step_alike()
        ensures steps { (a b : List ℕ) → IsLonger LONGEST a → IsLonger LONGEST b → StepsAlike machine leaves a b }
        ensures costs { (a b : List ℕ) → IsLonger LONGEST a → IsLonger LONGEST b → (state : State) → cost state a ≡ cost state b };
}
