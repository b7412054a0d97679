//! The lines one after another.
ghost use Rattle.std.specs.Prelude.{◌≡◌, ◌∷◌, [], OnOk, OnErr, IfOk, true, false, if◌then◌else◌, MatchResult};
ghost use Rattle.generator.specs.Lines.{lines_of};
ghost use Rattle.generator.specs.Next.{GivesNext};

use crate::draws::Draws;
use crate::plan::line_at;
use crate::writing::push_line;
use std::alloc::AllocError;
use std::marker::Model;

/// The lines that are still to come. A contract sees their list.
#[derive(Drop)]
pub struct Generator {
    draws: Draws,
    // The place of the next line, from 0.
    place: u32,
}

impl Model for Generator {
    ghost use Rattle.std.specs.Prelude.{ℕ, List, drop};
    ghost use Rattle.generator.specs.Lines.{lines_from, plan};

    ghost Value = { List (List ℕ) };

    ghost view = { λ g. lines_from g.draws.state (drop g.place plan) };
}

impl Generator {
    /// The lines of a number, of which the remainder of a division by 2^31 counts. Takes no memory.
    #[tactic(auto, unfolding(crate::specs::Lines::lines_of))]
    pub fn new(number: u32) -> Generator
        ensures { result ≡ lines_of number }
    {
        Generator {
            draws: Draws::new(number),
            place: 0,
        }
    }

    /// Puts the next line, without a line feed, in place of what `line` held, and answers `true`; or
    /// answers `false`, and changes nothing, where there is none. After an `Err` the same line is still
    /// to come, and what `line` has is not told.
    #[tactic(auto, using(crate::proofs::PlanLemmas::next_is, crate::proofs::PlanLemmas::none_left))]
    pub fn next_line(&mut self, line: &mut Vec<u8>) -> Result<bool, AllocError>
        ensures ok { IfOk result (GivesNext self.old self.new line.old.items line.new.items) }
        ensures err { OnErr result (self.new ≡ self.old) }
    {
        let Some(next) = line_at(self.place) else {
            return Ok(false);
        };
        let mut draws = self.draws;
        line.clear();
        push_line(line, next, &mut draws)?;
        self.draws = draws;
        self.place += 1;
        Ok(true)
    }
}
