//! The commands that write the objects of rows.
ghost use Rattle.std.specs.Prelude.{◌≡◌};
ghost use Rattle.command_text.specs.Tree.{command_view};
ghost use Rattle.object_rows.specs.Commands.{command_of_row};

use crate::ObjectRow;
use command_text::{Command, Moving, Placement};
use fixed_point::Word;

impl ObjectRow {
    /// The command of the row: an update where the object is present, else an insert into the class.
    pub fn into_command(self, class: Word, present: bool) -> Command
        ensures { command_view result ≡ command_of_row class present self }
    {
        let place = Placement {
            at: None,
            moving: Moving::Unset,
        };
        if present {
            Command::Update {
                name: self.name,
                place,
                sets: self.sets,
            }
        } else {
            Command::Insert {
                class,
                name: self.name,
                place,
                sets: self.sets,
            }
        }
    }
}
