//! The objects of a class as a text of csv, both ways.
ghost use Rattle.std.specs.Prelude.{◌≡◌, None, length, option_map, IfErr, IfOk, IsOk};
ghost use Rattle.history.specs.Catalog.{attributes_of_class, class_of};
ghost use Rattle.object_rows.specs.Rows.{rows_in};
ghost use Rattle.line_meaning.specs.Fault.{class_refusal, is_present};
ghost use Rattle.line_meaning.specs.Files.{class_text};
ghost use Rattle.line_meaning.specs.Looks.{objects_of_class};
ghost use Rattle.database.specs.Keeping.{clock_of, IsTimely, world_of_database};
ghost use Rattle.database.specs.Telling.{IsRefused, IsStoppedBy};
ghost use Rattle.steps.specs.Counting.{StepsAtMost};

use crate::database::Database;
use command_text::{CommandFault, Refusal};
use fixed_point::Word;
use object_rows::{CsvFault, ObjectRow, import_rows};
use std::alloc::{AllocError, Global};
use std::sync::ledger::Ledger;
use steps::Steps;

impl Database {
    /// Why no objects of a class can be told or taken in: `UnknownName` exactly where there is no class of this
    /// name. It takes no memory.
    pub fn class_refusal(&self, class: &Word) -> Option<Refusal>
        ensures { result ≡ class_refusal (world_of_database self.now).history.catalog class.now }
    {
        match self.store.schema().class_of(class) {
            Some(_) => None,
            None => Some(Refusal::UnknownName),
        }
    }

    /// The objects of a class that are present now, as a text of csv. It takes at most one step of `reads` for each
    /// object that was ever inserted into the class. Where there is no class of this name it is refused and takes
    /// none; want of memory is told only where there is one.
    pub fn export_text<L: Ledger>(
        &self,
        alloc: Global,
        class: &Word,
        reads: &mut Steps<L>,
    ) -> Result<Vec<u8>, CommandFault>
        requires timely { IsTimely self.now }
        ensures accepted { IsOk result → class_refusal (world_of_database self.now).history.catalog class.now ≡ None }
        ensures text { IfOk result (λ text. text.items ≡ class_text (world_of_database self.now) (clock_of self.now) class.now) }
        ensures cause { IfErr result (λ fault. IsStoppedBy (class_refusal (world_of_database self.now).history.catalog class.now) fault) }
        ensures reads { StepsAtMost reads.old reads.new
            (length (objects_of_class (world_of_database self.now).history.catalog class.now)) }
        ensures unread { IfErr result (λ fault. IsRefused fault → reads.new ≡ reads.old) }
    {
        let Some(number) = self.store.schema().class_of(class) else {
            return Err(CommandFault::Refused(Refusal::UnknownName));
        };
        let text = object_rows::export_text(alloc, number, &self.store, self.clock, reads)?;
        Ok(text)
    }

    /// The objects that a text of csv holds for a class that is there, in the order of the rows. None exactly where
    /// the text isn't of the format. Whether a row's command is accepted isn't judged.
    pub fn rows_of(
        &self,
        alloc: Global,
        class: &Word,
        text: &[u8],
    ) -> Result<Option<Vec<ObjectRow>>, AllocError>
        requires known { class_refusal (world_of_database self.now).history.catalog class.now ≡ None }
        ensures { IfOk result (λ rows. option_map (λ v. v.items) rows
            ≡ rows_in (attributes_of_class (class_of (world_of_database self.now).history.catalog class.now)) text.now) }
    {
        let schema = self.store.schema();
        let number = schema.class_of(class).unwrap();
        let class = schema.class(number).unwrap();
        match import_rows(alloc, text, class) {
            Ok(rows) => Ok(Some(rows)),
            Err(CsvFault::BadRows) => Ok(None),
            Err(CsvFault::NoMemory) => Err(AllocError),
        }
    }

    /// Whether the object of a name is present now.
    pub fn is_present(&self, name: &Word) -> bool
        requires timely { IsTimely self.now }
        ensures { result ≡ is_present (world_of_database self.now).history name.now (clock_of self.now) }
    {
        match self.store.id_of(name) {
            Some(id) => self.store.present(id),
            None => false,
        }
    }
}
