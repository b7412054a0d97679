//! Whole texts.
ghost use Rattle.std.specs.Prelude.{◌≡◌, map, None, IfOk, IfErr};
ghost use Rattle.session_file.specs.declared.fault.FileFault.TheVariants as faults;
ghost use Rattle.session_file.specs.Lacks.{LacksMemoryAt};
ghost use Rattle.session_file.specs.Reading.{ExplainsReading, loaded_view, reading_of};

use crate::{FileFault, Loaded, SessionReader};
use std::alloc::Global;

/// The commands of a session's text, in order, each with the number of its line. An `Err` is the first
/// fault by place, or want of memory at a line before which there is none.
pub fn load(alloc: Global, text: &[u8]) -> Result<Vec<Loaded>, FileFault>
    ensures ok { IfOk result (λ loaded. reading_of text.now ≡ record { commands = map loaded_view loaded.items; fault = None }) }
    ensures fault { IfErr result (ExplainsReading (reading_of text.now)) }
    ensures memory { IfErr result (λ fault. fault ≡ faults.NoMemory → LacksMemoryAt (reading_of text.now)) }
{
    let mut reader = SessionReader::new(alloc, text)?;
    let mut loaded = Vec::new(alloc);
    'commands: while let Some(next) = reader.next_command()? {
        loaded.push(next)?;
    }
    Ok(loaded)
}

/// Whether a text is a session's: its first fault by place, if it has one, or want of memory at a line before which
/// there is none. Holds one command at a time.
pub fn check(alloc: Global, text: &[u8]) -> Result<(), FileFault>
    ensures ok { IfOk result (λ _. (reading_of text.now).fault ≡ None) }
    ensures fault { IfErr result (ExplainsReading (reading_of text.now)) }
    ensures memory { IfErr result (λ fault. fault ≡ faults.NoMemory → LacksMemoryAt (reading_of text.now)) }
{
    let mut reader = SessionReader::new(alloc, text)?;
    'commands: while let Some(next) = reader.next_command()? {
        drop(next);
    }
    Ok(())
}
