//! A session is opened by the name of its text.
ghost use Rattle.std.specs.Prelude.{◌≡◌, ◌+◌, ◌≤◌, Some};
ghost use Rattle.outside.specs.Shelf.{Texts};
ghost use Rattle.domino_run.specs.Looks.{looks_of_text};
ghost use Rattle.domino_run.specs.Parts.{OpenHasCause, Opens};

use outside::{OutFail, Shelf};
use session::{LoadFault, Session, load};
use std::alloc::Global;
use std::sync::ledger::Ledger;
use steps::Steps;

/// Why no session was opened.
#[derive(Clone, Copy, Debug)]
pub enum OpenFault {
    /// The shelf failed.
    ShelfFault,
    /// There is no text of this name, for 0; or this is the line of its first fault.
    BadSession(u64),
    /// There was no memory.
    NoMemory,
}

/// Fetches the text of a session and loads it. The text is let go before the first line is answered.
pub fn open<F: Shelf, L: Ledger, M: Ledger>(
    alloc: Global,
    name: &[u8],
    shelf: &mut F,
    reads: &mut Steps<L>,
    probes: &mut Steps<M>,
) -> Result<Session, OpenFault>
    ensures cause { OpenHasCause (F.faults shelf.old) (F.faults shelf.new) result }
    ensures unchanged { F.texts shelf.new ≡ F.texts shelf.old }
    ensures most { (texts : Texts) → F.texts shelf.old ≡ Some texts → reads.new ≤ reads.old + looks_of_text (texts name.now) }
    ensures opens { (texts : Texts) → F.texts shelf.old ≡ Some texts → Opens texts name.now result }
{
    let text = match shelf.fetch(name) {
        Ok(Some(text)) => text,
        Ok(None) => return Err(OpenFault::BadSession(0)),
        Err(OutFail::Failed) => return Err(OpenFault::ShelfFault),
        Err(OutFail::NoMemory) => return Err(OpenFault::NoMemory),
    };
    match load(alloc, &text, reads, probes) {
        Ok(session) => Ok(session),
        Err(LoadFault::BadLine(number)) => Err(OpenFault::BadSession(number)),
        Err(LoadFault::NoMemory) => Err(OpenFault::NoMemory),
    }
}
