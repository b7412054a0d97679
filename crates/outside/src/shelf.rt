// Where named texts lie.
ghost use Rattle.std.specs.Prelude.{◌≡◌, ℕ, List, Option, None, IfOk};
ghost use Rattle.std.specs.Option.{option_map};
ghost use Rattle.outside.specs.Faults.{HasCauseOrNoMemory};
ghost use Rattle.outside.specs.Shelf.{Texts, Finds, Stores};

use crate::OutFail;

/// What keeps texts by their names.
pub trait Shelf {
    /// How often a call failed. It never falls.
    ghost faults: { Self → ℕ };

    /// The text under each name, where they are told. `None` claims nothing.
    ghost texts: { Self → Option Texts } = { λ _. None };

    /// The text under the name, or `None` where there is none. It changes no text.
    fn fetch(&mut self, name: &[u8]) -> Result<Option<Vec<u8>>, OutFail>
        ensures cause { HasCauseOrNoMemory (faults self.old) (faults self.new) result }
        ensures found { IfOk result (λ found. Finds (texts self.old) name.now (option_map (λ text. text.items) found)) }
        ensures unchanged { texts self.new ≡ texts self.old };

    /// Puts the text under the name, in place of the one that is there. After `Failed` the text under this name
    /// is unknown; after `NoMemory` it is as it was. No other text changes.
    fn store(&mut self, name: &[u8], text: &[u8]) -> Result<(), OutFail>
        ensures cause { HasCauseOrNoMemory (faults self.old) (faults self.new) result }
        ensures text { Stores (texts self.old) (texts self.new) name.now text.now result };
}
