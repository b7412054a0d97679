//! What holds of commands that are carried out, and of sessions that are loaded.
ghost use Rattle.std.specs.Prelude.{◌≡◌, ℕ, List, []};
ghost use Rattle.command_text.specs.Journal.{Accepted};
ghost use Rattle.outside.specs.Shelf.{Texts};
ghost use Rattle.session_file.specs.Text.{session_text};
ghost use Rattle.line_meaning.specs.Loading.{Loaded, loading_of};
ghost use Rattle.line_meaning.specs.Reached.{AreReached, after_lines};
ghost use Rattle.line_meaning.specs.Step.{base, held};
ghost use Rattle.session.specs.Carried.{ReadsLegibly};

use command_text::{
    canonical_lines_are_read_back, canonical_lines_are_short, read_commands_are_printable,
};
use line_meaning::{saved_sessions_are_loaded, steps_write_what_is_accepted};

/// What a line is read as can be carried out: this is what the contract says, and the call does nothing.
pub fn read_commands_are_legible()
    ensures { ReadsLegibly }
{
    read_commands_are_printable();
    canonical_lines_are_short();
    canonical_lines_are_read_back();
}

/// The journal that is loaded of a text is one that steps lead to, so all that holds of those holds of it: the text
/// that is saved after any lines from it on is loaded as the journal then.
pub fn loaded_sessions_are_reached()
    ensures loaded { (text : List ℕ) (journal : List Accepted) → loading_of text ≡ Loaded journal → AreReached [] journal }
    ensures saved { (text : List ℕ) (journal : List Accepted) (texts : Texts) (lines : List (List ℕ)) →
        let last = (after_lines (base (held journal) texts) lines).held.journal in
        loading_of text ≡ Loaded journal → loading_of (session_text last) ≡ Loaded last }
{
    read_commands_are_printable();
    canonical_lines_are_read_back();
    steps_write_what_is_accepted();
    saved_sessions_are_loaded();
}
