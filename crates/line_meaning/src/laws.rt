//! Laws of the step, each a call without a body whose contract is the law.
ghost use Rattle.std.specs.Prelude.{◌≡◌, ℕ, ◌+◌, ◌-◌, ◌<◌, ◌≤◌, ◌++◌, true, false, List, [], None, Some, find, length, option_map, slice_get, take};
ghost use Rattle.std.specs.List.{AllByRecursion};
ghost use Rattle.command_text.specs.declared.reading.TheConstants.{LINE_LIMIT};
ghost use Rattle.command_text.specs.declared.refusal.Refusal.TheVariants.{LineTooLong};
ghost use Rattle.command_text.specs.declared.refusal.Refusal.{Refusal};
ghost use Rattle.command_text.specs.Refusals.{refusal_line, refusal_number};
ghost use Rattle.command_text.specs.Journal.{Accepted, spelled};
ghost use Rattle.command_text.specs.Shape.{IsPrintable, IsShortName};
ghost use Rattle.command_text.specs.Text.{text_of};
ghost use Rattle.command_text.specs.Tree.{CommandTree, Save};
ghost use Rattle.session_file.specs.declared.kept.TheConstants.{SESSION_LINE_LIMIT};
ghost use Rattle.session_file.specs.Text.{session_text};
ghost use Rattle.outside.specs.Shelf.{Texts};
ghost use Rattle.history.specs.Catalog.{empty_catalog};
ghost use Rattle.meaning.specs.Accepted.{are_accepted};
ghost use Rattle.line_meaning.specs.Alike.{AreAlike};
ghost use Rattle.line_meaning.specs.InWorlds.{AskLiesBetween, SurelyIsSo, WhatIsSoMayBe};
ghost use Rattle.object_rows.specs.declared.rows.ObjectRow.{ObjectRow};
ghost use Rattle.line_meaning.specs.Import.{MayBeLoaded, rows_for};
ghost use Rattle.line_meaning.specs.Journal.{writes};
ghost use Rattle.line_meaning.specs.Loading.{IsBadLine, Loaded, loading_of};
ghost use Rattle.line_meaning.specs.Reached.{AreReached, after_lines};
ghost use Rattle.line_meaning.specs.Role.{is_on_indexes};
ghost use Rattle.line_meaning.specs.Refusing.{all_refusals, refuses};
ghost use Rattle.line_meaning.specs.Reply.{line_feed};
ghost use Rattle.line_meaning.specs.Step.{Base, Held, base, fault_of, held, held_after, line_refusal, refusal_of, step};

use command_text::{canonical_lines_are_short, read_commands_are_printable};
use object_rows::{commands_are_printable, row_lines_are_short};
use session_file::{cut_texts_are_bad, saved_texts_are_loaded};
use worlds::worlds_lie_between;

/// All lines of more than 4,096 bytes are refused by LineTooLong, so that no more of them need be kept.
pub fn long_lines_step_alike()
    ensures refusal { (h : Held) (line : List ℕ) → LINE_LIMIT < length line
        → line_refusal h line ≡ Some LineTooLong }
    ensures step { (b : Base) (line : List ℕ) → LINE_LIMIT < length line
        → step b line ≡ (b, refusal_line LineTooLong ++ line_feed) }
{}

/// The writes of a journal that steps lead to are accepted writes, so all that holds of the states that
/// accepted writes lead to holds of what such a journal tells.
pub fn steps_write_what_is_accepted()
    ensures writes { (journal : List Accepted) → AreReached [] journal
        → are_accepted empty_catalog 0 (writes journal) ≡ true }

    // The empty journal is one that steps lead to, and each accepted command and each step lead from one to
    // another.
    ensures none { AreReached [] [] }
    ensures command { (h : Held) (c : CommandTree) → IsPrintable c → length (text_of c) ≤ SESSION_LINE_LIMIT
        → fault_of h c ≡ None → AreReached [] h.journal → AreReached [] (held_after h c).journal }
    ensures step { (b : Base) (line : List ℕ) → AreReached [] b.held.journal
        → AreReached [] (step b line).0.held.journal }
{
    read_commands_are_printable();
    canonical_lines_are_short();
    commands_are_printable();
    row_lines_are_short();
}

/// The command of each row of a text that is imported may be a line of a session's text, so a session with such rows can
/// be saved and loaded.
pub fn imported_rows_may_be_loaded()
    ensures { (journal : List Accepted) (class text : List ℕ) (rows : List ObjectRow) → AreReached [] journal → IsShortName class
        → rows_for journal class text ≡ Some rows → AllByRecursion (MayBeLoaded class) rows }
{
    row_lines_are_short();
}

/// The text of a journal that steps lead to is loaded as this journal; so it is after any lines, from the
/// empty journal on, and so is what an accepted `save` puts on the shelf.
pub fn saved_sessions_are_loaded()
    ensures journals { (journal : List Accepted) → AreReached [] journal
        → loading_of (session_text journal) ≡ Loaded journal }
    ensures lines { (texts : Texts) (lines : List (List ℕ)) →
        let journal = (after_lines (base (held []) texts) lines).held.journal in
        loading_of (session_text journal) ≡ Loaded journal }
    ensures saved { (b : Base) (line file : List ℕ) → AreReached [] b.held.journal → refusal_of b line ≡ None
        → spelled line ≡ Save file → option_map loading_of ((step b line).0.texts file) ≡ Some (Loaded b.held.journal) }
{
    saved_texts_are_loaded();
    steps_write_what_is_accepted();
}

/// The text of a journal that steps lead to, cut anywhere, is bad at a line: it is never loaded as another journal.
/// Without the last line feed alone it is loaded as the whole one.
pub fn cut_sessions_are_bad()
    ensures cut { (journal : List Accepted) (n : ℕ) → AreReached [] journal → n + 1 < length (session_text journal)
        → IsBadLine (loading_of (take n (session_text journal))) }
    ensures feed { (journal : List Accepted) (n : ℕ) → AreReached [] journal → n + 1 ≡ length (session_text journal)
        → loading_of (take n (session_text journal)) ≡ Loaded journal }
{
    cut_texts_are_bad();
    saved_texts_are_loaded();
}

/// A line is refused by the first of the twenty refusals that holds of it, in the order of their numbers, and
/// accepted where none holds.
pub fn refusals_come_in_order()
    ensures first { (b : Base) (line : List ℕ) → refusal_of b line ≡ find (refuses b line) all_refusals }

    // Each refusal stands in the list at the place of its number.
    ensures places { (r : Refusal) → slice_get all_refusals (refusal_number r - 1) ≡ Some r }
{}

/// Of a query that a `must` and a `may` are answered: what `must` tells is so in each world in which no object is off by more
/// than the error, along an axis at any tick, and what is so in some such world, `may` tells.
pub fn answers_lie_between()
    ensures surely { SurelyIsSo }
    ensures possibly { WhatIsSoMayBe }

    // So the answer of an `ask` lies between the two.
    ensures between { AskLiesBetween }
{
    worlds_lie_between();
}

/// No reply depends on the indexes but those to `index` and `range`, nor does what the other lines leave: the later replies of
/// all other lines are functions of the journal, the texts of the shelf and the lines.
pub fn indexes_change_no_other_reply()
    ensures replies { (b d : Base) (line : List ℕ) → AreAlike b d → is_on_indexes (spelled line) ≡ false
        → (step b line).1 ≡ (step d line).1 }
    ensures states { (b d : Base) (lines : List (List ℕ)) → AreAlike b d → AreAlike (after_lines b lines) (after_lines d lines) }
{}
