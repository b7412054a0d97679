//! The lists of texts that the language fixes, as tables.

ghost use Rattle.std.specs.Prelude.{◌≡◌, ℕ, ◌+◌, ◌≤◌, [], map, length, IsTrue};
ghost use Rattle.case_table.specs.Language.{numbered, each_taken, reserved_words, symbols, refusal_names};

use crate::Table;

// The table of these texts, each with its place as its code, counted from `first`.
fn listed<const N: usize>(texts: &[&[u8]], first: u8) -> Table<N>
    requires fits { first + length texts.now ≤ 255 }
    requires taken { IsTrue (each_taken N [] first (map (λ t. t.now) texts.now)) }
    ensures { result ≡ numbered first (map (λ t. t.now) texts.now) }
{
    let mut table = Table::new();
    let mut code = first;
    for text in texts {
        table.add(text, code);
        code += 1;
    }
    table
}

// The table of these texts, whose codes begin at the first number.
macro_rules! table_from {
    ($first:literal; $($text:literal)*) => {
        listed(&[$($text),*], $first)
    };
}

/// The reserved words: the words of queries, the sub-attributes, the commands and the parts of
/// commands. The code of a word is its place in this list, from 0. Tests alone call it.
#[tactic(auto, unfolding(crate::specs::Language::reserved_words))]
pub fn words() -> Table<48>
    ensures { result ≡ reserved_words }
{
    table_from!(0;
        b"RETRIEVE" b"FROM" b"WHERE" b"TRUE" b"FALSE" b"NOT" b"AND" b"OR" b"UNTIL" b"UNTIL_WITHIN"
        b"UNTIL_AFTER" b"NEXTTIME" b"EVENTUALLY" b"EVENTUALLY_WITHIN" b"EVENTUALLY_AFTER" b"ALWAYS"
        b"ALWAYS_FOR" b"INSIDE" b"OUTSIDE" b"DIST" b"WITHIN_SPHERE" b"TIME"
        b"value" b"updatetime" b"function"
        b"class" b"region" b"insert" b"update" b"remove" b"tick" b"ask" b"watch" b"keep" b"show"
        b"drop" b"list" b"save" b"import" b"export" b"quit"
        b"point" b"num" b"text" b"dyn" b"at" b"move" b"rate")
}

/// The symbols. The code of a symbol is its place in this list, from 0. Tests alone call it.
#[tactic(auto, unfolding(crate::specs::Language::symbols))]
pub fn symbols() -> Table<16>
    ensures { result ≡ symbols }
{
    table_from!(0;
        b"(" b")" b"[" b"]" b"," b"." b"+" b"-" b"*" b"=" b"!=" b"<=" b">=" b"<" b">" b"<-")
}

/// The names of the refusals, in the order in which they are judged. The code of a name is the number
/// of the refusal, from 1. Tests alone call it.
#[tactic(auto, unfolding(crate::specs::Language::refusal_names))]
pub fn refusals() -> Table<20>
    ensures { result ≡ refusal_names }
{
    table_from!(1;
        b"LineTooLong" b"NotAscii" b"BadToken" b"BadSyntax" b"NumberRange" b"TooLarge"
        b"UnknownName" b"NameTaken" b"WrongKind" b"NotConvex" b"TermRange" b"SpanRange"
        b"ClockEnd" b"Presence" b"ClassFull" b"StoreFull" b"BindingLimit" b"JournalFull"
        b"NoFile" b"BadFile")
}
