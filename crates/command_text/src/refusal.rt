//! Why a line is refused.

ghost use Rattle.std.specs.Prelude.{◌≡◌, Some};
ghost use Rattle.case_table.specs.Rows.{word_of};
ghost use Rattle.case_table.specs.Language.{refusal_names};
ghost use Rattle.command_text.specs.Refusals.{refusal_line, refusal_name, refusal_number};

use std::marker::Model;

/// Why a line is refused, in the order in which it is judged.
#[derive(Clone, Copy, Debug, PartialEq, Eq)]
pub enum Refusal {
    /// The line has too many bytes.
    LineTooLong,
    /// It has a byte other than a tab and 0x20 to 0x7E.
    NotAscii,
    /// It isn't a comment, and at some byte no token begins.
    BadToken,
    /// Its tokens are no command.
    BadSyntax,
    /// A number is out of the range of its place.
    NumberRange,
    /// A size passes its limit.
    TooLarge,
    /// A class, region, object, query, attribute or variable isn't known.
    UnknownName,
    /// The name is taken, or names that must differ are alike.
    NameTaken,
    /// A name or a value is of a kind that its place doesn't take.
    WrongKind,
    /// The points are no convex polygon.
    NotConvex,
    /// A term may pass 10^18.
    TermRange,
    /// The span passes its limit, or reaches past the last tick.
    SpanRange,
    /// The clock would pass the last tick.
    ClockEnd,
    /// An insert of a present object, or an update or removal of an absent one.
    Presence,
    /// The class has had as many names as its capacity.
    ClassFull,
    /// There is no room for one more class, region or registered query.
    StoreFull,
    /// The classes of the query have too many objects.
    BindingLimit,
    /// The journal has no room for the line.
    JournalFull,
    /// The shelf has no text of that name.
    NoFile,
    /// The imported text isn't of the format, or one of its rows would be refused.
    BadFile,
}

impl Refusal {
    /// The number of the refusal, from 1 to 20.
    #[inline]
    pub fn number(self) -> u8
        ensures { result ≡ refusal_number self }
    {
        self as u8 + 1
    }

    /// The line that answers a refused line, without its line feed, as `refused 4 BadSyntax`. Takes no
    /// memory.
    #[inline]
    pub fn line(self) -> RefusalText
        ensures { result ≡ refusal_line self }
    {
        RefusalText { refusal: self }
    }
}

/// The line that answers a refused line. A contract sees its bytes.
#[derive(Drop)]
pub struct RefusalText {
    refusal: Refusal,
}

impl Model for RefusalText {
    ghost use Rattle.std.specs.Prelude.{List, ℕ};
    ghost use Rattle.command_text.specs.Refusals.{refusal_line};

    ghost Value = { List ℕ };

    ghost view = { λ a. refusal_line a.refusal };
}

impl RefusalText {
    /// The bytes of the line, without a line feed.
    #[inline]
    pub fn bytes(&self) -> &[u8]
        ensures { result.now ≡ self.now }
    {
        text_of(self.refusal)
    }
}

#[tactic(auto, unfolding(crate::specs::Refusals::refusal_line, case_table::specs::Language::refusal_names, crate::proofs::Names::digits))]
fn text_of(refusal: Refusal) -> &'static [u8]
    ensures { result.now ≡ refusal_line refusal }
{
    match refusal {
        Refusal::LineTooLong => b"refused 1 LineTooLong",
        Refusal::NotAscii => b"refused 2 NotAscii",
        Refusal::BadToken => b"refused 3 BadToken",
        Refusal::BadSyntax => b"refused 4 BadSyntax",
        Refusal::NumberRange => b"refused 5 NumberRange",
        Refusal::TooLarge => b"refused 6 TooLarge",
        Refusal::UnknownName => b"refused 7 UnknownName",
        Refusal::NameTaken => b"refused 8 NameTaken",
        Refusal::WrongKind => b"refused 9 WrongKind",
        Refusal::NotConvex => b"refused 10 NotConvex",
        Refusal::TermRange => b"refused 11 TermRange",
        Refusal::SpanRange => b"refused 12 SpanRange",
        Refusal::ClockEnd => b"refused 13 ClockEnd",
        Refusal::Presence => b"refused 14 Presence",
        Refusal::ClassFull => b"refused 15 ClassFull",
        Refusal::StoreFull => b"refused 16 StoreFull",
        Refusal::BindingLimit => b"refused 17 BindingLimit",
        Refusal::JournalFull => b"refused 18 JournalFull",
        Refusal::NoFile => b"refused 19 NoFile",
        Refusal::BadFile => b"refused 20 BadFile",
    }
}

/// The name of a refusal is that of its number in the table of the language.
#[tactic(auto, using(crate::proofs::RefusalLemmas::each_is_named))]
pub fn refusals_are_named()
    ensures { (r : Refusal) → word_of refusal_names (refusal_number r) ≡ Some (refusal_name r) }
{}
