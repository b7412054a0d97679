//! How many commands a text says it has, and how many came.
ghost use Rattle.std.specs.Prelude.{◌≡◌, ◌+◌, ◌*◌, ◌^◌, ◌<◌, ◌≤◌, option_map, codes, IfSome, length, true};
ghost use Rattle.std.specs.Char.{is_ascii_digit};
ghost use Rattle.std.specs.List.{prefix_len};
ghost use Rattle.std.specs.Str.Parse.{digits_value};
ghost use Rattle.fixed_point.specs.Decimal.{AreDigits, digits_at};
ghost use Rattle.fixed_point.specs.declared.reading.TheConstants.{WHOLE_DIGITS_LIMIT};
ghost use Rattle.fixed_point.specs.Digits.{has_spare_zero};
ghost use Rattle.command_text.specs.declared.journal.TheConstants.{MOST_ENTRIES};
ghost use Rattle.command_text.specs.Tree.{command_view};
ghost use Rattle.session_file.specs.Counts.{after_word, counts_of, whole_in_front};
ghost use Rattle.command_text.specs.Journal.{ticks_of};
ghost use Rattle.session_file.specs.Reading.{may_end, may_go_on, progress_after};
ghost use Rattle.session_file.specs.Fits.{Fits};

use command_text::{Command, MOST_ENTRIES};
use fixed_point::WHOLE_DIGITS_LIMIT;
use tick_set::LAST_TICK;

/// Commands, and the ticks that they let pass.
#[derive(Clone, Copy)]
pub(crate) struct Counts {
    pub commands: u64,
    pub ticks: u64,
}

/// What a text of format 2 says it has, and what came of it. Of format 1 nothing is counted.
#[derive(Clone, Copy)]
pub(crate) struct Progress {
    pub said: Option<Counts>,
    pub seen: Counts,
}

impl Progress {
    /// No command has come.
    pub fn new(said: Option<Counts>) -> Progress
        ensures { result ≡ record { said = said; seen = record { commands = 0; ticks = 0 } } }
    {
        Progress {
            said,
            seen: Counts {
                commands: 0,
                ticks: 0,
            },
        }
    }

    /// Whether one more command may come.
    pub fn may_go_on(&self) -> bool
        ensures { result ≡ may_go_on self.now }
    {
        match &self.said {
            Some(said) => self.seen.commands < said.commands,
            None => true,
        }
    }

    /// Whether the end may come.
    pub fn may_end(&self) -> bool
        ensures { result ≡ may_end self.now }
    {
        match &self.said {
            Some(said) => self.seen.commands == said.commands && self.seen.ticks == said.ticks,
            None => true,
        }
    }

    /// Counts a command that may come.
    pub fn counted(&self, command: &Command) -> Progress
        requires room { may_go_on self.now ≡ true }
        requires fits { Fits self.now }
        ensures value { result ≡ progress_after self.now (command_view command.now) }
        ensures fits { Fits result }
    {
        match &self.said {
            Some(said) => Progress {
                said: Some(*said),
                seen: Counts {
                    commands: self.seen.commands + 1,
                    ticks: self.seen.ticks + u64::from(ticks_of(command)),
                },
            },
            None => *self,
        }
    }
}

fn ticks_of(command: &Command) -> u32
    ensures { result ≡ ticks_of (command_view command.now) }
{
    match command {
        Command::Tick { ticks } => *ticks,
        _ => 0,
    }
}

/// What follows a word.
fn after_word<'a>(word: &[u8], text: &'a [u8]) -> Option<&'a [u8]>
    ensures { option_map (λ rest. rest.now) result ≡ after_word word.now text.now }
{
    text.strip_prefix(word)
}

// How many digits stand at the front.
#[tactic(auto, using(std::proofs::lemmas::List::Sums::prefix_len_is))]
fn digit_count(text: &[u8]) -> usize
    ensures { result ≡ prefix_len is_ascii_digit text.now }
{
    text.iter().take_while(|byte| byte.is_ascii_digit()).count()
}

// The digits at the front and what follows them, if there are from one to ten.
#[tactic(auto, using(crate::proofs::DigitLemmas::front_steps))]
fn digits_at(text: &[u8]) -> Option<(&[u8], &[u8])>
    ensures value { option_map (λ parts. (parts.0.now, parts.1.now)) result ≡ digits_at WHOLE_DIGITS_LIMIT text.now }
    ensures digits { IfSome result (λ parts. AreDigits 1 WHOLE_DIGITS_LIMIT parts.0.now) }
{
    let count = digit_count(text);
    if 1 <= count && count <= WHOLE_DIGITS_LIMIT {
        Some(text.split_at(count))
    } else {
        None
    }
}

// The number that digits write.
#[tactic(auto, using(crate::proofs::DigitLemmas::number_steps))]
fn number_of(digits: &[u8]) -> u64
    requires { AreDigits 0 WHOLE_DIGITS_LIMIT digits.now }
    ensures { result ≡ digits_value 10 digits.now }
{
    let mut number = 0;
    for digit in digits {
        number = number * 10 + u64::from(digit - b'0');
    }
    number
}

fn has_spare_zero(digits: &[u8]) -> bool
    requires { 0 < length digits.now }
    ensures { result ≡ has_spare_zero digits.now }
{
    digits[0] == b'0' && digits.len() != 1
}

/// A whole number of at most `most` without zeros before it, and what follows it.
#[tactic(auto, unfolding(crate::specs::Counts::whole_in_front))]
pub(crate) fn whole_at(most: u64, text: &[u8]) -> Option<(u64, &[u8])>
    ensures value { option_map (λ found. (found.0, found.1.now)) result ≡ whole_in_front most text.now }
    ensures small { IfSome result (λ found. found.0 ≤ most) }
{
    let (digits, rest) = digits_at(text)?;
    let number = number_of(digits);
    if !has_spare_zero(digits) && number <= most {
        Some((number, rest))
    } else {
        None
    }
}

/// What a line says of the commands that follow it. None where it is no such line.
#[tactic(auto, unfolding(crate::specs::Counts::counts_of))]
pub(crate) fn counts_of(line: &[u8]) -> Option<Counts>
    ensures value { result ≡ counts_of line.now }
    ensures few { IfSome result (λ said. said.commands ≤ MOST_ENTRIES) }
{
    let rest = after_word(b"entries ", line)?;
    let (commands, rest) = whole_at(MOST_ENTRIES as u64, rest)?;
    let rest = after_word(b" clock ", rest)?;
    let (ticks, rest) = whole_at(u64::from(LAST_TICK), rest)?;
    if rest.is_empty() {
        Some(Counts { commands, ticks })
    } else {
        None
    }
}
