//! The words of the program.
ghost use Rattle.std.specs.Prelude.{◌≡◌, true, map, string_bytes};
ghost use Rattle.std.specs.Char.{is_ascii_digit};
ghost use Rattle.std.specs.List.{list_all};
ghost use Rattle.std.specs.Str.Parse.{digits_value};
ghost use Rattle.std.specs.Option.{option_map_or};
ghost use Rattle.domino_run.specs.Words.{Bad, Generated, asked, is_short_number, short_number, words_of, words_view};

/// The most digits of the number after `--gen`.
pub const MOST_DIGITS: usize = 9;

/// What the words of the program ask for.
#[derive(Clone, Copy, Debug)]
pub enum Words<'a> {
    /// They are of no form: `bad words` is written, and nothing is read.
    Bad,
    /// The program's name alone: the lines of the input are answered.
    Plain,
    /// `--gen` and a number of one to nine digits: the generator's lines are answered and counted, and
    /// nothing is read.
    Generated(u32),
    /// `--session` and a name: the lines of the input are answered from the session on whose text lies
    /// under this name.
    Stored(&'a [u8]),
}

/// What the words ask for, the program's name first.
pub fn words_of(words: &[String]) -> Words<'_>
    ensures { words_view result ≡ words_of (map string_bytes words.now) }
{
    match words {
        [_] => Words::Plain,
        [_, word, value] => asked(word.as_bytes(), value.as_bytes()),
        _ => Words::Bad,
    }
}

/// What a word asks for with the one after it.
fn asked<'a>(word: &[u8], value: &'a [u8]) -> Words<'a>
    ensures { words_view result ≡ asked word.now value.now }
{
    if word == b"--session".as_slice() {
        Words::Stored(value)
    } else if word == b"--gen".as_slice() {
        generated(value)
    } else {
        Words::Bad
    }
}

fn generated<'a>(value: &[u8]) -> Words<'a>
    ensures { words_view result ≡ option_map_or Generated (short_number value.now) Bad }
{
    match number_of(value) {
        Some(number) => Words::Generated(number),
        None => Words::Bad,
    }
}

/// The number that digits write.
fn number_of(text: &[u8]) -> Option<u32>
    ensures { result ≡ short_number text.now }
{
    if is_number(text) {
        Some(value_of(text))
    } else {
        None
    }
}

fn is_number(text: &[u8]) -> bool
    ensures { result ≡ is_short_number text.now }
{
    let digits = are_digits(text);
    1 <= text.len() && text.len() <= MOST_DIGITS && digits
}

fn are_digits(text: &[u8]) -> bool
    ensures { result ≡ list_all is_ascii_digit text.now }
{
    text.iter().all(|byte| byte.is_ascii_digit())
}

#[tactic(auto, using(crate::proofs::NumberLemmas::value_steps))]
fn value_of(digits: &[u8]) -> u32
    requires { is_short_number digits.now ≡ true }
    ensures { result ≡ digits_value 10 digits.now }
{
    let mut number = 0;
    for digit in digits {
        number = number * 10 + u32::from(*digit - b'0');
    }
    number
}
