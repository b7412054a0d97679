//! The words of the program.
ghost use Rattle.std.specs.Prelude.{◌≡◌, map, string_bytes};
ghost use Rattle.feeds_run.specs.Words.{feed_asked, feed_words_of, feed_words_view};

/// What the words of the program ask for.
#[derive(Clone, Copy, Debug)]
pub(crate) enum Words<'a> {
    /// They are of no form: `bad words` is written, and nothing is read.
    Bad,
    /// The program's name alone: users share one world.
    Shared,
    /// `replica` and a name: the answer of the query of this name is followed.
    Followed(&'a [u8]),
}

/// What the words ask for, the program's name first.
pub(crate) fn words_of(words: &[String]) -> Words<'_>
    ensures { feed_words_view result ≡ feed_words_of (map string_bytes words.now) }
{
    match words {
        [_] => Words::Shared,
        [_, word, name] => asked(word.as_bytes(), name.as_bytes()),
        _ => Words::Bad,
    }
}

/// What a word asks for with the one after it.
fn asked<'a>(word: &[u8], name: &'a [u8]) -> Words<'a>
    ensures { feed_words_view result ≡ feed_asked word.now name.now }
{
    if word == b"replica".as_slice() {
        Words::Followed(name)
    } else {
        Words::Bad
    }
}
