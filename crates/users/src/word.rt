//! The word at the front of a line.
ghost use Rattle.std.specs.Prelude.{◌≡◌, ◌≤◌, length};
ghost use Rattle.std.specs.List.{prefix_len};
ghost use Rattle.ftl_lexer.specs.Forms.{after_blanks, begins_name, continues_name, is_blank, name_len};
ghost use Rattle.users.specs.Sender.{first_word, word_at};

fn is_blank(byte: u8) -> bool
    ensures { result ≡ is_blank byte }
{
    byte == b' ' || byte == b'\t'
}

fn begins_name(byte: u8) -> bool
    ensures { result ≡ begins_name byte }
{
    byte.is_ascii_alphabetic() || byte == b'_'
}

fn continues_name(byte: u8) -> bool
    ensures { result ≡ continues_name byte }
{
    byte.is_ascii_alphanumeric() || byte == b'_'
}

fn name_len(bytes: &[u8]) -> usize
    ensures value { result ≡ name_len bytes.now }
    ensures within { result ≤ length bytes.now }
{
    bytes
        .iter()
        .take_while(|byte| continues_name(**byte))
        .count()
}

/// The word at the front of some bytes, which a letter or `_` begins; nothing where none does.
pub(crate) fn word_at(bytes: &[u8]) -> &[u8]
    ensures { result.now ≡ word_at bytes.now }
{
    match bytes {
        [first, ..] if begins_name(*first) => &bytes[..name_len(bytes)],
        _ => &[],
    }
}

fn blank_len(bytes: &[u8]) -> usize
    ensures value { result ≡ prefix_len is_blank bytes.now }
    ensures within { result ≤ length bytes.now }
{
    bytes.iter().take_while(|byte| is_blank(**byte)).count()
}

/// The first token of a line where it is a word, and nothing else.
pub fn first_word(line: &[u8]) -> &[u8]
    ensures { result.now ≡ first_word line.now }
{
    word_at(&line[blank_len(line)..])
}
