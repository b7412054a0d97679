//! What a token is, and where it stands.

/// The kind of a token.
#[derive(Clone, Copy, Debug, PartialEq, Eq)]
pub enum Kind {
    /// A name that isn't reserved.
    Name,
    /// Digits, with a point and digits after them or without.
    Number,
    /// Bytes between two double quotes.
    Text,
    /// A symbol, with its code in `case_table::symbols`.
    Sym(u8),
    /// A reserved word, with its code in `case_table::words`.
    Key(u8),
}

/// A token: its kind, and its bytes in the line, from `lo` to below `hi`. A text has its quotes.
#[derive(Clone, Copy, Debug, PartialEq, Eq)]
pub struct Token {
    pub kind: Kind,
    pub lo: u16,
    pub hi: u16,
}
