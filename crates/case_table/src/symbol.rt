//! The codes of the symbols: their places in the list of `symbols()`.

/// `(`
pub const OPEN_ROUND: u8 = 0;
/// `)`
pub const CLOSE_ROUND: u8 = 1;
/// `[`
pub const OPEN_SQUARE: u8 = 2;
/// `]`
pub const CLOSE_SQUARE: u8 = 3;
/// `,`
pub const COMMA: u8 = 4;
/// `.`
pub const POINT: u8 = 5;
/// `+`
pub const PLUS: u8 = 6;
/// `-`
pub const MINUS: u8 = 7;
/// `*`
pub const TIMES: u8 = 8;
/// `=`
pub const EQUAL: u8 = 9;
/// `!=`
pub const NOT_EQUAL: u8 = 10;
/// `<=`
pub const AT_MOST: u8 = 11;
/// `>=`
pub const AT_LEAST: u8 = 12;
/// `<`
pub const BELOW: u8 = 13;
/// `>`
pub const ABOVE: u8 = 14;
/// `<-`
pub const ASSIGN: u8 = 15;
