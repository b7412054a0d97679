//! The codes of the reserved words, each under its word: their places in the list of `words()`.

// The words of queries.
pub const RETRIEVE: u8 = 0;

pub const FROM: u8 = 1;

pub const WHERE: u8 = 2;

pub const TRUE: u8 = 3;

pub const FALSE: u8 = 4;

pub const NOT: u8 = 5;

pub const AND: u8 = 6;

pub const OR: u8 = 7;

pub const UNTIL: u8 = 8;

pub const UNTIL_WITHIN: u8 = 9;

pub const UNTIL_AFTER: u8 = 10;

pub const NEXTTIME: u8 = 11;

pub const EVENTUALLY: u8 = 12;

pub const EVENTUALLY_WITHIN: u8 = 13;

pub const EVENTUALLY_AFTER: u8 = 14;

pub const ALWAYS: u8 = 15;

pub const ALWAYS_FOR: u8 = 16;

pub const INSIDE: u8 = 17;

pub const OUTSIDE: u8 = 18;

pub const DIST: u8 = 19;

pub const WITHIN_SPHERE: u8 = 20;

pub const TIME: u8 = 21;

// The sub-attributes.
pub const VALUE: u8 = 22;

pub const UPDATETIME: u8 = 23;

pub const FUNCTION: u8 = 24;

// The commands.
pub const CLASS: u8 = 25;

pub const REGION: u8 = 26;

pub const INSERT: u8 = 27;

pub const UPDATE: u8 = 28;

pub const REMOVE: u8 = 29;

pub const TICK: u8 = 30;

pub const ASK: u8 = 31;

pub const WATCH: u8 = 32;

pub const KEEP: u8 = 33;

pub const SHOW: u8 = 34;

pub const DROP: u8 = 35;

pub const LIST: u8 = 36;

pub const SAVE: u8 = 37;

pub const IMPORT: u8 = 38;

pub const EXPORT: u8 = 39;

pub const QUIT: u8 = 40;

// The parts of commands.
pub const POINT: u8 = 41;

pub const NUM: u8 = 42;

pub const TEXT: u8 = 43;

pub const DYN: u8 = 44;

pub const AT: u8 = 45;

pub const MOVE: u8 = 46;

pub const RATE: u8 = 47;
