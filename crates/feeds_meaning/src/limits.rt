//! The limits of users and of their lines.
ghost use Rattle.std.specs.Prelude.{◌≡◌};

/// The most users.
pub const USERS_LIMIT: usize = 8;

/// The most data lines that are accepted, of all users together.
pub const DATA_LINES_LIMIT: u32 = 8_000;

/// The most `watch`, `keep` and `drop` lines that are accepted of one user.
pub const QUERY_LINES_LIMIT: u32 = 8_000;

/// The limits, in numbers.
pub fn limits_in_numbers()
    ensures users { USERS_LIMIT ≡ 8 }
    ensures data_lines { DATA_LINES_LIMIT ≡ 8000 }
    ensures query_lines { QUERY_LINES_LIMIT ≡ 8000 }
{}
