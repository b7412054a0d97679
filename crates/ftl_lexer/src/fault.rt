//! Why a line has no tokens.

use thiserror::Error;

/// Why a line can't be cut into tokens.
#[derive(Debug, Drop, Error)]
pub enum LexFault {
    /// At this byte, counted from 0, no token begins.
    #[error("no token begins at byte {0}")]
    BadToken(usize),
    /// There is no memory for the tokens.
    #[error("out of memory")]
    NoMemory,
}
