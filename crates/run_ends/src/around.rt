//! The outside of a run as one value.

/// Where the bytes of a run come from, where its replies go to, and where its texts lie.
#[derive(Drop)]
pub struct Outside<S, K, F> {
    pub source: S,
    pub sink: K,
    pub shelf: F,
}
