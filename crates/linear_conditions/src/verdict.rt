//! What a folded condition says for certain.

/// Whether a folded condition is true on every tuple, on none, or may be either.
#[derive(Clone, Copy)]
pub enum Verdict {
    Holds,
    Fails,
    Open,
}
