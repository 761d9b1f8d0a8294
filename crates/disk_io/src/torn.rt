//! What stands on a disk after a crash.

/// What a crash leaves of each range that was written since the last sync before it: what it held at that sync, what
/// was written, or zeros.
#[derive(Clone, Copy, Debug, PartialEq, Eq)]
pub enum Torn {
    Before,
    After,
    Zeros,
}
