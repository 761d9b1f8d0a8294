//! Why the bytes of a row were not read.

/// Why the bytes of a row were not read.
#[derive(Clone, Copy)]
pub(crate) enum ReadFault {
    /// They are no row of the table under this key.
    Misfit,
    /// There was no memory for it.
    NoMemory,
}
