//! One recorded call of a disk in memory.
ghost use Rattle.std.specs.Prelude.{◌≡◌};

/// A write, whose bytes stand in the record's bytes from `start` on, or a sync.
#[derive(Clone, Copy, Debug, PartialEq, Eq)]
pub enum Call {
    Wrote {
        at: usize,
        start: usize,
        length: usize,
    },
    Synced,
}

impl Call {
    ghost use Rattle.disk_io.specs.Record.{is_sync_call};

    /// Whether it is a sync.
    pub fn is_sync(self) -> bool
        ensures { result ≡ is_sync_call self }
    {
        matches!(self, Call::Synced)
    }
}
