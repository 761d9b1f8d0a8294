//! The parts of the words behind `init`.
ghost use Rattle.std.specs.Prelude.{◌≡◌, Some, None, true, false, MatchOption};

/// FILE, or an option.
#[derive(Clone, Copy, Debug, PartialEq, Eq)]
pub enum Sort {
    File,
    Pages,
    LogKib,
}

/// A part, and how many words it is.
#[derive(Clone, Copy, Debug, PartialEq, Eq)]
pub struct Found {
    pub sort: Sort,
    pub words: usize,
}

/// Which parts were met.
#[derive(Clone, Copy, Debug, PartialEq, Eq)]
pub struct Met {
    pub file: bool,
    pub pages: bool,
    pub log_kib: bool,
}

impl Met {
    ghost use Rattle.command_words.specs.Parts.{WithOne};

    /// No part.
    pub const NOTHING: Met = Met {
        file: false,
        pages: false,
        log_kib: false,
    };

    /// With one part more, unless it was met before.
    pub fn with(self, sort: Sort) -> Option<Met>
        ensures { WithOne self sort result }
    {
        let (before, after) = match sort {
            Sort::File => (self.file, Met { file: true, ..self }),
            Sort::Pages => (
                self.pages,
                Met {
                    pages: true,
                    ..self
                },
            ),
            Sort::LogKib => (
                self.log_kib,
                Met {
                    log_kib: true,
                    ..self
                },
            ),
        };
        if before { None } else { Some(after) }
    }
}
