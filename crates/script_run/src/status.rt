//! How a run ends.
ghost use Rattle.std.specs.Prelude.{◌≡◌};
ghost use Rattle.script_run.specs.Status.{code_of};

/// How a run ended.
#[derive(Clone, Copy, Debug, PartialEq, Eq)]
pub enum Status {
    /// The input was read to its end, and every line was answered.
    Done,
    /// The words are no command; the usage line was printed.
    Usage,
    /// The source failed.
    ReadFault,
    /// The sink failed.
    WriteFault,
    /// A disk could not be opened or made, or it failed.
    DiskFault,
    /// A disk bears no database: the rule that fails, or the row of a view that is wrong, was printed.
    BadImage,
    /// There was no memory outside a statement.
    NoMemory,
    /// All the bytes that may be taken from a source were taken.
    TooMuch,
}

impl Status {
    /// The program's exit status.
    pub fn code(self) -> u8
        ensures { result ≡ code_of self }
    {
        match self {
            Status::Done => 0,
            Status::Usage => 1,
            Status::ReadFault => 2,
            Status::WriteFault => 3,
            Status::DiskFault => 4,
            Status::BadImage => 5,
            Status::NoMemory => 6,
            Status::TooMuch => 8,
        }
    }
}
