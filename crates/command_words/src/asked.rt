//! What the words ask for.

/// What a list of words asks for.
#[derive(Clone, Copy, Debug, PartialEq, Eq)]
pub enum Asked<'a> {
    /// To run the lines of the source on a new database.
    Script,
    /// To run the lines of the source on the database of this name.
    ScriptOn(&'a str),
    /// To run the made script of so many rounds.
    Make(u32),
    /// To make a new database under a name.
    Init(NewDatabase<'a>),
}

/// A database that is to be made.
#[derive(Clone, Copy, Debug, PartialEq, Eq)]
pub struct NewDatabase<'a> {
    /// The name of its disk.
    pub file: &'a str,
    /// How many pages it has.
    pub pages: u32,
    /// How many KiB each of its two log areas has.
    pub log_kib: u32,
}
