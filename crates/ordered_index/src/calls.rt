//! Calls on sorted maps, and their answers.
use iv_types::Bytes;

/// A call on sorted maps. The numbers are those of indexes, and of a reserve's entries.
#[derive(Debug, Drop)]
pub enum MapCall {
    Reserve(u32, u32),
    Get(u32, Bytes),
    FirstAt(u32, Bytes),
    FirstAfter(u32, Bytes),
    Insert(u32, Bytes, Bytes),
    Replace(u32, Bytes, Bytes),
    Remove(u32, Bytes),
}

/// What a call answers.
#[derive(Debug, Drop)]
pub enum MapAnswer {
    /// That it is done.
    Done,
    /// The value under a key.
    Value(Option<Bytes>),
    /// An entry.
    Entry(Option<(Bytes, Bytes)>),
}
