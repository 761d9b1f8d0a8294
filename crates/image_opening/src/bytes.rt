//! How many bytes of data an image leaves. Sums that do not fit stand still at the end of a `u64`.
ghost use Rattle.std.specs.Prelude.{◌≡◌, ◌+◌, ◌-◌, ◌^◌, length, min};
ghost use Rattle.iv_types.specs.Maps.{map_size, used};
ghost use Rattle.record_replay.specs.Texts.{text_entries, texts_entries};

use data_store::definition_entries;
use iv_types::SortedMaps;
use log_records::{Record, Scanned};

// The indexes of objects.
const FIRST_INDEX: u32 = 1;

const LAST_INDEX: u32 = 192;

// An entry counts eight beside its key and its value.
const ENTRY_HEAD: u64 = 8;

// What an entry counts.
fn entry_bytes(key: &[u8], value: &[u8]) -> u64
    ensures { result ≡ min (length key.now + length value.now + 8) (2 ^ 64 - 1) }
{
    (key.len() as u64)
        .saturating_add(value.len() as u64)
        .saturating_add(ENTRY_HEAD)
}

// What the entries of an index count.
fn index_bytes<M: SortedMaps>(maps: &M, index: u32) -> u64
    ensures { result ≡ min (map_size (M.maps maps.now index)) (2 ^ 64 - 1) }
{
    let mut bytes: u64 = 0;
    let mut next = maps.first_at(index, &[]);
    while let Some((key, value)) = next {
        bytes = bytes.saturating_add(entry_bytes(key, value));
        next = maps.first_after(index, key);
    }
    bytes
}

/// What the entries of all tables, indexes and views count.
pub(crate) fn rows_bytes<M: SortedMaps>(maps: &M) -> u64
    ensures { result ≡ min (used (M.maps maps.now) - map_size (M.maps maps.now 0)) (2 ^ 64 - 1) }
{
    let mut bytes: u64 = 0;
    for index in FIRST_INDEX..LAST_INDEX + 1 {
        bytes = bytes.saturating_add(index_bytes(maps, index));
    }
    bytes
}

// What a record adds to the texts of definitions.
fn text_bytes(entry: &Record) -> u64
    ensures { result ≡ min (text_entries entry.now) (2 ^ 64 - 1) }
{
    match entry {
        Record::Schema { text, .. } => definition_entries(text.as_slice()),
        _ => 0,
    }
}

/// What the texts of the definitions among some records count.
pub(crate) fn texts_bytes(records: &[Scanned]) -> u64
    ensures { result ≡ min (texts_entries records.now) (2 ^ 64 - 1) }
{
    let mut bytes: u64 = 0;
    for scanned in records {
        bytes = bytes.saturating_add(text_bytes(&scanned.entry));
    }
    bytes
}
