//! Sorted maps, one for each index.
ghost use Rattle.std.specs.Prelude.{◌≡◌, ◌≢◌, ◌+◌, ◌-◌, ◌^◌, ◌≤◌, ℕ, min, Option, None, IsSome, OnOk};
ghost use Rattle.std.specs.Option.{option_copied, option_map};
ghost use Rattle.std.specs.FinMap as map;
ghost use Rattle.iv_types.specs.Maps.{Map, CanHold, IsWithin, entry_at, entry_after, used, with_map};

use crate::{Bytes, NoMemory};

/// The entries of the indexes 0 to 192: for each index a map from keys to values, in lexicographic order of the keys'
/// bytes. An index that was never written has an empty map.
///
/// A key has at most 1,024 bytes and a value at most 2,048. An entry counts the bytes of its key and of its value, and 8,
/// and what all entries of all indexes count stays within a limit, where the maps have one. Room for entries is made
/// ahead, by index, and `reserve` alone takes memory.
pub trait SortedMaps: Drop + Send + Sync {
    /// The map of an index.
    ghost maps: { Self → ℕ → Map };

    /// How many entries more an index has room for.
    ghost spare: { Self → ℕ → ℕ };

    /// The most that all entries may count, unless there is no limit. This never changes.
    ghost limit: { Self → Option ℕ };

    /// Makes room for that many entries more in the index. An `Err` changes no entry and takes no room away.
    ///
    /// # Errors
    ///
    /// Where there is no memory for them.
    fn reserve(&mut self, index: u32, more: u32) -> Result<(), NoMemory>
        ensures room { OnOk result (more ≤ spare self.new index) }
        ensures maps { (i : ℕ) → maps self.new i ≡ maps self.old i }
        ensures spare { (i : ℕ) → spare self.old i ≤ spare self.new i }
        ensures limit { limit self.new ≡ limit self.old };

    /// The value under the key.
    fn get(&self, index: u32, key: &[u8]) -> Option<&[u8]>
        ensures { option_copied result ≡ map.get (maps self.now index) key.now };

    /// The first entry at the key or after it, as its key and its value.
    fn first_at(&self, index: u32, key: &[u8]) -> Option<(&[u8], &[u8])>
        ensures { option_map (λ e. (e.0.now, e.1.now)) result ≡ entry_at (maps self.now index) key.now };

    /// The first entry after the key, as its key and its value.
    fn first_after(&self, index: u32, key: &[u8]) -> Option<(&[u8], &[u8])>
        ensures { option_map (λ e. (e.0.now, e.1.now)) result ≡ entry_after (maps self.now index) key.now };

    /// What all entries of all indexes count, kept by each change. A sum that does not fit stands still at the end of a `u64`.
    fn used(&self) -> u64
        ensures { result ≡ min (used (maps self.now)) (2 ^ 64 - 1) };

    /// Adds an entry under a key that is not there, into room that was made. It takes the room of one entry at most.
    fn insert(&mut self, index: u32, key: Bytes, value: Bytes)
        requires room { 1 ≤ spare self.old index }
        requires absent { map.get (maps self.old index) key ≡ None }
        requires held { CanHold index key value }
        requires within { IsWithin (limit self.old) (used (with_map (maps self.old) index (map.insert (maps self.old index) key value))) }
        ensures entry { maps self.new index ≡ map.insert (maps self.old index) key value }
        ensures others { (i : ℕ) → i ≢ index → maps self.new i ≡ maps self.old i }
        ensures spare { spare self.old index ≤ spare self.new index + 1 }
        ensures other_spares { (i : ℕ) → i ≢ index → spare self.old i ≤ spare self.new i }
        ensures limit { limit self.new ≡ limit self.old };

    /// Sets the value under a key that is there.
    fn replace(&mut self, index: u32, key: &[u8], value: Bytes)
        requires present { IsSome (map.get (maps self.old index) key.now) }
        requires held { CanHold index key.now value }
        requires within { IsWithin (limit self.old) (used (with_map (maps self.old) index (map.insert (maps self.old index) key.now value))) }
        ensures entry { maps self.new index ≡ map.insert (maps self.old index) key.now value }
        ensures others { (i : ℕ) → i ≢ index → maps self.new i ≡ maps self.old i }
        ensures spare { (i : ℕ) → spare self.old i ≤ spare self.new i }
        ensures limit { limit self.new ≡ limit self.old };

    /// Takes away the entry under a key that is there, which leaves room for one more.
    fn remove(&mut self, index: u32, key: &[u8])
        requires { IsSome (map.get (maps self.old index) key.now) }
        ensures entry { maps self.new index ≡ map.remove (maps self.old index) key.now }
        ensures others { (i : ℕ) → i ≢ index → maps self.new i ≡ maps self.old i }
        ensures spare { spare self.old index + 1 ≤ spare self.new index }
        ensures other_spares { (i : ℕ) → i ≢ index → spare self.old i ≤ spare self.new i }
        ensures limit { limit self.new ≡ limit self.old };
}
