//! What is measured, and its keys.
use std::alloc::Global;

/// In which order the entries come.
#[derive(Clone, Copy)]
pub enum Order {
    Rising,
    Scattered,
}

/// The value under each key.
pub const VALUE: [u8; 20] = [7; 20];

/// The key of entry `i`, that of an INT.
pub fn key(order: Order, i: u32) -> [u8; 8] {
    let number = match order {
        Order::Rising => u64::from(i),
        Order::Scattered => 181_081 * u64::from(i) % 524_288,
    };
    (number + 0x8000_0000_0000_0000).to_be_bytes()
}

/// Sorted entries.
pub trait Subject {
    /// Adds an entry, unless its key is there.
    fn put(&mut self, alloc: Global, key: &[u8]) -> anyhow::Result<()>;

    fn has(&self, key: &[u8]) -> bool;

    /// Goes over all entries, and counts them.
    fn walk(&self) -> u32;

    /// Takes an entry away, if it is there.
    fn take(&mut self, key: &[u8]);
}
