//! Sorted maps over pages.
use crate::subject::{Subject, VALUE};
use iv_types::{Bytes, NoMemory, SortedMaps};
use ordered_index::PageMaps;
use std::alloc::Global;

/// The index of all entries.
const INDEX: u32 = 5;

/// The pages that there are.
const PAGES: u32 = 16_384;

/// Entries of one index.
#[derive(Drop)]
pub struct Pages {
    maps: PageMaps,
}

impl Pages {
    pub fn new(alloc: Global) -> Result<Pages, NoMemory> {
        Ok(Pages {
            maps: PageMaps::new(alloc, PAGES)?,
        })
    }
}

fn bytes(alloc: Global, bytes: &[u8]) -> Result<Bytes, NoMemory> {
    Ok(Bytes::from_vec(Vec::from_slice(alloc, bytes)?))
}

/// Adds an entry, unless its key is there or the maps are full.
fn put(maps: &mut PageMaps, key: Bytes, value: Bytes) -> Result<(), NoMemory> {
    maps.reserve(INDEX, 1)?;
    let keys = key.as_slice().len();
    let values = value.as_slice().len();
    if keys > 1024 || values > 2048 || maps.room() < keys as u64 + values as u64 + 8 {
        return Ok(());
    }
    if maps.get(INDEX, key.as_slice()).is_some() {
        return Ok(());
    }
    maps.insert(INDEX, key, value);
    Ok(())
}

impl Subject for Pages {
    fn put(&mut self, alloc: Global, key: &[u8]) -> anyhow::Result<()> {
        Ok(put(&mut self.maps, bytes(alloc, key)?, bytes(alloc, &VALUE)?)?)
    }

    fn has(&self, key: &[u8]) -> bool {
        self.maps.get(INDEX, key).is_some()
    }

    fn walk(&self) -> u32 {
        let mut count: u32 = 0;
        let mut next = self.maps.first_at(INDEX, &[]);
        for _ in 0..u32::MAX {
            let Some((key, _)) = next else {
                break;
            };
            count = count.wrapping_add(1);
            next = self.maps.first_after(INDEX, key);
        }
        count
    }

    fn take(&mut self, key: &[u8]) {
        if self.maps.get(INDEX, key).is_some() {
            self.maps.remove(INDEX, key);
        }
    }
}
