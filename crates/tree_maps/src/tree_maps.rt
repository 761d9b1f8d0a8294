//! Sorted maps in memory, each a balanced tree.
ghost use Rattle.std.specs.Prelude.{◌≡◌, ◌<◌, ℕ, None, IfOk};
ghost use Rattle.std.specs.FinMap as map;
ghost use Rattle.iv_types.specs.Maps.{entry_size, last_index};
ghost use Rattle.table_store.specs.Lists.{map_at, spare_at};
ghost use Rattle.tree_maps.specs.Holding.{AreHeld};

use crate::entry_tree::EntryTree;
use iv_types::{Bytes, NoMemory, SortedMaps};
use std::alloc::Global;
use std::marker::Model;

// The indexes 0 to 192.
const INDEXES: usize = 193;

// What an entry counts.
fn entry_size(key: &[u8], value: &[u8]) -> u128
    ensures { result ≡ entry_size (key.now, value.now) }
{
    key.len() as u128 + value.len() as u128 + 8
}

/// Sorted maps in memory, each a balanced tree. There is no limit on what their entries count.
#[derive(Drop)]
pub struct TreeMaps {
    alloc: Global,
    // One for each index.
    trees: Vec<EntryTree>,
    // What all entries count.
    used: u128,
}

impl Model for TreeMaps {
    ghost use Rattle.std.specs.Prelude.{List};
    ghost use Rattle.std.specs.Coded.{coded_list};
    ghost use Rattle.table_store.specs.Lists.{Listed, coded_listed};
    ghost use Rattle.tree_maps.specs.Holding.{AreMaps};

    ghost Value = { List Listed };

    ghost coded = { coded_list coded_listed };

    ghost view = { λ m. m.trees.items };

    ghost invariant = { λ m. AreMaps m.trees.items m.used };
}

impl TreeMaps {
    /// Maps without entries.
    ///
    /// # Errors
    ///
    /// Where there is no memory for them.
    pub fn new(alloc: Global) -> Result<TreeMaps, NoMemory>
        ensures { IfOk result (λ maps. (index : ℕ) → map_at maps index ≡ map.empty) }
    {
        let mut trees = Vec::new(alloc);
        for _ in 0..INDEXES {
            trees.push(EntryTree::new(alloc))?;
        }
        Ok(TreeMaps {
            alloc,
            trees,
            used: 0,
        })
    }

    /// What always holds of the entries: an index can hold each, and past the last index there are none. It does nothing.
    pub fn maps_law(&self)
        ensures held { AreHeld self.now }
        ensures beyond { (index : ℕ) → last_index < index → map_at self.now index ≡ map.empty }
    {
        let _used = self.used;
    }
}

impl SortedMaps for TreeMaps {
    ghost maps = { map_at };

    ghost spare = { spare_at };

    ghost limit = { λ _. None };

    fn reserve(&mut self, index: u32, more: u32) -> Result<(), NoMemory> {
        match self.trees.get_mut(index as usize) {
            Some(tree) => tree.reserve(self.alloc, more as usize),
            None => Ok(()),
        }
    }

    fn get(&self, index: u32, key: &[u8]) -> Option<&[u8]> {
        match self.trees.get(index as usize) {
            Some(tree) => tree.get(key),
            None => None,
        }
    }

    fn first_at(&self, index: u32, key: &[u8]) -> Option<(&[u8], &[u8])> {
        match self.trees.get(index as usize) {
            Some(tree) => tree.first_at(key),
            None => None,
        }
    }

    fn first_after(&self, index: u32, key: &[u8]) -> Option<(&[u8], &[u8])> {
        match self.trees.get(index as usize) {
            Some(tree) => tree.first_after(key),
            None => None,
        }
    }

    fn used(&self) -> u64 {
        self.used.min(u128::from(u64::MAX)) as u64
    }

    fn insert(&mut self, index: u32, key: Bytes, value: Bytes) {
        let size = entry_size(key.as_slice(), value.as_slice());
        self.trees[index as usize].insert(key, value);
        self.used += size;
    }

    fn replace(&mut self, index: u32, key: &[u8], value: Bytes) {
        let size = entry_size(key, value.as_slice());
        let was = self.trees[index as usize].replace(key, value);
        self.used = self.used + size - entry_size(key, was.as_slice());
    }

    fn remove(&mut self, index: u32, key: &[u8]) {
        let was = self.trees[index as usize].remove(self.alloc, key);
        self.used -= entry_size(key, was.as_slice());
    }
}
