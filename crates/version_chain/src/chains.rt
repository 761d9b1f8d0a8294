//! Chains of versions.
ghost use Rattle.std.specs.Prelude.{◌≡◌, ◌+◌, ◌^◌, ◌<◌, ◌≤◌, max, [], length, OnOk};
ghost use Rattle.std.specs.Option.{option_copied, option_map};
ghost use Rattle.version_chain.specs.Versions.{above, AreInOrder};
ghost use Rattle.version_chain.specs.Trees.{items, own};
ghost use Rattle.version_chain.specs.Chains.{pushed, is_of, is_empty, IsLeastFrom};

use crate::change::{place_order, put_in};
use crate::pool::Pool;
use crate::pruning::cut;
use crate::search::first;
use crate::tree::{Node, Tree};
use iv_types::{Bytes, NoMemory};
use spare_map::Blank;
use std::alloc::Global;
use std::cmp::Ordering;
use std::marker::Model;
use std::mem;

/// Versions of places, with numbers. `reserve` makes room for more.
#[derive(Drop)]
pub struct Chains<V> {
    root: Tree<V>,
    pool: Pool<V>,
    pruned: u64,
}

impl<V> Model for Chains<V> {
    ghost use Rattle.version_chain.specs.Chains.{Chains, chains_code};
    ghost use Rattle.version_chain.specs.Versions.{AreInOrder};
    ghost use Rattle.version_chain.specs.Trees.{items, IsMarked};

    ghost Value = { Chains V };

    ghost coded = { chains_code V.code };

    ghost view = { λ c. record { versions = items c.root; pruned = c.pruned; room = c.pool } };

    ghost invariant = { λ c. AreInOrder (items c.root) × IsMarked c.root };
}

impl<V: Blank> Chains<V> {
    /// Chains without versions and without room.
    pub fn new() -> Chains<V>
        ensures { result ≡ record { versions = []; pruned = 0; room = 0 } }
    {
        Chains {
            root: Tree::Leaf,
            pool: Pool::new(),
            pruned: 0,
        }
    }

    /// How many more versions they can take without memory.
    pub fn room(&self) -> u64
        ensures { result ≡ self.now.room }
    {
        self.pool.room()
    }

    /// The greatest number that was pruned, or 0.
    pub fn pruned(&self) -> u64
        ensures { result ≡ self.now.pruned }
    {
        self.pruned
    }

    /// Makes room for at least so many more versions.
    ///
    /// # Errors
    ///
    /// Where there is no memory for it. All stays, and there is at least as much room as before.
    pub fn reserve(&mut self, alloc: Global, more: u32) -> Result<(), NoMemory>
        ensures versions { self.new.versions ≡ self.old.versions }
        ensures pruned { self.new.pruned ≡ self.old.pruned }
        ensures room { self.old.room ≤ self.new.room }
        ensures made { OnOk result (more ≤ self.new.room) }
    {
        self.pool.reserve(alloc, more)
    }

    /// Adds a version of a place. One that is not above what was pruned is let go, and takes no room.
    pub(crate) fn add(&mut self, index: u32, key: Bytes, number: u64, held: V)
        requires room { 1 ≤ self.old.room }
        ensures versions { self.new.versions ≡ pushed (((index, key), number), held) self.old.pruned self.old.versions }
        ensures pruned { self.new.pruned ≡ self.old.pruned }
        ensures room { self.new.room + length self.new.versions ≡ self.old.room + length self.old.versions }
    {
        if number > self.pruned {
            let node = filled(self.pool.take(), index, key, number, held);
            let root = mem::replace(&mut self.root, Tree::Leaf);
            self.root = put_in(root, node);
        }
    }

    /// Whether a place has no version.
    pub fn is_empty(&self, index: u32, key: &[u8]) -> bool
        ensures { result ≡ is_empty (index, key.now) self.now.versions }
    {
        match first(&self.root, index, key, 0, false) {
            Some(node) => !is_of(node, index, key),
            None => true,
        }
    }

    /// The least key at or after this one that has versions in this index, if there is one.
    pub fn first_from(&self, index: u32, key: &[u8]) -> Option<&[u8]>
        ensures { IsLeastFrom index key.now self.now.versions (option_map (λ k. k.now) result) }
    {
        match first(&self.root, index, key, 0, false) {
            Some(node) if node.index == index => Some(node.key.as_slice()),
            _ => None,
        }
    }

    /// The versions as a tree.
    pub(crate) fn tree(&self) -> &Tree<V>
        ensures versions { items result.now ≡ self.now.versions }
        ensures sorted { AreInOrder (items result.now) }
    {
        &self.root
    }

    /// Lets the versions go whose numbers are at most this one, and gives their room back.
    pub fn prune(&mut self, alloc: Global, oldest: u64)
        ensures versions { self.new.versions ≡ above oldest self.old.versions }
        ensures pruned { self.new.pruned ≡ max self.old.pruned oldest }
        ensures room { self.old.room ≤ self.new.room }
        ensures more { self.old.room + length self.old.versions < 2 ^ 64 → self.new.room + length self.new.versions ≡ self.old.room + length self.old.versions }
    {
        let root = mem::replace(&mut self.root, Tree::Leaf);
        self.root = cut(alloc, root, oldest, &mut self.pool);
        self.pruned = self.pruned.max(oldest);
    }
}

/// Whether a node's version is of a place.
pub fn is_of<V>(node: &Node<V>, index: u32, key: &[u8]) -> bool
    ensures { result ≡ is_of (index, key.now) (own node.now) }
{
    place_order(index, key, node) == Ordering::Equal
}

// The node with this version.
fn filled<V: Drop>(
    mut node: Box<Node<V>>,
    index: u32,
    key: Bytes,
    number: u64,
    held: V,
) -> Box<Node<V>>
    ensures { own result.value ≡ (((index, key), number), held) }
{
    node.index = index;
    node.key = key;
    node.number = number;
    node.held = held;
    node
}
