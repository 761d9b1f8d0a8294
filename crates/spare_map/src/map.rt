//! The map.
ghost use Rattle.std.specs.Prelude.{◌≡◌, ℕ, ◌+◌, ◌-◌, ◌^◌, ◌<◌, ◌≤◌, length, true, false, Some, None, OnOk, IsSome};
ghost use Rattle.std.specs.Option.{option_copied, option_map};
ghost use Rattle.std.specs.FinMap.{empty, get, insert, remove, entries};
ghost use Rattle.spare_map.specs.Trees.{items, own, first_where, is_from, place};

use crate::change::{merged, put_in, swap, take_out};
use crate::search::{first, found};
use crate::tree::{Node, Tree, joined, parted};
use iv_types::{Bytes, NoMemory, Sequence};
use std::alloc::Global;
use std::marker::Model;
use std::mem;

/// A value that takes no memory, for nodes that are made ahead.
pub trait Blank: Drop {
    fn blank(alloc: Global) -> Self;
}

impl<T: Drop> Blank for Sequence<T> {
    fn blank(alloc: Global) -> Self {
        Sequence::new(alloc)
    }
}

impl<T: Drop> Blank for Option<T> {
    fn blank(_alloc: Global) -> Self {
        None
    }
}

impl Blank for () {
    fn blank(_alloc: Global) -> Self {}
}

/// Room for one more value, made ahead, which belongs to no map yet.
#[derive(Drop)]
pub struct Spare<V> {
    node: Box<Node<V>>,
}

impl<V: Blank> Spare<V> {
    /// Makes it.
    ///
    /// # Errors
    ///
    /// Where there is no memory for it.
    pub fn new(alloc: Global) -> Result<Spare<V>, NoMemory> {
        let node = Box::new(alloc, blank_node(alloc))?;
        Ok(Spare { node })
    }
}

/// Values under places (a number and bytes), in the order of the places. `reserve` makes room, and no other call takes memory.
#[derive(Drop)]
pub struct SpareMap<V> {
    root: Tree<V>,
    // Nodes that hold nothing, each on the right of another.
    spare: Tree<V>,
    room: usize,
}

impl<V> Model for SpareMap<V> {
    ghost use Rattle.std.specs.Prelude.{◌≡◌, T, length};
    ghost use Rattle.std.specs.FinMap.{from_sorted, is_sorted};
    ghost use Rattle.table_laws.specs.Place.{place_cmp};
    ghost use Rattle.spare_map.specs.Spared.{Spared, spared_code};
    ghost use Rattle.spare_map.specs.Trees.{items};

    ghost Value = { Spared V };

    ghost coded = { spared_code V.code };

    ghost view = { λ m. record { entries = from_sorted (items m.root); room = m.room } };

    ghost invariant = { λ m. T (is_sorted place_cmp (items m.root)) × (m.room ≡ length (items m.spare)) };
}

impl<V: Blank> SpareMap<V> {
    /// A map without values and without room.
    pub fn new() -> SpareMap<V>
        ensures entries { result.entries ≡ empty }
        ensures room { result.room ≡ 0 }
    {
        SpareMap {
            root: Tree::Leaf,
            spare: Tree::Leaf,
            room: 0,
        }
    }

    /// How many more places it can take without memory.
    pub fn room(&self) -> usize
        ensures { result ≡ self.now.room }
    {
        self.room
    }

    /// The value under a place, if there is one.
    pub fn get(&self, index: u32, key: &[u8]) -> Option<&V>
        ensures { option_copied result ≡ get self.now.entries (index, key.now) }
    {
        found(&self.root, index, key)
    }

    /// The first place at this one or behind it, if there is one.
    pub fn first_at(&self, index: u32, key: &[u8]) -> Option<(u32, &[u8])>
        ensures { option_map (λ place. (place.0, place.1.now)) result ≡ option_map (λ e. e.0) (first_where (is_from false (index, key.now)) (entries self.now.entries)) }
    {
        match first(&self.root, index, key, false) {
            Some(node) => Some(place_of(node)),
            None => None,
        }
    }

    /// The first place behind this one, if there is one.
    pub fn first_after(&self, index: u32, key: &[u8]) -> Option<(u32, &[u8])>
        ensures { option_map (λ place. (place.0, place.1.now)) result ≡ option_map (λ e. e.0) (first_where (is_from true (index, key.now)) (entries self.now.entries)) }
    {
        match first(&self.root, index, key, true) {
            Some(node) => Some(place_of(node)),
            None => None,
        }
    }

    /// Makes room for at least so many more places.
    ///
    /// # Errors
    ///
    /// Where there is no memory for it. What is held stays, and there is at least as much room as before.
    pub fn reserve(&mut self, alloc: Global, more: usize) -> Result<(), NoMemory>
        ensures entries { self.new.entries ≡ self.old.entries }
        ensures room { self.old.room ≤ self.new.room }
        ensures made { OnOk result (more ≤ self.new.room) }
    {
        while self.room < more {
            let node = Box::new(alloc, blank_node(alloc))?;
            let others = mem::replace(&mut self.spare, Tree::Leaf);
            self.spare = joined(Tree::Leaf, node, others);
            self.room += 1;
        }
        Ok(())
    }

    /// Puts a value under a place where there is none.
    pub fn insert(&mut self, index: u32, key: Bytes, value: V)
        requires room { 1 ≤ self.old.room }
        requires new { get self.old.entries (index, key) ≡ None }
        ensures entries { self.new.entries ≡ insert self.old.entries (index, key) value }
        ensures room { self.new.room + 1 ≡ self.old.room }
    {
        let (node, others) = popped(mem::replace(&mut self.spare, Tree::Leaf));
        self.spare = others;
        self.room -= 1;
        let root = mem::replace(&mut self.root, Tree::Leaf);
        self.root = put_in(root, filled(node, index, key, value));
    }

    /// Puts a value under a place where there is none, into room that was made for it alone.
    pub fn insert_into(&mut self, spare: Spare<V>, index: u32, key: Bytes, value: V)
        requires new { get self.old.entries (index, key) ≡ None }
        ensures entries { self.new.entries ≡ insert self.old.entries (index, key) value }
        ensures room { self.new.room ≡ self.old.room }
    {
        let root = mem::replace(&mut self.root, Tree::Leaf);
        self.root = put_in(root, filled(spare.node, index, key, value));
    }

    /// Puts a value under a place where there is one, and gives that back.
    pub fn replace(&mut self, index: u32, key: &[u8], value: V) -> V
        requires held { IsSome (get self.old.entries (index, key.now)) }
        ensures entries { self.new.entries ≡ insert self.old.entries (index, key.now) value }
        ensures old { get self.old.entries (index, key.now) ≡ Some result }
        ensures room { self.new.room ≡ self.old.room }
    {
        swap(&mut self.root, index, key, value)
    }

    /// Takes out the value under a place, if there is one, and lets its room go.
    pub fn take(&mut self, alloc: Global, index: u32, key: &[u8]) -> Option<V>
        ensures entries { self.new.entries ≡ remove self.old.entries (index, key.now) }
        ensures taken { result ≡ get self.old.entries (index, key.now) }
        ensures room { self.new.room ≡ self.old.room }
    {
        let root = mem::replace(&mut self.root, Tree::Leaf);
        let (root, taken) = take_out(root, index, key);
        self.root = root;
        held_of(alloc, taken)
    }

    /// Takes out the value under a place, if there is one. Its room is there for another.
    pub fn remove(&mut self, alloc: Global, index: u32, key: &[u8]) -> Option<V>
        ensures entries { self.new.entries ≡ remove self.old.entries (index, key.now) }
        ensures taken { result ≡ get self.old.entries (index, key.now) }
        ensures room { self.old.room ≤ self.new.room }
        ensures more { IsSome result → self.old.room < 2 ^ 64 - 1 → self.new.room ≡ self.old.room + 1 }
    {
        let root = mem::replace(&mut self.root, Tree::Leaf);
        let (root, taken) = take_out(root, index, key);
        self.root = root;
        let mut node = taken?;
        let value = mem::replace(&mut node.held, V::blank(alloc));
        if self.room < usize::MAX {
            node.key = Bytes::new(alloc);
            let others = mem::replace(&mut self.spare, Tree::Leaf);
            self.spare = joined(Tree::Leaf, node, others);
            self.room += 1;
        }
        Some(value)
    }
}

// A node of some that hold nothing, and the others.
fn popped<V: Drop>(spare: Tree<V>) -> (Box<Node<V>>, Tree<V>)
    requires some { 1 ≤ length (items spare) }
    ensures { length (items result.1) + 1 ≡ length (items spare) }
{
    match spare {
        Tree::Leaf => unreachable!(),
        Tree::Fork(node) => {
            let (before, node, behind) = parted(node);
            (node, merged(before, behind))
        }
    }
}

// The node with this value under this place.
fn filled<V: Drop>(mut node: Box<Node<V>>, index: u32, key: Bytes, value: V) -> Box<Node<V>>
    ensures { own result.value ≡ ((index, key), value) }
{
    node.index = index;
    node.key = key;
    node.held = value;
    node
}

// The node with this value, and the one that it had.
fn refilled<V: Drop>(mut node: Box<Node<V>>, value: V) -> (Box<Node<V>>, V)
    ensures { (own result.0.value ≡ (place node.value, value)) × (result.1 ≡ node.value.held) }
{
    let old = mem::replace(&mut node.held, value);
    (node, old)
}

// The value of a node, if there is one. The node is let go.
fn held_of<V: Blank>(alloc: Global, taken: Option<Box<Node<V>>>) -> Option<V>
    ensures { result ≡ option_map (λ node. node.value.held) taken }
{
    match taken {
        Some(node) => {
            let (_node, value) = refilled(node, V::blank(alloc));
            Some(value)
        }
        None => None,
    }
}

// A node that holds nothing.
fn blank_node<V: Blank>(alloc: Global) -> Node<V> {
    Node {
        left: Tree::Leaf,
        height: 0,
        index: 0,
        key: Bytes::new(alloc),
        held: V::blank(alloc),
        right: Tree::Leaf,
    }
}

fn place_of<V>(node: &Node<V>) -> (u32, &[u8])
    ensures { (result.0, result.1.now) ≡ place node.now }
{
    (node.index, node.key.as_slice())
}
