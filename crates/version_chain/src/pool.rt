//! Nodes that hold nothing, made ahead.
ghost use Rattle.std.specs.Prelude.{◌≡◌, ◌+◌, ◌-◌, ◌^◌, ◌<◌, ◌≤◌, OnOk};

use crate::balance::{linked, split_first};
use crate::tree::{Node, Tree};
use iv_types::{Bytes, NoMemory};
use spare_map::Blank;
use std::alloc::Global;
use std::marker::Model;
use std::mem;

/// Nodes that hold nothing. Contracts see how many there are.
#[derive(Drop)]
pub struct Pool<V> {
    nodes: Tree<V>,
    room: u64,
}

impl<V> Model for Pool<V> {
    ghost use Rattle.std.specs.Prelude.{◌≡◌, ℕ, length};
    ghost use Rattle.version_chain.specs.Trees.{items, IsMarked};

    ghost Value = { ℕ };

    ghost view = { λ p. p.room };

    ghost invariant = { λ p. (p.room ≡ length (items p.nodes)) × IsMarked p.nodes };
}

impl<V: Blank> Pool<V> {
    /// No nodes.
    pub fn new() -> Pool<V>
        ensures { result ≡ 0 }
    {
        Pool {
            nodes: Tree::Leaf,
            room: 0,
        }
    }

    /// How many there are.
    pub fn room(&self) -> u64
        ensures { result ≡ self.now }
    {
        self.room
    }

    /// Makes nodes until there are at least so many.
    ///
    /// # Errors
    ///
    /// Where there is no memory for them. There are at least as many as before.
    pub fn reserve(&mut self, alloc: Global, more: u32) -> Result<(), NoMemory>
        ensures room { self.old ≤ self.new }
        ensures made { OnOk result (more ≤ self.new) }
    {
        while self.room < u64::from(more) {
            let node = Box::new(alloc, blank_node(alloc))?;
            let others = mem::replace(&mut self.nodes, Tree::Leaf);
            self.nodes = linked(Tree::Leaf, node, others);
            self.room += 1;
        }
        Ok(())
    }

    /// Takes a node; there is one.
    pub fn take(&mut self) -> Box<Node<V>>
        requires { 1 ≤ self.old }
        ensures { self.new + 1 ≡ self.old }
    {
        match mem::replace(&mut self.nodes, Tree::Leaf) {
            Tree::Leaf => unreachable!(),
            Tree::Fork(first) => {
                let (node, others) = split_first(first);
                self.nodes = others;
                self.room -= 1;
                node
            }
        }
    }

    /// Gives a node back, which then holds nothing.
    pub fn give(&mut self, alloc: Global, node: Box<Node<V>>)
        ensures room { self.old ≤ self.new }
        ensures more { self.old < 2 ^ 64 - 1 → self.new ≡ self.old + 1 }
    {
        if self.room < u64::MAX {
            let node = emptied(alloc, node);
            let others = mem::replace(&mut self.nodes, Tree::Leaf);
            self.nodes = linked(Tree::Leaf, node, others);
            self.room += 1;
        }
    }
}

// The node without what it holds.
fn emptied<V: Blank>(alloc: Global, mut node: Box<Node<V>>) -> Box<Node<V>> {
    node.key = Bytes::new(alloc);
    node.held = V::blank(alloc);
    node
}

// A node that holds nothing.
fn blank_node<V: Blank>(alloc: Global) -> Node<V> {
    Node {
        left: Tree::Leaf,
        height: 0,
        least: 0,
        index: 0,
        key: Bytes::new(alloc),
        number: 0,
        held: V::blank(alloc),
        right: Tree::Leaf,
    }
}
