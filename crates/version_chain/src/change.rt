//! Versions put into a tree.
ghost use Rattle.std.specs.Prelude.{◌≡◌};
ghost use Rattle.table_laws.specs.Place.{place_cmp};
ghost use Rattle.version_chain.specs.Versions.{moment_cmp, with_version, AreInOrder};
ghost use Rattle.version_chain.specs.Trees.{items, own, moment, IsMarked};

use crate::balance::balanced;
use crate::tree::{Node, Tree, joined, parted};
use std::cmp::Ordering;

/// How a place compares with that of a node.
pub fn place_order<V>(index: u32, key: &[u8], node: &Node<V>) -> Ordering
    ensures { result ≡ place_cmp (index, key.now) (moment node.now).0 }
{
    index.cmp(&node.index).then(key.cmp(&node.key.as_slice()))
}

/// How a place at a number compares with that of a node.
pub fn order<V>(index: u32, key: &[u8], number: u64, node: &Node<V>) -> Ordering
    ensures { result ≡ moment_cmp ((index, key.now), number) (moment node.now) }
{
    place_order(index, key, node).then(number.cmp(&node.number))
}

/// The tree with this node too, behind all that are not behind it.
pub fn put_in<V: Drop>(tree: Tree<V>, node: Box<Node<V>>) -> Tree<V>
    requires sorted { AreInOrder (items tree) }
    requires marked { IsMarked tree }
    ensures items { items result ≡ with_version (own node.value) (items tree) }
    ensures marked { IsMarked result }
{
    match tree {
        Tree::Leaf => joined(Tree::Leaf, node, Tree::Leaf),
        Tree::Fork(top) => {
            let (left, top, right) = parted(top);
            match order(node.index, node.key.as_slice(), node.number, &top) {
                Ordering::Less => balanced(put_in(left, node), top, right),
                _ => balanced(left, top, put_in(right, node)),
            }
        }
    }
}
