//! Versions looked for in a tree.
ghost use Rattle.std.specs.Prelude.{◌≡◌};
ghost use Rattle.std.specs.Option.{option_copied, option_map};
ghost use Rattle.version_chain.specs.Versions.{AreInOrder, first_where, is_from};
ghost use Rattle.version_chain.specs.Trees.{items, own};

use crate::change::order;
use crate::tree::{Node, Tree};
use std::cmp::Ordering;

/// Whether a node is at a moment or behind it, or only the latter.
pub fn is_from<V>(node: &Node<V>, index: u32, key: &[u8], number: u64, past: bool) -> bool
    ensures { result ≡ is_from past ((index, key.now), number) (own node.now) }
{
    match order(index, key, number, node) {
        Ordering::Less => true,
        Ordering::Equal => !past,
        Ordering::Greater => false,
    }
}

/// The first version at a place and a number or behind it, or the first one behind it.
pub fn first<'a, V>(
    tree: &'a Tree<V>,
    index: u32,
    key: &[u8],
    number: u64,
    past: bool,
) -> Option<&'a Node<V>>
    requires sorted { AreInOrder (items tree.now) }
    ensures { option_map own (option_copied result) ≡ first_where (is_from past ((index, key.now), number)) (items tree.now) }
{
    let mut at = tree;
    let mut best = None;
    while let Tree::Fork(top) = at {
        let node: &Node<V> = top;
        if is_from(node, index, key, number, past) {
            best = Some(node);
            at = &node.left;
        } else {
            at = &node.right;
        }
    }
    best
}
