//! Nodes looked for in a tree.
ghost use Rattle.std.specs.Prelude.{◌≡◌, T};
ghost use Rattle.std.specs.Option.{option_copied, option_map};
ghost use Rattle.std.specs.FinMap.{find, is_sorted};
ghost use Rattle.table_laws.specs.Place.{place_cmp};
ghost use Rattle.spare_map.specs.Trees.{items, own, first_where, is_from};

use crate::change::order;
use crate::tree::{Node, Tree};
use std::cmp::Ordering;

/// The value under a place.
pub fn found<'a, V>(tree: &'a Tree<V>, index: u32, key: &[u8]) -> Option<&'a V>
    requires sorted { T (is_sorted place_cmp (items tree.now)) }
    ensures { option_copied result ≡ find place_cmp (index, key.now) (items tree.now) }
{
    let mut at = tree;
    while let Tree::Fork(top) = at {
        let node: &Node<V> = top;
        match order(index, key, node) {
            Ordering::Less => at = &node.left,
            Ordering::Greater => at = &node.right,
            Ordering::Equal => return Some(&node.held),
        }
    }
    None
}

// Whether a node is at a place or behind it, or only the latter.
fn is_from<V>(node: &Node<V>, index: u32, key: &[u8], past: bool) -> bool
    ensures { result ≡ is_from past (index, key.now) (own node.now).0 }
{
    match order(index, key, node) {
        Ordering::Less => true,
        Ordering::Equal => !past,
        Ordering::Greater => false,
    }
}

/// The first node at a place or behind it, or the first one behind it.
pub fn first<'a, V>(tree: &'a Tree<V>, index: u32, key: &[u8], past: bool) -> Option<&'a Node<V>>
    requires sorted { T (is_sorted place_cmp (items tree.now)) }
    ensures { option_map own (option_copied result) ≡ first_where (is_from past (index, key.now)) (items tree.now) }
{
    let mut at = tree;
    let mut best = None;
    while let Tree::Fork(top) = at {
        let node: &Node<V> = top;
        if is_from(node, index, key, past) {
            best = Some(node);
            at = &node.left;
        } else {
            at = &node.right;
        }
    }
    best
}
