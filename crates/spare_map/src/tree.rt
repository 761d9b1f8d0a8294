//! A tree in the order of its places, whose two sides differ in height by at most one (Adelson-Velsky and Landis, An algorithm
//! for the organization of information, 1962). The heights make searches short; no clause speaks of them.
ghost use Rattle.std.specs.Prelude.{◌≡◌, ◌++◌, ◌∷◌, []};
ghost use Rattle.spare_map.specs.Trees.{items, own, whole};

use iv_types::Bytes;
use std::mem;

#[derive(Drop)]
#[cycle(tree)]
pub enum Tree<V> {
    Leaf,
    Fork(Box<Node<V>>),
}

#[derive(Drop)]
#[cycle(tree)]
pub struct Node<V> {
    pub left: Tree<V>,
    pub height: u8,
    pub index: u32,
    pub key: Bytes,
    pub held: V,
    pub right: Tree<V>,
}

/// How high a tree is.
pub fn height<V>(tree: &Tree<V>) -> u8 {
    match tree {
        Tree::Leaf => 0,
        Tree::Fork(node) => node.height,
    }
}

// One more than the greater height.
fn above(left: u8, right: u8) -> u8 {
    let most = if left < right { right } else { left };
    most.saturating_add(1)
}

/// The node with these sides.
pub fn joined<V: Drop>(left: Tree<V>, mut node: Box<Node<V>>, right: Tree<V>) -> Tree<V>
    ensures { items result ≡ items left ++ own node.value ∷ items right }
{
    node.height = above(height(&left), height(&right));
    node.left = left;
    node.right = right;
    Tree::Fork(node)
}

/// The node without its sides, and these.
pub fn parted<V: Drop>(mut node: Box<Node<V>>) -> (Tree<V>, Box<Node<V>>, Tree<V>)
    ensures { whole node.value ≡ items result.0 ++ own result.1.value ∷ items result.2 }
{
    let left = mem::replace(&mut node.left, Tree::Leaf);
    let right = mem::replace(&mut node.right, Tree::Leaf);
    (left, node, right)
}
