//! A tree of versions in the order of their places and numbers, whose two sides differ in height by at most one
//! (Adelson-Velsky and Landis, An algorithm for the organization of information, 1962). Each node is marked with the least
//! number under it, so that old versions are found without a walk over the others. The heights make searches short; no
//! clause speaks of them.
ghost use Rattle.std.specs.Prelude.{◌≡◌, ◌++◌, ◌∷◌, []};
ghost use Rattle.version_chain.specs.Trees.{items, own, whole, AreFrom, IsMarked, HasMarked};

use iv_types::Bytes;
use std::mem;

#[derive(Drop)]
#[cycle(tree)]
pub enum Tree<V> {
    Leaf,
    Fork(Box<Node<V>>),
}

#[derive(Drop)]
#[cycle(tree)]
pub struct Node<V> {
    pub left: Tree<V>,
    pub height: u8,
    pub least: u64,
    pub index: u32,
    pub key: Bytes,
    pub number: u64,
    pub held: V,
    pub right: Tree<V>,
}

/// How high a tree is.
pub fn height<V>(tree: &Tree<V>) -> u8 {
    match tree {
        Tree::Leaf => 0,
        Tree::Fork(node) => node.height,
    }
}

/// A number that none in the tree is below.
pub fn least<V>(tree: &Tree<V>) -> u64
    requires marked { IsMarked tree.now }
    ensures { AreFrom result (items tree.now) }
{
    match tree {
        Tree::Leaf => u64::MAX,
        Tree::Fork(node) => node.least,
    }
}

// One more than the greater height.
fn above(left: u8, right: u8) -> u8 {
    let most = if left < right { right } else { left };
    most.saturating_add(1)
}

/// The node with these sides.
pub fn joined<V: Drop>(left: Tree<V>, mut node: Box<Node<V>>, right: Tree<V>) -> Tree<V>
    requires left { IsMarked left }
    requires right { IsMarked right }
    ensures items { items result ≡ items left ++ own node.value ∷ items right }
    ensures marked { IsMarked result }
{
    node.height = above(height(&left), height(&right));
    node.least = node.number.min(least(&left)).min(least(&right));
    node.left = left;
    node.right = right;
    Tree::Fork(node)
}

/// The node without its sides, and these.
pub fn parted<V: Drop>(mut node: Box<Node<V>>) -> (Tree<V>, Box<Node<V>>, Tree<V>)
    requires marked { HasMarked node.value }
    ensures items { whole node.value ≡ items result.0 ++ own result.1.value ∷ items result.2 }
    ensures left { IsMarked result.0 }
    ensures right { IsMarked result.2 }
{
    let left = mem::replace(&mut node.left, Tree::Leaf);
    let right = mem::replace(&mut node.right, Tree::Leaf);
    (left, node, right)
}
