//! Nodes put into a tree and taken out.
ghost use Rattle.std.specs.Prelude.{◌≡◌, ◌++◌, ◌∷◌, [], T, Some, None, IsSome, IfSome};
ghost use Rattle.std.specs.Option.{option_map};
ghost use Rattle.std.specs.FinMap.{find, put, is_sorted};
ghost use Rattle.table_laws.specs.Place.{place_cmp};
ghost use Rattle.spare_map.specs.Trees.{items, own, place, whole, without};

use crate::balance::balanced;
use crate::tree::{Node, Tree, joined, parted};
use std::cmp::Ordering;
use std::mem;

/// How a place compares with that of a node.
pub fn order<V>(index: u32, key: &[u8], node: &Node<V>) -> Ordering
    ensures { result ≡ place_cmp (index, key.now) (place node.now) }
{
    index.cmp(&node.index).then(key.cmp(&node.key.as_slice()))
}

/// The tree with this node too, whose place is new.
pub fn put_in<V: Drop>(tree: Tree<V>, node: Box<Node<V>>) -> Tree<V>
    requires sorted { T (is_sorted place_cmp (items tree)) }
    requires new { find place_cmp (place node.value) (items tree) ≡ None }
    ensures { items result ≡ put place_cmp (place node.value) node.value.held (items tree) }
{
    match tree {
        Tree::Leaf => joined(Tree::Leaf, node, Tree::Leaf),
        Tree::Fork(top) => {
            let (left, top, right) = parted(top);
            match order(node.index, node.key.as_slice(), &top) {
                Ordering::Less => balanced(put_in(left, node), top, right),
                Ordering::Greater => balanced(left, top, put_in(right, node)),
                Ordering::Equal => unreachable!(),
            }
        }
    }
}

// The first node, and the tree of the others.
fn split_first<V: Drop>(node: Box<Node<V>>) -> (Box<Node<V>>, Tree<V>)
    ensures { whole node.value ≡ own result.0.value ∷ items result.1 }
{
    let (left, node, right) = parted(node);
    match left {
        Tree::Leaf => (node, right),
        Tree::Fork(first) => {
            let (least, left) = split_first(first);
            (least, balanced(left, node, right))
        }
    }
}

/// One tree of two that stand beside each other.
pub fn merged<V: Drop>(left: Tree<V>, right: Tree<V>) -> Tree<V>
    ensures { items result ≡ items left ++ items right }
{
    match right {
        Tree::Leaf => left,
        Tree::Fork(first) => {
            let (least, right) = split_first(first);
            balanced(left, least, right)
        }
    }
}

/// The tree without the node of a place, and that node if there is one.
pub fn take_out<V: Drop>(tree: Tree<V>, index: u32, key: &[u8]) -> (Tree<V>, Option<Box<Node<V>>>)
    requires sorted { T (is_sorted place_cmp (items tree)) }
    ensures rest { items result.0 ≡ without (index, key.now) (items tree) }
    ensures taken { option_map (λ node. node.value.held) result.1 ≡ find place_cmp (index, key.now) (items tree) }
    ensures at { IfSome result.1 (λ node. place node.value ≡ (index, key.now)) }
{
    match tree {
        Tree::Leaf => (Tree::Leaf, None),
        Tree::Fork(top) => {
            let (left, top, right) = parted(top);
            match order(index, key, &top) {
                Ordering::Less => {
                    let (left, taken) = take_out(left, index, key);
                    (balanced(left, top, right), taken)
                }
                Ordering::Greater => {
                    let (right, taken) = take_out(right, index, key);
                    (balanced(left, top, right), taken)
                }
                Ordering::Equal => (merged(left, right), Some(top)),
            }
        }
    }
}

/// Puts a value under a place where there is one, and gives that back. Each node stays where it is.
pub fn swap<V>(tree: &mut Tree<V>, index: u32, key: &[u8], value: V) -> V
    requires sorted { T (is_sorted place_cmp (items tree.old)) }
    requires held { IsSome (find place_cmp (index, key.now) (items tree.old)) }
    ensures put { items tree.new ≡ put place_cmp (index, key.now) value (items tree.old) }
    ensures found { find place_cmp (index, key.now) (items tree.old) ≡ Some result }
{
    match tree {
        Tree::Leaf => unreachable!(),
        Tree::Fork(node) => match order(index, key, node) {
            Ordering::Less => swap(&mut node.left, index, key, value),
            Ordering::Greater => swap(&mut node.right, index, key, value),
            Ordering::Equal => mem::replace(&mut node.held, value),
        },
    }
}
