//! Trees whose sides have come to differ in height, put right by rotations.
ghost use Rattle.std.specs.Prelude.{◌≡◌, ◌++◌, ◌∷◌, []};
ghost use Rattle.spare_map.specs.Trees.{items, own};

use crate::tree::{Node, Tree, height, joined, parted};

// The same with the left side's own right side over the node and it.
fn under_middle<V: Drop>(
    left: Tree<V>,
    pivot: Box<Node<V>>,
    middle: Tree<V>,
    node: Box<Node<V>>,
    right: Tree<V>,
) -> Tree<V>
    ensures { items result ≡ (items left ++ own pivot.value ∷ items middle) ++ own node.value ∷ items right }
{
    match middle {
        Tree::Leaf => joined(left, pivot, joined(Tree::Leaf, node, right)),
        Tree::Fork(top) => {
            let (before, top, behind) = parted(top);
            joined(
                joined(left, pivot, before),
                top,
                joined(behind, node, right),
            )
        }
    }
}

// The node with these sides, of which the left one is too high.
fn turned_right<V: Drop>(left: Tree<V>, node: Box<Node<V>>, right: Tree<V>) -> Tree<V>
    ensures { items result ≡ items left ++ own node.value ∷ items right }
{
    match left {
        Tree::Leaf => joined(Tree::Leaf, node, right),
        Tree::Fork(pivot) => {
            let (outer, pivot, inner) = parted(pivot);
            if height(&outer) < height(&inner) {
                under_middle(outer, pivot, inner, node, right)
            } else {
                joined(outer, pivot, joined(inner, node, right))
            }
        }
    }
}

// The node with these sides, of which the right one is too high.
fn turned_left<V: Drop>(left: Tree<V>, node: Box<Node<V>>, right: Tree<V>) -> Tree<V>
    ensures { items result ≡ items left ++ own node.value ∷ items right }
{
    match right {
        Tree::Leaf => joined(left, node, Tree::Leaf),
        Tree::Fork(pivot) => {
            let (inner, pivot, outer) = parted(pivot);
            if height(&outer) < height(&inner) {
                under_middle(left, node, inner, pivot, outer)
            } else {
                joined(joined(left, node, inner), pivot, outer)
            }
        }
    }
}

/// The node with these sides, whose heights differ by at most two.
pub fn balanced<V: Drop>(left: Tree<V>, node: Box<Node<V>>, right: Tree<V>) -> Tree<V>
    ensures { items result ≡ items left ++ own node.value ∷ items right }
{
    let (before, behind) = (height(&left), height(&right));
    if before > behind && before - behind > 1 {
        turned_right(left, node, right)
    } else if behind > before && behind - before > 1 {
        turned_left(left, node, right)
    } else {
        joined(left, node, right)
    }
}
