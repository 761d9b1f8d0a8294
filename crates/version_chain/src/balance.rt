//! Trees whose sides have come to differ in height, put right by rotations.
ghost use Rattle.std.specs.Prelude.{◌≡◌, ◌++◌, ◌∷◌, []};
ghost use Rattle.version_chain.specs.Trees.{items, own, whole, IsMarked, HasMarked};

use crate::tree::{Node, Tree, height, joined, parted};

// The same with the left side's own right side over the node and it.
fn under_middle<V: Drop>(
    left: Tree<V>,
    pivot: Box<Node<V>>,
    middle: Tree<V>,
    node: Box<Node<V>>,
    right: Tree<V>,
) -> Tree<V>
    requires left { IsMarked left }
    requires middle { IsMarked middle }
    requires right { IsMarked right }
    ensures items { items result ≡ (items left ++ own pivot.value ∷ items middle) ++ own node.value ∷ items right }
    ensures marked { IsMarked result }
{
    match middle {
        Tree::Leaf => joined(left, pivot, joined(Tree::Leaf, node, right)),
        Tree::Fork(top) => {
            let (before, top, behind) = parted(top);
            joined(
                joined(left, pivot, before),
                top,
                joined(behind, node, right),
            )
        }
    }
}

// The node with these sides, of which the left one is too high.
fn turned_right<V: Drop>(left: Tree<V>, node: Box<Node<V>>, right: Tree<V>) -> Tree<V>
    requires left { IsMarked left }
    requires right { IsMarked right }
    ensures items { items result ≡ items left ++ own node.value ∷ items right }
    ensures marked { IsMarked result }
{
    match left {
        Tree::Leaf => joined(Tree::Leaf, node, right),
        Tree::Fork(pivot) => {
            let (outer, pivot, inner) = parted(pivot);
            if height(&outer) < height(&inner) {
                under_middle(outer, pivot, inner, node, right)
            } else {
                joined(outer, pivot, joined(inner, node, right))
            }
        }
    }
}

// The node with these sides, of which the right one is too high.
fn turned_left<V: Drop>(left: Tree<V>, node: Box<Node<V>>, right: Tree<V>) -> Tree<V>
    requires left { IsMarked left }
    requires right { IsMarked right }
    ensures items { items result ≡ items left ++ own node.value ∷ items right }
    ensures marked { IsMarked result }
{
    match right {
        Tree::Leaf => joined(left, node, Tree::Leaf),
        Tree::Fork(pivot) => {
            let (inner, pivot, outer) = parted(pivot);
            if height(&outer) < height(&inner) {
                under_middle(left, node, inner, pivot, outer)
            } else {
                joined(joined(left, node, inner), pivot, outer)
            }
        }
    }
}

/// The node with these sides, whose heights differ by at most two.
pub fn balanced<V: Drop>(left: Tree<V>, node: Box<Node<V>>, right: Tree<V>) -> Tree<V>
    requires left { IsMarked left }
    requires right { IsMarked right }
    ensures items { items result ≡ items left ++ own node.value ∷ items right }
    ensures marked { IsMarked result }
{
    let (before, behind) = (height(&left), height(&right));
    if before > behind && before - behind > 1 {
        turned_right(left, node, right)
    } else if behind > before && behind - before > 1 {
        turned_left(left, node, right)
    } else {
        joined(left, node, right)
    }
}

/// The node with these sides, of any heights (Blelloch, Ferizovic and Sun, Just join for parallel ordered sets, 2016).
pub fn linked<V: Drop>(left: Tree<V>, node: Box<Node<V>>, right: Tree<V>) -> Tree<V>
    requires left { IsMarked left }
    requires right { IsMarked right }
    ensures items { items result ≡ items left ++ own node.value ∷ items right }
    ensures marked { IsMarked result }
{
    let (before, behind) = (height(&left), height(&right));
    if before > behind && before - behind > 1 {
        match left {
            Tree::Leaf => joined(Tree::Leaf, node, right),
            Tree::Fork(top) => {
                let (outer, top, inner) = parted(top);
                balanced(outer, top, linked(inner, node, right))
            }
        }
    } else if behind > before && behind - before > 1 {
        match right {
            Tree::Leaf => joined(left, node, Tree::Leaf),
            Tree::Fork(top) => {
                let (inner, top, outer) = parted(top);
                balanced(linked(left, node, inner), top, outer)
            }
        }
    } else {
        joined(left, node, right)
    }
}

/// The first node, and the tree of the others.
pub fn split_first<V: Drop>(node: Box<Node<V>>) -> (Box<Node<V>>, Tree<V>)
    requires marked { HasMarked node.value }
    ensures items { whole node.value ≡ own result.0.value ∷ items result.1 }
    ensures marked { IsMarked result.1 }
{
    let (left, node, right) = parted(node);
    match left {
        Tree::Leaf => (node, right),
        Tree::Fork(first) => {
            let (least, left) = split_first(first);
            (least, balanced(left, node, right))
        }
    }
}

/// One tree of two that stand beside each other.
pub fn merged<V: Drop>(left: Tree<V>, right: Tree<V>) -> Tree<V>
    requires left { IsMarked left }
    requires right { IsMarked right }
    ensures items { items result ≡ items left ++ items right }
    ensures marked { IsMarked result }
{
    match right {
        Tree::Leaf => left,
        Tree::Fork(first) => {
            let (least, right) = split_first(first);
            linked(left, least, right)
        }
    }
}
