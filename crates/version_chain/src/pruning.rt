//! Old versions taken out of a tree.
ghost use Rattle.std.specs.Prelude.{◌≡◌, ◌+◌, ◌^◌, ◌<◌, ◌≤◌, length};
ghost use Rattle.version_chain.specs.Versions.{above};
ghost use Rattle.version_chain.specs.Trees.{items, IsMarked};

use crate::balance::{linked, merged};
use crate::pool::Pool;
use crate::tree::{Tree, least, parted};
use spare_map::Blank;
use std::alloc::Global;

/// The tree of the versions with numbers above this one. The nodes of the others go into the pool. It goes into no side
/// that has none of the others.
pub fn cut<V: Blank>(alloc: Global, tree: Tree<V>, oldest: u64, pool: &mut Pool<V>) -> Tree<V>
    requires marked { IsMarked tree }
    ensures items { items result ≡ above oldest (items tree) }
    ensures marked { IsMarked result }
    ensures fewer { length (items result) ≤ length (items tree) }
    ensures room { pool.old ≤ pool.new }
    ensures more { pool.old + length (items tree) < 2 ^ 64 → pool.new + length (items result) ≡ pool.old + length (items tree) }
{
    if least(&tree) > oldest {
        return tree;
    }
    match tree {
        Tree::Leaf => Tree::Leaf,
        Tree::Fork(top) => {
            let (left, node, right) = parted(top);
            let left = cut(alloc, left, oldest, pool);
            let right = cut(alloc, right, oldest, pool);
            if node.number > oldest {
                linked(left, node, right)
            } else {
                pool.give(alloc, node);
                merged(left, right)
            }
        }
    }
}
