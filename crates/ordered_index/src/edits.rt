//! Edits of leaves, by a buffer page.
ghost use Rattle.std.specs.Prelude.{◌≡◌, ℕ, ◌+◌, ◌-◌, ◌<◌, ◌≤◌, List, [], ◌∷◌, ◌++◌, length, take, drop, get_or, set};
ghost use Rattle.std.specs.List.{insert, remove};
ghost use Rattle.slot_page.specs.Page.{Entry, space, whole_page, page_body, entry_head};
ghost use Rattle.ordered_index.specs.Row.{Row, Leaf, no_leaf};

use crate::leaves::Leaves;
use slot_page::{count, index};

/// Puts an entry before entry `i` of leaf `k`.
pub fn insert_at(
    leaves: &mut Leaves,
    buffer: &mut [u8],
    k: usize,
    i: usize,
    key: &[u8],
    value: &[u8],
)
    requires buffer { length buffer.old ≡ whole_page }
    requires leaf { k < length leaves.old.leaves }
    requires place { i ≤ length (get_or leaves.old.leaves k no_leaf).1 }
    requires room { space (get_or leaves.old.leaves k no_leaf).1 + entry_head + length key.now + length value.now ≤ page_body }
    ensures { leaves.new ≡ (let leaf = get_or leaves.old.leaves k no_leaf in record leaves.old { leaves = set leaves.old.leaves k (leaf.0, insert leaf.1 i (key.now, value.now)) }) }
{
    let n = count(leaves.page(k));
    if i == n {
        leaves.append(k, key, value);
        return;
    }
    buffer.copy_from_slice(leaves.page(k));
    leaves.truncate(k, i);
    leaves.append(k, key, value);
    leaves.append_from(k, buffer, i, n);
}

/// Removes entry `i` of leaf `k`.
pub fn remove_at(leaves: &mut Leaves, buffer: &mut [u8], k: usize, i: usize)
    requires buffer { length buffer.old ≡ whole_page }
    requires leaf { k < length leaves.old.leaves }
    requires place { i < length (get_or leaves.old.leaves k no_leaf).1 }
    requires fits { space (get_or leaves.old.leaves k no_leaf).1 ≤ page_body }
    ensures { leaves.new ≡ (let leaf = get_or leaves.old.leaves k no_leaf in record leaves.old { leaves = set leaves.old.leaves k (leaf.0, remove leaf.1 i) }) }
{
    buffer.copy_from_slice(leaves.page(k));
    let n = count(buffer);
    leaves.truncate(k, i);
    leaves.append_from(k, buffer, i + 1, n);
}

/// Cuts leaf `k` in two before entry `i`.
pub fn cut(leaves: &mut Leaves, buffer: &mut [u8], k: usize, i: usize)
    requires buffer { length buffer.old ≡ whole_page }
    requires leaf { k < length leaves.old.leaves }
    requires place { i ≤ length (get_or leaves.old.leaves k no_leaf).1 }
    requires free { length leaves.old.leaves < leaves.old.pages }
    requires fits { space (get_or leaves.old.leaves k no_leaf).1 ≤ page_body }
    ensures { leaves.new ≡ (let leaf = get_or leaves.old.leaves k no_leaf in record leaves.old { leaves = insert (set leaves.old.leaves k (leaf.0, take i leaf.1)) (k + 1) (leaf.0, drop i leaf.1) }) }
{
    let _leaves = leaves.len();
    buffer.copy_from_slice(leaves.page(k));
    let n = count(buffer);
    let of = index(buffer);
    leaves.truncate(k, i);
    leaves.open(k + 1, of);
    leaves.append_from(k + 1, buffer, i, n);
}

/// Joins leaf `k` with the next one.
pub fn join(leaves: &mut Leaves, buffer: &mut [u8], k: usize)
    requires buffer { length buffer.old ≡ whole_page }
    requires leaf { k + 1 < length leaves.old.leaves }
    requires room { space (get_or leaves.old.leaves k no_leaf).1 + space (get_or leaves.old.leaves (k + 1) no_leaf).1 ≤ page_body }
    ensures { leaves.new ≡ (let leaf = get_or leaves.old.leaves k no_leaf in record leaves.old { leaves = set (remove leaves.old.leaves (k + 1)) k (leaf.0, leaf.1 ++ (get_or leaves.old.leaves (k + 1) no_leaf).1) }) }
{
    let _leaves = leaves.len();
    buffer.copy_from_slice(leaves.page(k + 1));
    let n = count(buffer);
    leaves.close(k + 1);
    leaves.append_from(k, buffer, 0, n);
}

/// Opens a leaf of one entry before leaf `k`.
pub fn new_leaf(leaves: &mut Leaves, k: usize, of: u32, key: &[u8], value: &[u8])
    requires place { k ≤ length leaves.old.leaves }
    requires free { length leaves.old.leaves < leaves.old.pages }
    requires room { entry_head + length key.now + length value.now ≤ page_body }
    ensures { leaves.new ≡ record leaves.old { leaves = insert leaves.old.leaves k (of, (key.now, value.now) ∷ []) } }
{
    leaves.open(k, of);
    leaves.append(k, key, value);
}
