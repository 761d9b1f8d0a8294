//! Versions of view rows.
ghost use Rattle.std.specs.Prelude.{◌≡◌, ◌+◌, ◌≤◌, ◌-ℤ◌, ℤ, List, length, true, Some, None, IfOk};
ghost use Rattle.std.specs.Int.{w128, int_wrap};
ghost use Rattle.std.specs.Option.{option_copied};
ghost use Rattle.ghost_rows.specs.Numbers.{numbers_bytes, Fits128};
ghost use Rattle.version_chain.specs.Versions.{AreInOrder};
ghost use Rattle.version_chain.specs.Trees.{items};
ghost use Rattle.version_chain.specs.Chains.{pushed, none_above};
ghost use Rattle.version_chain.specs.Deltas.{worth, due, less};

use crate::chains::{Chains, is_of};
use crate::copying::copied_row;
use crate::search::{first, is_from};
use crate::tree::{Node, Tree};
use ghost_rows::numbers::{front, push};
use iv_types::{Bytes, GroupDelta, NoMemory, NumberList};
use spare_map::Blank;
use std::alloc::Global;

/// What a commit added to a row of a view: a count, and its sums.
#[derive(Drop)]
pub struct Delta {
    pub count: i8,
    pub sums: NumberList,
}

impl Blank for Delta {
    fn blank(alloc: Global) -> Self {
        Delta {
            count: 0,
            sums: NumberList::new(alloc),
        }
    }
}

/// Chains of the deltas of view rows.
pub type DeltaChains = Chains<Delta>;

// What a delta adds to a column.
fn worth(delta: &Delta, column: usize) -> i128
    ensures { result ≡ worth column delta.now }
{
    if column == 0 {
        return i128::from(delta.count);
    }
    match delta.sums.as_slice().get(column - 1) {
        Some(sum) => *sum,
        None => 0,
    }
}

// A number less another one, modulo 2^128.
fn wrapped_less(number: i128, step: i128) -> i128
    ensures { result ≡ int_wrap w128 (number -ℤ step) }
{
    number.wrapping_sub(step)
}

// A number less what the deltas of a place above a number add to its column, modulo 2^128.
fn lessened(
    tree: &Tree<Delta>,
    index: u32,
    key: &[u8],
    number: u64,
    column: usize,
    from: i128,
) -> i128
    requires sorted { AreInOrder (items tree.now) }
    ensures { result ≡ int_wrap w128 (from -ℤ due number (index, key.now) column (items tree.now)) }
{
    match tree {
        Tree::Leaf => from,
        Tree::Fork(top) => {
            let node: &Node<Delta> = top;
            if !is_from(node, index, key, number, true) {
                return lessened(&node.right, index, key, number, column, from);
            }
            let before = lessened(&node.left, index, key, number, column, from);
            if !is_of(node, index, key) {
                return before;
            }
            let here = wrapped_less(before, worth(&node.held, column));
            lessened(&node.right, index, key, number, column, here)
        }
    }
}

// The numbers of a stored row, each less what the deltas of a place above a number add to its column.
fn row_less(
    alloc: Global,
    tree: &Tree<Delta>,
    index: u32,
    key: &[u8],
    number: u64,
    stored: &[u8],
) -> Result<Bytes, NoMemory>
    requires sorted { AreInOrder (items tree.now) }
    ensures { IfOk result (λ row. (numbers : List ℤ) → Fits128 numbers → Fits128 (less (λ column. due number (index, key.now) column (items tree.now)) 0 numbers) → stored.now ≡ numbers_bytes numbers
        → row ≡ numbers_bytes (less (λ column. due number (index, key.now) column (items tree.now)) 0 numbers)) }
{
    let mut out = Vec::new(alloc);
    let mut rest = stored;
    let mut column = 0;
    while rest.len() >= 16 {
        let (value, after) = front(rest);
        push(&mut out, lessened(tree, index, key, number, column, value))?;
        rest = after;
        column += 1;
    }
    Ok(Bytes::from_vec(out))
}

impl Chains<Delta> {
    /// Adds the delta of a view row that a commit with this number added. One that is not above what was pruned is let go at
    /// once. It takes no memory.
    pub fn push(&mut self, number: u64, change: GroupDelta)
        requires room { 1 ≤ self.old.room }
        ensures versions { self.new.versions ≡ pushed (((change.view, change.group), number), record { count = change.count; sums = change.sums }) self.old.pruned self.old.versions }
        ensures pruned { self.new.pruned ≡ self.old.pruned }
        ensures room { self.new.room + length self.new.versions ≡ self.old.room + length self.old.versions }
    {
        let GroupDelta {
            view,
            group,
            count,
            sums,
        } = change;
        self.add(view, group, number, Delta { count, sums });
    }

    /// The row that stood under a group at a commit number, which is not below what was pruned, where this one stands there now:
    /// this one less the deltas above that number, or this one itself where there are none. A row is 16 bytes for its count
    /// and 16 for each sum.
    ///
    /// # Errors
    ///
    /// Where there is no memory for it.
    pub fn at(
        &self,
        alloc: Global,
        number: u64,
        view: u32,
        group: &[u8],
        now: Option<&[u8]>,
    ) -> Result<Option<Bytes>, NoMemory>
        requires kept { self.now.pruned ≤ number }
        ensures same { none_above number (view, group.now) self.now.versions ≡ true → IfOk result (λ row. row ≡ option_copied now.entry) }
        ensures none { option_copied now.entry ≡ None → IfOk result (λ row. row ≡ None) }
        ensures row { IfOk result (λ row. (numbers : List ℤ) → Fits128 numbers → Fits128 (less (λ column. due number (view, group.now) column self.now.versions) 0 numbers) → option_copied now.entry ≡ Some (numbers_bytes numbers)
            → row ≡ Some (numbers_bytes (less (λ column. due number (view, group.now) column self.now.versions) 0 numbers))) }
    {
        let Some(stored) = now else {
            return Ok(None);
        };
        let tree = self.tree();
        match first(tree, view, group, number, true) {
            Some(node) if is_of(node, view, group) => {
                let row = row_less(alloc, tree, view, group, number, stored)?;
                Ok(Some(row))
            }
            _ => copied_row(alloc, Some(stored)),
        }
    }
}
