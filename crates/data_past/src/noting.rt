//! Pending rows, counted as changes are put and taken back.
ghost use Rattle.std.specs.Prelude.{◌≡◌, IfOk};
ghost use Rattle.std.specs.Option.{option_copied, option_to_list};
ghost use Rattle.std.specs.FinMap.{get};
ghost use Rattle.table_laws.specs.Place.{Place};
ghost use Rattle.data_store.specs.Past.{committed_value};
ghost use Rattle.data_store.specs.Machine.{changes_on};
ghost use Rattle.data_past.specs.Moves.{one_more, one_less, fewer, ChangesAt, CanCount, HasChange, CanForget, put_in, puts_in};

use data_store::{DataStore, Pending};
use iv_types::{Bytes, KeptStep, NoMemory, SortedMaps};
use spare_map::Spare;
use std::alloc::Global;

/// All that noting a change takes: its key, the bytes that are committed under it, and room for an entry.
#[derive(Drop)]
pub struct Noting {
    pub index: u32,
    pub key: Bytes,
    pub committed: Option<Bytes>,
    pub room: Spare<Pending>,
}

// The same bytes again, if there are any.
fn copied(alloc: Global, bytes: Option<&[u8]>) -> Result<Option<Bytes>, NoMemory>
    ensures { IfOk result (λ copy. copy ≡ option_copied bytes.entry) }
{
    match bytes {
        Some(bytes) => Ok(Some(Bytes::from_vec(Vec::from_slice(alloc, bytes)?))),
        None => Ok(None),
    }
}

/// Makes what noting a change of a row takes, before the change is made.
///
/// # Errors
///
/// Where there is no memory for it.
pub fn ready_note<M: SortedMaps>(
    store: &DataStore<M>,
    index: u32,
    key: &[u8],
) -> Result<Noting, NoMemory>
    ensures place { IfOk result (λ noting. (noting.index ≡ index) × (noting.key ≡ key.now)) }
    ensures committed { IfOk result (λ noting. noting.committed ≡ committed_value store.now.pending.entries (M.maps store.now.tables) (index, key.now)) }
{
    let room = Spare::new(store.alloc)?;
    let committed = copied(store.alloc, store.committed(index, key))?;
    let key = Bytes::from_vec(Vec::from_slice(store.alloc, key)?);
    Ok(Noting {
        index,
        key,
        committed,
        room,
    })
}

/// Counts one more change of a row, which is pending from the first one on. Takes no memory.
pub fn note_change<M: SortedMaps>(store: &mut DataStore<M>, noting: Noting)
    requires { CanCount store.old.pending.entries (noting.index, noting.key) }
    ensures pending { ChangesAt (noting.index, noting.key) (one_more noting.committed) store.old.pending.entries store.new.pending.entries }
    ensures rest { store.new ≡ record store.old { pending = store.new.pending } }
{
    let Noting {
        index,
        key,
        committed,
        room,
    } = noting;
    let pending = match store.pending.take(store.alloc, index, key.as_slice()) {
        Some(mut pending) => {
            pending.changes += 1;
            pending
        }
        None => Pending {
            changes: 1,
            committed,
        },
    };
    store.pending.insert_into(room, index, key, pending);
}

/// Counts one change of a row less, which is pending no more when the last one is gone. Takes no memory.
pub fn forget_change<M: SortedMaps>(store: &mut DataStore<M>, index: u32, key: &[u8])
    requires { HasChange store.old.pending.entries (index, key.now) }
    ensures pending { ChangesAt (index, key.now) one_less store.old.pending.entries store.new.pending.entries }
    ensures rest { store.new ≡ record store.old { pending = store.new.pending } }
{
    let left = match store.pending.get(index, key) {
        Some(pending) => pending.changes - 1,
        None => unreachable!(),
    };
    if left == 0 {
        let _gone = store.pending.take(store.alloc, index, key);
    } else {
        let blank = Pending {
            changes: 0,
            committed: None,
        };
        let mut pending = store.pending.replace(index, key, blank);
        pending.changes = left;
        let _blank = store.pending.replace(index, key, pending);
    }
}

// Counts the change less that a kept step is, if it is one.
fn forget_step<M: SortedMaps>(store: &mut DataStore<M>, step: &KeptStep)
    requires { CanForget store.old.pending.entries (option_to_list (put_in step.now)) }
    ensures pending { (place : Place) → get store.new.pending.entries place ≡ fewer (changes_on place (option_to_list (put_in step.now))) (get store.old.pending.entries place) }
    ensures rest { store.new ≡ record store.old { pending = store.new.pending } }
{
    match step {
        KeptStep::Put { kept, .. } => {
            forget_change(store, kept.change.table, kept.change.key.as_slice());
        }
        KeptStep::Pay { .. } => {}
    }
}

/// Counts the changes less that a transaction kept. Takes no memory.
pub fn forget_changes<M: SortedMaps>(store: &mut DataStore<M>, kept: &[KeptStep])
    requires { CanForget store.old.pending.entries (puts_in kept.now) }
    ensures pending { (place : Place) → get store.new.pending.entries place ≡ fewer (changes_on place (puts_in kept.now)) (get store.old.pending.entries place) }
    ensures rest { store.new ≡ record store.old { pending = store.new.pending } }
{
    for step in kept {
        forget_step(store, step);
    }
}
