//! A change of a row is made.
ghost use Rattle.std.specs.Prelude.{◌≡◌, ◌≤◌, ◌^◌, ℕ, List};
ghost use Rattle.iv_meaning.specs.Escrow.{IsSession};
ghost use Rattle.txn_machine.specs.Acts.{Act};
ghost use Rattle.txn_machine.specs.Ghosts.{the_views};
ghost use Rattle.txn_machine.specs.Log.{Log, logs};
ghost use Rattle.txn_machine.specs.Store.{Store, Writes, does};
ghost use Rattle.core_state.specs.Stands.{Holds, Texts};
ghost use Rattle.core_effects.specs.Writing.{CanWrite};

use core_state::CoreState;
use data_changes::put;
use data_past::{Noting, note_change};
use iv_types::{GroupDelta, SortedMaps, WantList};
use table_store::Ready;
use txn_book::Owing;
use version_chain::Version;

/// A change that is ready to be made.
#[derive(Drop)]
pub struct Writing {
    pub ready: Ready,
    /// What noting it takes.
    pub noting: Noting,
    /// The version that it leaves, and what it owes once more.
    pub version: Version,
    pub copies: Vec<GroupDelta>,
    /// What it owes.
    pub owed: Vec<GroupDelta>,
    /// The wants of their pays.
    pub wants: Vec<WantList>,
    /// What it counts in its transaction.
    pub txn_bytes: u64,
    /// What it counts in the history.
    pub history_bytes: u64,
}

/// Makes a change of a session, and keeps it with what it owes. Takes no memory.
pub fn write<M: SortedMaps>(core: &mut CoreState<M>, session: u32, writing: Writing)
    requires session { IsSession session }
    requires next { core.old.next ≤ 2 ^ 63 }
    requires can { (s : Store) × (l : Log) × (texts : Texts) × Holds M.maps M.spare M.limit core.old s l texts × CanWrite M.maps M.spare M.limit s core.old session writing }
    ensures holds { (s : Store) (l : Log) (texts : Texts) (a : Act) → Holds M.maps M.spare M.limit core.old s l texts → CanWrite M.maps M.spare M.limit s core.old session writing
        → Holds M.maps M.spare M.limit core.new (does the_views s session (Writes (writing.ready.kept.change.table, writing.ready.kept.change.key) writing.ready.kept.change.after))
        (logs s session a (Writes (writing.ready.kept.change.table, writing.ready.kept.change.key) writing.ready.kept.change.after) l) texts }
    ensures rest { core.new ≡ record core.old { store = record core.old.store { tables = core.new.store.tables; pending = core.new.store.pending }; book = core.new.book; wants = core.new.wants; ahead = core.new.ahead; next = core.new.next } }
{
    core.book.book_law();
    let Writing {
        ready,
        noting,
        version,
        copies,
        owed,
        wants,
        txn_bytes,
        history_bytes,
    } = writing;
    let number = core.next;
    let kept = put(&mut core.store, ready);
    note_change(&mut core.store, noting);
    core.ahead.add(session, version, copies);
    core.book.keep(
        session,
        kept,
        Owing {
            number,
            owed,
            txn_bytes,
            history_bytes,
        },
    );
    core.wants.set(session, wants);
    core.next = number + 1;
}
