//! A Fetch is noted.
ghost use Rattle.std.specs.Prelude.{◌≡◌, ◌+◌, ◌≤◌, ℕ, List, length};
ghost use Rattle.iv_meaning.specs.Escrow.{IsSession};
ghost use Rattle.txn_machine.specs.Acts.{Act};
ghost use Rattle.txn_machine.specs.Counts.{note_size};
ghost use Rattle.txn_machine.specs.Ghosts.{the_views};
ghost use Rattle.txn_machine.specs.Keeping.{Note};
ghost use Rattle.txn_machine.specs.Log.{Log, logs};
ghost use Rattle.txn_machine.specs.May.{IsOpen};
ghost use Rattle.txn_machine.specs.Store.{Store, Notes, does, now, schema_of};
ghost use Rattle.txn_book.specs.Books.{IsOpenAnd};
ghost use Rattle.core_state.specs.declared.limits.TheConstants.{MOST_OF_TRANSACTION};
ghost use Rattle.core_state.specs.Stands.{Holds, Texts};

use core_state::CoreState;
use iv_types::SortedMaps;

/// The session's transaction notes a Fetch that counts so many bytes, behind all that it keeps. Takes no memory.
pub fn note<M: SortedMaps>(core: &mut CoreState<M>, session: u32, bytes: u64)
    requires session { IsSession session }
    requires fits { IsOpenAnd core.old.book session (λ o. o.txn_bytes + bytes ≤ MOST_OF_TRANSACTION) }
    ensures holds { (s : Store) (l : Log) (texts : Texts) (a : Act) (n : Note) → Holds M.maps M.spare M.limit core.old s l texts → IsOpen s session → note_size (schema_of s) n ≡ bytes → n.kept ≡ length (now s session).kept
        → Holds M.maps M.spare M.limit core.new (does the_views s session (Notes n)) (logs s session a (Notes n) l) texts }
    ensures rest { core.new ≡ record core.old { book = core.new.book } }
{
    core.book.book_law();
    core.book.note(session, bytes);
}
