//! What a session keeps of the data, for what it pays and takes back.
ghost use Rattle.std.specs.Prelude.{◌≡◌, ◌∷◌, ◌-◌, ◌^◌, ℕ, List, min, reverse};
ghost use Rattle.std.specs.Option.{option_copied};
ghost use Rattle.iv_types.specs.declared.lock.KeptStep.{KeptStep as Step};
ghost use Rattle.txn_machine.specs.Acts as act;
ghost use Rattle.txn_machine.specs.Log.{Log};
ghost use Rattle.txn_machine.specs.May.{MayAct};
ghost use Rattle.txn_machine.specs.State.{State};
ghost use Rattle.txn_machine.specs.Store.{Store, now, schema_of};
ghost use Rattle.data_room.specs.Reserved.{first_bytes};
ghost use Rattle.core_state.specs.Stands.{Began, Holds, Texts};
ghost use Rattle.core_effects.specs.Owing.{OwesFirst};
ghost use Rattle.core_pays.specs.Keeping.{change_in, latest_bytes};

use core_state::CoreState;
use data_room::{first_room, owed_room};
use iv_types::{Kept, KeptStep, SortedMaps};
use txn_book::Open;

/// What a session keeps for the first delta that it owes: its row, unless that had its Ghost.
pub(crate) fn room_of_first<M: SortedMaps>(core: &CoreState<M>, session: u32) -> u64
    requires { (s : Store) × (l : Log) × (texts : Texts) × Holds M.maps M.spare M.limit core.now s l texts × OwesFirst s session }
    ensures { (s : Store) (l : Log) (texts : Texts) (o : OwesFirst s session) → Holds M.maps M.spare M.limit core.now s l texts → result ≡ min (first_bytes (l.logged session).ghosted o.first) (2 ^ 64 - 1) }
{
    first_room(core.open_of(session))
}

/// The change that a transaction keeps last, unless its latest step is a pay.
pub(crate) fn latest_change(txn: &Open) -> Option<&Kept>
    ensures { (k : Step) (ks : List Step) → reverse txn.now.kept.items ≡ k ∷ ks → option_copied result ≡ change_in k }
{
    match txn.kept.last() {
        Some(KeptStep::Put { kept, .. }) => Some(kept),
        _ => None,
    }
}

/// What a session keeps for the latest step of its transaction.
pub(crate) fn room_of_latest<M: SortedMaps>(core: &CoreState<M>, session: u32) -> u64
    requires { (s : State) × Began M.maps M.spare M.limit core.now s session × MayAct s.store session act.UndoOne }
    ensures { (s : State) → Began M.maps M.spare M.limit core.now s session → MayAct s.store session act.UndoOne
        → result ≡ min (latest_bytes (schema_of s.store) (now s.store session) (s.log.logged session).ghosted (now s.store session).kept) (2 ^ 64 - 1) }
{
    let txn = core.open_of(session);
    match latest_change(txn) {
        Some(kept) => core
            .store
            .growth_back(&kept.change)
            .saturating_add(owed_room(txn)),
        None => 0,
    }
}
