//! Fetch.
ghost use Rattle.std.specs.Prelude.{◌≡◌, ◌+◌, ◌≤◌, ◌∷◌, [], ◌↔◌, min, ◌-◌, ◌^◌, IsTrue, IfOk, OnErr};
ghost use Rattle.iv_types.specs.declared.lock.LockMode.{LockMode as AnyMode};
ghost use Rattle.core_state.specs.declared.limits.TheConstants.{MOST_OF_TRANSACTION};
ghost use Rattle.txn_machine.specs.Acts as act;
ghost use Rattle.txn_machine.specs.May.{MayAct};
ghost use Rattle.txn_machine.specs.State.{State};
ghost use Rattle.txn_book.specs.Acts.{answer_of};
ghost use Rattle.core_state.specs.Stands.{Began, Told};
ghost use Rattle.core_reads.specs.Fetching.{MayFetch, CanRead};

use core_effects::{note, reserve_locks, take};
use core_locks::ask_for;
use core_state::{CoreState, MOST_OF_TRANSACTION};
use iv_types::{EngineRefusal, Interval, LockMode, NoMemory, SortedMaps, Want, WantList};
use log_room::same_room_law;
use std::alloc::Global;
use txn_book::Answer;

// The lock that a Fetch asks for.
fn want_of(
    alloc: Global,
    index: u32,
    interval: &Interval,
    mode: LockMode,
) -> Result<WantList, NoMemory>
    ensures { IfOk result (λ wants. wants ≡ record { index = index; interval = interval.now; mode = mode } ∷ []) }
{
    let interval = interval.copied(alloc)?;
    let mut wants = WantList::new(alloc);
    wants.push(Want {
        index,
        interval,
        mode,
    })?;
    Ok(wants)
}

// Whether a transaction that counts so many bytes may count so many more.
fn has_room(kept: u64, need: u64) -> bool
    ensures { IsTrue result ↔ (kept + need ≤ MOST_OF_TRANSACTION) }
{
    kept.saturating_add(need) <= MOST_OF_TRANSACTION
}

// Takes the lock, reads the interval and notes it, where the transaction has room for so many bytes.
fn read<M: SortedMaps>(
    core: &mut CoreState<M>,
    session: u32,
    index: u32,
    interval: &Interval,
    wants: WantList,
    need: u64,
) -> Result<Answer, NoMemory>
    requires { (s : State) × (mode : AnyMode) × CanRead M.maps M.spare M.limit s core.old session index interval.now mode wants need }
    ensures told { IfOk result (λ said. (s : State) (mode : AnyMode) → CanRead M.maps M.spare M.limit s core.old session index interval.now mode wants need → Told M.maps M.spare M.limit s session (act.Fetch index interval.now mode) (answer_of said) core.new) }
    ensures err { OnErr result ((s : State) → Began M.maps M.spare M.limit core.old s session → Began M.maps M.spare M.limit core.new s session) }
{
    same_room_law();
    reserve_locks(core, session, 1)?;
    let rows = core.store.found(index, interval)?;
    take(core, session, wants);
    note(core, session, need);
    Ok(Answer::Rows(rows))
}

// Reads an interval whose lock is free.
fn fetch_free<M: SortedMaps>(
    core: &mut CoreState<M>,
    session: u32,
    index: u32,
    interval: &Interval,
    wants: WantList,
) -> Result<Answer, NoMemory>
    requires { (s : State) × (mode : AnyMode) × MayFetch M.maps M.spare M.limit s core.old session index interval.now mode wants }
    ensures told { IfOk result (λ said. (s : State) (mode : AnyMode) → MayFetch M.maps M.spare M.limit s core.old session index interval.now mode wants → Told M.maps M.spare M.limit s session (act.Fetch index interval.now mode) (answer_of said) core.new) }
    ensures err { OnErr result ((s : State) → Began M.maps M.spare M.limit core.old s session → Began M.maps M.spare M.limit core.new s session) }
{
    let kept = core.open_of(session).txn_bytes;
    let need = core.store.found_bytes(index, interval)?;
    if has_room(kept, need) {
        return read(core, session, index, interval, wants, need);
    }
    Ok(Answer::Refused(EngineRefusal::TxnFull { kept, need }))
}

/// Locks an interval of an index and reads its rows, in the order of the index's keys.
///
/// # Errors
///
/// Where there is no memory for it. Nothing is changed then but room.
pub fn fetch<M: SortedMaps>(
    core: &mut CoreState<M>,
    session: u32,
    index: u32,
    interval: &Interval,
    mode: LockMode,
) -> Result<Answer, NoMemory>
    requires { (s : State) × Began M.maps M.spare M.limit core.old s session × MayAct s.store session (act.Fetch index interval.now mode) }
    ensures told { IfOk result (λ said. (s : State) → Began M.maps M.spare M.limit core.old s session → MayAct s.store session (act.Fetch index interval.now mode) → Told M.maps M.spare M.limit s session (act.Fetch index interval.now mode) (answer_of said) core.new) }
    ensures err { OnErr result ((s : State) → Began M.maps M.spare M.limit core.old s session → Began M.maps M.spare M.limit core.new s session) }
{
    let wants = want_of(core.alloc, index, interval, mode)?;
    match ask_for(core, session, wants) {
        Ok(wants) => fetch_free(core, session, index, interval, wants),
        Err(said) => Ok(said),
    }
}
