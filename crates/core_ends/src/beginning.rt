//! Begin.
ghost use Rattle.std.specs.Prelude.{◌≡◌, ◌+◌, ◌<◌, ◌≤◌, ◌^◌, ◌↔◌, ℕ, None, IsTrue, IfOk, OnErr};
ghost use Rattle.iv_types.specs.declared.statement.Mode.TheVariants.{Serial};
ghost use Rattle.iv_meaning.specs.Escrow.{IsSession};
ghost use Rattle.core_state.specs.declared.limits.TheConstants.{MOST_OF_HISTORY};
ghost use Rattle.txn_book.specs.declared.book.TheConstants.{ENTRY_BYTES};
ghost use Rattle.txn_machine.specs.Acts as act;
ghost use Rattle.txn_machine.specs.Acts.{Act};
ghost use Rattle.txn_machine.specs.May.{MayAct};
ghost use Rattle.txn_machine.specs.State.{State};
ghost use Rattle.txn_machine.specs.Steps.{FitsLog, MayBegin};
ghost use Rattle.txn_machine.specs.Store.{Store, Opens, does};
ghost use Rattle.txn_machine.specs.Ghosts.{the_views};
ghost use Rattle.txn_machine.specs.Log.{Log, begun_after, end_bytes, logs};
ghost use Rattle.core_ends.specs.Ends.{number_in_log, FitsEnd};
ghost use Rattle.txn_book.specs.Acts.{answer_of};
ghost use Rattle.log_room.specs.Rooms.{IsRoomOf};
ghost use Rattle.core_state.specs.Stands.{Began, Told};

use core_state::{CoreState, MOST_OF_HISTORY};
use iv_types::{EngineRefusal, Mode, NoMemory, SortedMaps};
use log_room::{END_BYTES, LogRoom, same_room_law};
use txn_book::{Answer, ENTRY_BYTES};

// Whether there is room in the history for what a serial transaction counts.
fn has_room(kept: u64) -> bool
    ensures { IsTrue result ↔ (kept + ENTRY_BYTES ≤ MOST_OF_HISTORY) }
{
    kept <= MOST_OF_HISTORY - ENTRY_BYTES
}

// How many serial transactions have begun with one of this mode.
fn begun_with(mode: Mode, begun: u64) -> u64
    requires { begun < 2 ^ 63 }
    ensures { result ≡ begun_after (Opens mode) begun }
{
    match mode {
        Mode::Serial => begun + 1,
        Mode::Snapshot => begun,
    }
}

// The number in the log of a transaction of this mode, the latest of so many.
fn number_in_log(mode: Mode, begun: u64) -> u64
    ensures { result ≡ number_in_log mode begun }
{
    match mode {
        Mode::Serial => begun,
        Mode::Snapshot => 0,
    }
}

// Room is reserved in the log for the end of a transaction of this mode, where one needs it.
fn reserve_end(log: &mut LogRoom, mode: Mode)
    ensures limit { log.new.limit ≡ log.old.limit }
    ensures room { (s : Store) (l : Log) (session : ℕ) (a : Act) → IsSession session → s.open_of session ≡ None → IsRoomOf log.old s l → FitsEnd mode log.old.limit s l
        → IsRoomOf log.new (does the_views s session (Opens mode)) (logs s session a (Opens mode) l) }
{
    match mode {
        Mode::Serial => log.begin(),
        Mode::Snapshot => same_room_law(),
    }
}

// Opens a transaction, for which there is room.
fn open<M: SortedMaps>(
    core: &mut CoreState<M>,
    session: u32,
    mode: Mode,
) -> Result<Answer, NoMemory>
    requires { (s : State) × Began M.maps M.spare M.limit core.old s session × MayAct s.store session (act.Begin mode) × MayBegin s mode }
    ensures told { IfOk result (λ said. (s : State) → Began M.maps M.spare M.limit core.old s session → MayAct s.store session (act.Begin mode) → MayBegin s mode → Told M.maps M.spare M.limit s session (act.Begin mode) (answer_of said) core.new) }
    ensures err { OnErr result ((s : State) → Began M.maps M.spare M.limit core.old s session → Began M.maps M.spare M.limit core.new s session) }
    ensures store { core.new.store ≡ core.old.store }
{
    core.book.book_law();
    core.store.catalog.few_law();
    let number = core.book.number();
    let defs = core.store.catalog.len() as u32;
    let begun = begun_with(mode, core.begun);
    let id = number_in_log(mode, begun);
    core.book.begin(session, mode, id)?;
    core.begun = begun;
    reserve_end(&mut core.log_room, mode);
    Ok(Answer::Begun { number, defs })
}

// Opens a serial transaction, for whose end the log has room, where the history has room too.
fn begin_logged<M: SortedMaps>(core: &mut CoreState<M>, session: u32) -> Result<Answer, NoMemory>
    requires { (s : State) × Began M.maps M.spare M.limit core.old s session × MayAct s.store session (act.Begin Serial) × FitsLog s end_bytes }
    ensures told { IfOk result (λ said. (s : State) → Began M.maps M.spare M.limit core.old s session → MayAct s.store session (act.Begin Serial) → FitsLog s end_bytes → Told M.maps M.spare M.limit s session (act.Begin Serial) (answer_of said) core.new) }
    ensures err { OnErr result ((s : State) → Began M.maps M.spare M.limit core.old s session → Began M.maps M.spare M.limit core.new s session) }
    ensures store { core.new.store ≡ core.old.store }
{
    core.book.book_law();
    let kept = core.book.history_bytes();
    if !has_room(kept) {
        return Ok(Answer::Refused(EngineRefusal::HistoryFull {
            kept,
            need: ENTRY_BYTES,
        }));
    }
    open(core, session, Mode::Serial)
}

// Opens a serial transaction, where there is room for its end in the log, and for what it counts in the history.
fn begin_serial<M: SortedMaps>(core: &mut CoreState<M>, session: u32) -> Result<Answer, NoMemory>
    requires { (s : State) × Began M.maps M.spare M.limit core.old s session × MayAct s.store session (act.Begin Serial) }
    ensures told { IfOk result (λ said. (s : State) → Began M.maps M.spare M.limit core.old s session → MayAct s.store session (act.Begin Serial) → Told M.maps M.spare M.limit s session (act.Begin Serial) (answer_of said) core.new) }
    ensures err { OnErr result ((s : State) → Began M.maps M.spare M.limit core.old s session → Began M.maps M.spare M.limit core.new s session) }
    ensures store { core.new.store ≡ core.old.store }
{
    match core.log_room.refusal(END_BYTES) {
        Some(why) => Ok(Answer::Refused(why)),
        None => begin_logged(core, session),
    }
}

/// Opens a transaction of a session that has none. A serial one is refused where the log has no room for its end, and then where
/// the history has none for its entry.
///
/// # Errors
///
/// Where there is no memory for it. Nothing is changed then.
pub fn begin<M: SortedMaps>(
    core: &mut CoreState<M>,
    session: u32,
    mode: Mode,
) -> Result<Answer, NoMemory>
    requires { (s : State) × Began M.maps M.spare M.limit core.old s session × MayAct s.store session (act.Begin mode) }
    ensures told { IfOk result (λ said. (s : State) → Began M.maps M.spare M.limit core.old s session → MayAct s.store session (act.Begin mode) → Told M.maps M.spare M.limit s session (act.Begin mode) (answer_of said) core.new) }
    ensures err { OnErr result ((s : State) → Began M.maps M.spare M.limit core.old s session → Began M.maps M.spare M.limit core.new s session) }
    ensures store { core.new.store ≡ core.old.store }
{
    match mode {
        Mode::Serial => begin_serial(core, session),
        Mode::Snapshot => open(core, session, Mode::Snapshot),
    }
}
