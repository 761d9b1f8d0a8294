//! The core as an engine that does steps.
ghost use Rattle.std.specs.Prelude.{◌≡◌, ◌+◌, ◌<◌, ◌≤◌, ◌^◌, [], Some, IfOk};
ghost use Rattle.std.specs.FinMap.{empty};
ghost use Rattle.core_journal.specs.Records.{Records, begun};
ghost use Rattle.core_recording.specs.Giving.{IsBehind};
ghost use Rattle.core_state.specs.Stands.{Stands, limited};
ghost use Rattle.data_store.specs.Held.{AreEmpty};
ghost use Rattle.txn_machine.specs.Log.{Within, block_bytes};
ghost use Rattle.txn_machine.specs.State.{State, opened_state};
ghost use Rattle.txn_machine.specs.Store.{opened};
ghost use Rattle.iv_meaning.specs.Escrow.{IsSession};
ghost use Rattle.log_journal.specs.Standing.{disk_of};
ghost use Rattle.std.specs.Option.{option_map};
ghost use Rattle.txn_book.specs.Acts.{last_refusal};
ghost use Rattle.txn_book.specs.Moves.{kept_count};
ghost use Rattle.engine_core.specs.Standing.{IsIn, IsInMemory, IsOnDisk, none_below, nothing_saved};
ghost use Rattle.engine_core.specs.Crashes.{MayRecover, RecoveredSince};
ghost use Rattle.engine_core.specs.CrashLaws.{below, no_later, keeps_committed, keeps_prefix};

use crate::acting::do_one;
use core_journal::{Journal, NoJournal};
use core_state::CoreState;
use disk_io::Disk;
use iv_types::{NoMemory, SEATS, SortedMaps};
use log_journal::LogJournal;
use ordered_index::PageMaps;
use std::alloc::Global;
use txn_book::{Answer, LastRefusal, Step, Stepper};

/// The core of the engine: what it stores in these maps, its open transactions, locks and history, and the journal to which each step
/// gives its records.
#[derive(Drop)]
pub struct Core<M: SortedMaps, J: Journal> {
    state: CoreState<M>,
    journal: J,
}

impl<M: SortedMaps, J: Journal + Drop> Core<M, J> {
    /// A core on a database that defines nothing, whose greatest commit number is this one, over maps without an entry
    /// and with this limit of what the data count. Its journal has no record, and an area of its log takes so many bytes, where
    /// there is such a limit.
    ///
    /// # Errors
    ///
    /// Where there is no memory for it.
    pub fn new(
        alloc: Global,
        maps: M,
        journal: J,
        log: Option<u32>,
        most: u32,
        number: u64,
    ) -> Result<Self, NoMemory>
        requires empty { AreEmpty (M.maps maps) }
        requires unrecorded { J.has journal (begun (Some most) (nothing_saved number) (block_bytes + 1)) }
        requires log { J.limit journal ≡ log }
        requires least { Within log (block_bytes + 1) }
        requires data { M.limit maps ≡ Some most }
        requires number { number < 2 ^ 63 }
        requires well { J.faults (J.medium journal) ≡ 0 }
        ensures { IfOk result (λ core. IsIn M.maps M.spare M.limit J.has J.limit (λ journal. J.faults (J.medium journal)) core (opened_state (limited log (Some most)) (opened (record { number = number; schema = []; rows = empty }) empty))) }
    {
        Ok(Core {
            state: CoreState::new(alloc, maps, log, most, number)?,
            journal,
        })
    }

    /// A core that holds this, with this journal.
    pub fn on(state: CoreState<M>, journal: J) -> Self
        ensures { result ≡ record { state = state; journal = journal } }
    {
        Core { state, journal }
    }

    /// Gives the journal back.
    pub fn into_journal(self) -> J
        ensures { result ≡ self.journal }
    {
        self.journal
    }

    /// What the core holds, to be looked at.
    pub fn state(&self) -> &CoreState<M>
        ensures { result.now ≡ self.now.state }
    {
        &self.state
    }
}

// The last step of a session that the engine refused, if there is one.
fn refused_in<M: SortedMaps>(state: &CoreState<M>, session: u32) -> Option<LastRefusal>
    ensures { (s : State) → Stands M.maps M.spare M.limit state.now s → option_map last_refusal result ≡ (s.seat_of session).refused }
{
    if session as usize >= SEATS {
        return None;
    }
    state.seats.get(session).refused
}

// How many steps the open transaction of a session keeps, if one is open.
fn kept_in<M: SortedMaps>(state: &CoreState<M>, session: u32) -> Option<u64>
    requires { IsSession session }
    ensures { (s : State) → Stands M.maps M.spare M.limit state.now s → result ≡ option_map kept_count (s.store.open_of session) }
{
    match state.book.get(session) {
        Some(txn) => Some(txn.kept.len() as u64),
        None => None,
    }
}

// A core without a disk. What a crash leaves is not told.
impl Stepper for Core<PageMaps, NoJournal> {
    ghost is_told = { ⊥ };

    ghost stands = { IsInMemory };

    ghost faults = { λ _. 0 };

    ghost may_recover = { λ _ _. ⊥ };

    ghost moment = { λ _. 0 };

    ghost recovered_since = { λ _ _ _. ⊥ };

    ghost is_reached = { λ _ _ stands. stands.stands.reached };

    ghost runs_well = { λ _ _ stands. stands.well };

    ghost keeps_all = { λ _ _ _ _ no. absurd no };

    ghost counts_now = { λ _ _ _ _ no. no };

    ghost only_now = { λ _ _ no. no };

    ghost longer = { λ _ _ _ _ _ no. no };

    ghost opened_before = { λ no. absurd no };

    ghost recovers_prefix = { λ no. absurd no };

    ghost counts_in = { λ core. none_below };

    #[tactic(auto, using(crate::proofs::Steps::done_in_memory))]
    fn step(&mut self, step: &Step) -> Answer {
        do_one(&mut self.state, &mut self.journal, step)
    }

    fn steps_done(&self) -> u64 {
        self.state.steps
    }

    fn refused(&self, session: u32) -> Option<LastRefusal> {
        refused_in(&self.state, session)
    }

    fn number(&self) -> u64 {
        self.state.book.number()
    }

    fn kept_steps(&self, session: u32) -> Option<u64> {
        kept_in(&self.state, session)
    }
}

// A core on a disk.
impl<D: Disk> Stepper for Core<PageMaps, LogJournal<D>> {
    ghost is_told = { D.is_told };

    ghost stands = { IsOnDisk D.is_told D.size_of D.seen D.may_leave D.moment D.left_since D.faults };

    ghost faults = { λ core. D.faults (disk_of core.journal) };

    ghost may_recover = { MayRecover D.is_told D.left_since D.may_leave };

    ghost moment = { λ core. D.moment (disk_of core.journal) };

    ghost recovered_since = { RecoveredSince D.is_told D.left_since };

    ghost is_reached = { λ _ _ h. h.is_in.stands.reached };

    ghost runs_well = { λ _ _ h. h.is_in.well };

    ghost keeps_all = { keeps_committed D.is_told D.size_of D.seen D.may_leave D.moment D.left_since D.faults };

    ghost counts_now = { λ core t db le may. (may.0, (may.1.0, (λ u less. D.counts_now (disk_of core.journal) u may.1.0 (below u t (D.moment (disk_of core.journal)) less le) may.1.1), may.1.2)) };

    ghost only_now = { λ core db since. (since.0, (since.1.0, D.only_now (disk_of core.journal) since.1.0 (since.1.1 (D.moment (disk_of core.journal)) (no_later (D.moment (disk_of core.journal)))), since.1.2)) };

    ghost longer = { λ core t u db le since. (since.0, (since.1.0, (λ v less. since.1.1 v (below v t u less le)), since.1.2)) };

    ghost opened_before = { λ told core s h. h.lasts.later told };

    ghost recovers_prefix = { keeps_prefix D.is_told D.size_of D.seen D.may_leave D.moment D.left_since D.faults };

    ghost counts_in = { λ core. D.counts_in (disk_of core.journal) };

    #[tactic(auto, using(crate::proofs::Steps::done_on_disk))]
    fn step(&mut self, step: &Step) -> Answer {
        do_one(&mut self.state, &mut self.journal, step)
    }

    fn steps_done(&self) -> u64 {
        self.state.steps
    }

    fn refused(&self, session: u32) -> Option<LastRefusal> {
        refused_in(&self.state, session)
    }

    fn number(&self) -> u64 {
        self.state.book.number()
    }

    fn kept_steps(&self, session: u32) -> Option<u64> {
        kept_in(&self.state, session)
    }
}
