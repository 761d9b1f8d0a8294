//! What a core has beside its store when it is opened.
ghost use Rattle.std.specs.Prelude.{◌+◌, ◌<◌, ◌^◌, IfOk};
ghost use Rattle.txn_machine.specs.Log.{Within, block_bytes};
ghost use Rattle.core_opening.specs.Idle.{IsIdle};

use core_state::Seats;
use data_past::VersionsAhead;
use data_room::DataRoom;
use iv_types::NoMemory;
use lock_desk::PayWants;
use lock_manager::LockTable;
use log_room::LogRoom;
use std::alloc::Global;
use txn_book::Book;

/// What a core has beside its store while no transaction has begun and no session was told anything.
#[derive(Drop)]
pub(crate) struct Idle {
    pub(crate) seats: Seats,
    pub(crate) wants: PayWants,
    pub(crate) ahead: VersionsAhead,
    pub(crate) data_room: DataRoom,
    pub(crate) log_room: LogRoom,
    pub(crate) locks: LockTable,
    pub(crate) book: Book,
}

impl Idle {
    /// That of a core with these limits, in bytes, whose greatest commit number is this one.
    ///
    /// # Errors
    ///
    /// Where there is no memory for it.
    pub(crate) fn new(
        alloc: Global,
        log: Option<u32>,
        most: u32,
        number: u64,
    ) -> Result<Idle, NoMemory>
        requires log { Within log (block_bytes + 1) }
        requires number { number < 2 ^ 63 }
        ensures { IfOk result (λ idle. IsIdle log most number idle) }
    {
        Ok(Idle {
            seats: Seats::new(alloc)?,
            wants: PayWants::new(alloc)?,
            ahead: VersionsAhead::new(alloc)?,
            data_room: DataRoom::new(alloc, Some(most))?,
            log_room: LogRoom::new(log),
            locks: LockTable::new(alloc)?,
            book: Book::new(alloc, number)?,
        })
    }
}
