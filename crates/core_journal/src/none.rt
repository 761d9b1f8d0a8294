//! The journal of an engine without a disk.
ghost use Rattle.core_journal.specs.NoJournal.{has_any, carries_any, stands_on_any, leaves_any, limit_of, none_below};

use crate::journal::{Checkpoints, Journal};
use iv_types::{Catalog, DiskFault, SortedMaps};
use log_records::LentRecord;

/// A journal that keeps nothing: its engine's database lies in memory alone. What its records would take is counted against a limit
/// all the same, where there is one.
#[derive(Clone, Copy, Debug, PartialEq, Eq)]
pub struct NoJournal {
    /// The bytes of an area of the log.
    pub limit: Option<u32>,
}

impl Journal for NoJournal {
    ghost has = { has_any };

    ghost carries = { carries_any };

    ghost limit = { limit_of };

    ghost Medium = { Unit {0} };

    ghost medium = { λ _. tt };

    ghost faults = { λ _. 0 };

    ghost stands_on = { stands_on_any };

    ghost leaves = { leaves_any };

    ghost counts_in = { λ _. none_below };

    fn append(&mut self, number: u64, lent: LentRecord<'_>) {
        let _number = number;
        let _lent = lent;
    }

    fn flush(&mut self) -> Result<(), DiskFault> {
        Ok(())
    }

    fn begin_checkpoint(&mut self, next: u64) {
        let _next = next;
    }

    fn carry(&mut self, number: u64, lent: LentRecord<'_>) {
        let _number = number;
        let _lent = lent;
    }
}

impl<M: SortedMaps> Checkpoints<M> for NoJournal {
    fn save(&mut self, maps: &mut M, catalog: &Catalog, commits: u64) -> Result<(), DiskFault> {
        let _maps = maps;
        let _catalog = catalog;
        let _commits = commits;
        Ok(())
    }
}
