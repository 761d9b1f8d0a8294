//! Where records are kept.
ghost use Rattle.live_records.specs.Keyed.{AreKeyed, AreNumbered};

use crate::record::LiveRecord;
use std::alloc::Global;
use std::collections::{BTreeMap, BTreeSet};

/// The records that each transaction keeps, and the transactions that have ended.
#[derive(Drop)]
pub struct LiveRecords {
    pub(crate) alloc: Global,
    // Each under its transaction and its number.
    pub(crate) records: BTreeMap<(u64, u64), LiveRecord>,
    pub(crate) ended: BTreeSet<u64>,
    ghost keyed: { AreKeyed records },
}

/// Records in the order of their numbers.
#[derive(Drop)]
pub struct OrderedRecords {
    // Each under its number.
    pub(crate) records: BTreeMap<u64, LiveRecord>,
    ghost numbered: { AreNumbered records },
}
