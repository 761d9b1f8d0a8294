//! The records that transactions keep.
ghost use Rattle.std.specs.Prelude.{◌≡◌, ◌+◌, ℕ, None, Some, true, false, IfOk, IfSome, IfNone, OnOk, OnErr, if◌then◌else◌};
ghost use Rattle.std.specs.Ordering.{nat_cmp, is_eq};
ghost use Rattle.std.specs.BTreeMap as tree;
ghost use Rattle.std.specs.BTreeMap.{btree_map_len};
ghost use Rattle.live_records.specs.Live.{kept_at, has_ended, KeepsAll, SetsOne, IsLatest, KeepsNothing, HasEndedNow, AreApart, HasAll};

use crate::kept::{LiveRecords, OrderedRecords};
use crate::record::LiveRecord;
use iv_types::NoMemory;
use std::alloc::Global;
use std::collections::{BTreeMap, BTreeSet};

// Puts a record under its number.
fn put(all: &mut BTreeMap<u64, LiveRecord>, own: LiveRecord) -> Result<(), NoMemory>
    ensures { OnOk result ((n : ℕ) → tree.get nat_cmp all.new n ≡ (if is_eq (nat_cmp own.number n) then Some own else tree.get nat_cmp all.old n)) }
{
    if let Some(other) = all.insert(own.number, own)? {
        other.let_go();
    }
    Ok(())
}

impl LiveRecords {
    /// No transaction keeps anything, and none has ended.
    pub fn new(alloc: Global) -> LiveRecords
        ensures kept { (transaction : ℕ) → KeepsNothing result transaction }
        ensures ended { (transaction : ℕ) → has_ended result transaction ≡ false }
    {
        LiveRecords {
            alloc,
            records: BTreeMap::new(alloc),
            ended: BTreeSet::new(alloc),
        }
    }

    /// Whether a transaction has ended.
    pub fn has_ended(&self, transaction: u64) -> bool
        ensures { result ≡ has_ended self.now transaction }
    {
        self.ended.contains(&transaction)
    }

    /// The record's transaction keeps it.
    ///
    /// # Errors
    ///
    /// Where there is no memory for it. Nothing is changed then.
    pub fn keep(&mut self, own: LiveRecord) -> Result<(), NoMemory>
        ensures kept { OnOk result (SetsOne self.old own.transaction own.number (Some own) self.new) }
        ensures err { OnErr result (KeepsAll self.old self.new) }
        ensures ended { self.new.ended ≡ self.old.ended }
    {
        let key = (own.transaction, own.number);
        if let Some(other) = self.records.insert(key, own)? {
            other.let_go();
        }
        Ok(())
    }

    /// The latest record that a transaction keeps, if it keeps one.
    pub fn latest(&self, transaction: u64) -> Option<&LiveRecord>
        ensures latest { IfSome result (λ r. IsLatest self.now transaction r.now) }
        ensures nothing { IfNone result (KeepsNothing self.now transaction) }
    {
        let mut own = self
            .records
            .range((transaction, 0)..=(transaction, u64::MAX));
        match own.next_back() {
            Some((_, record)) => Some(record),
            None => None,
        }
    }

    /// Takes the latest record of a transaction away, if it keeps one.
    pub fn take_latest(&mut self, transaction: u64) -> Option<LiveRecord>
        ensures taken { IfSome result (λ r. IsLatest self.old transaction r × SetsOne self.old transaction r.number None self.new) }
        ensures fewer { IfSome result (λ r. btree_map_len self.new.records + 1 ≡ btree_map_len self.old.records) }
        ensures nothing { IfNone result (KeepsNothing self.old transaction × KeepsAll self.old self.new) }
        ensures ended { self.new.ended ≡ self.old.ended }
    {
        let number = match self.latest(transaction) {
            Some(record) => record.number,
            None => return None,
        };
        self.records.remove(&(transaction, number))
    }

    // Takes all records of a transaction away.
    fn forget(&mut self, transaction: u64)
        ensures nothing { KeepsNothing self.new transaction }
        ensures others { (t number : ℕ) → (t ≡ transaction → ⊥) → kept_at self.new t number ≡ kept_at self.old t number }
        ensures ended { self.new.ended ≡ self.old.ended }
    {
        while let Some(record) = self.take_latest(transaction) {
            record.let_go();
        }
    }

    /// A transaction has ended. It keeps nothing any more.
    ///
    /// # Errors
    ///
    /// Where there is no memory for it. Nothing is changed then.
    pub fn end(&mut self, transaction: u64) -> Result<(), NoMemory>
        ensures ok { OnOk result (HasEndedNow self.old transaction self.new) }
        ensures err { OnErr result (KeepsAll self.old self.new × (self.new.ended ≡ self.old.ended)) }
    {
        self.ended.insert(transaction)?;
        self.forget(transaction);
        Ok(())
    }

    /// All records in the order of their numbers. No two transactions keep one of the same number.
    ///
    /// # Errors
    ///
    /// Where there is no memory for it.
    pub fn into_order(self) -> Result<OrderedRecords, NoMemory>
        requires { AreApart self }
        ensures { IfOk result (HasAll self) }
    {
        let mut left = self.records;
        let mut all = BTreeMap::new(self.alloc);
        while let Some((_, record)) = left.pop_first() {
            put(&mut all, record)?;
        }
        Ok(OrderedRecords { records: all })
    }
}
