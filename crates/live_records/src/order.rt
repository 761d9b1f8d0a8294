//! Records in the order of their numbers.
ghost use Rattle.std.specs.Prelude.{◌≡◌, ◌+◌, ℕ, ◌==◌, ◌≤◌, None, Some, IsSome, IfSome, IfNone, if◌then◌else◌};
ghost use Rattle.std.specs.BTreeMap.{btree_map_len};
ghost use Rattle.live_records.specs.Live.{record_at};

use crate::kept::OrderedRecords;
use crate::record::LiveRecord;

impl OrderedRecords {
    /// Takes the latest record out, that of the greatest number, if one is left.
    pub fn pop(&mut self) -> Option<LiveRecord>
        ensures latest { IfSome result (λ r. (n : ℕ) → IsSome (record_at self.old n) → n ≤ r.number) }
        ensures was { IfSome result (λ r. record_at self.old r.number ≡ Some r) }
        ensures taken { IfSome result (λ r. (n : ℕ) → record_at self.new n ≡ (if n == r.number then None else record_at self.old n)) }
        ensures fewer { IfSome result (λ r. btree_map_len self.new.records + 1 ≡ btree_map_len self.old.records) }
        ensures none { IfNone result ((n : ℕ) → record_at self.old n ≡ None) }
    {
        match self.records.pop_last() {
            Some((_, record)) => Some(record),
            None => None,
        }
    }
}
