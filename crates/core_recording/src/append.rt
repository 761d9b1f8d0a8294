//! A record is given.
ghost use Rattle.std.specs.Prelude.{◌≡◌, ◌+◌, true, cond, Some, None, OnOk, OnErr};
ghost use Rattle.iv_types.specs.Faults.{Rose};
ghost use Rattle.iv_meaning.specs.Schema.{Schema};
ghost use Rattle.txn_machine.specs.Log.{Within, block_bytes};
ghost use Rattle.txn_machine.specs.Records.{Record, Abort, record_bytes};
ghost use Rattle.log_records.specs.Lent.{stands_for};
ghost use Rattle.log_disk.specs.Spelled.{in_bytes};
ghost use Rattle.core_journal.specs.Records.{Records, with_one, with_perhaps, flushed_all};
ghost use Rattle.core_journal.specs.Cuts.{cut_of};
ghost use Rattle.core_recording.specs.Appending.{CanAppend};

use core_journal::Journal;
use iv_types::DiskFault;
use log_records::LentRecord;
use record_lending::abort_of;

/// Gives a record under this number.
pub fn give<J: Journal>(journal: &mut J, number: u64, lent: LentRecord<'_>)
    requires { (objects : Schema) × (r : Record) × (rs : Records) × (stands_for lent ≡ in_bytes objects r) × J.has journal.old rs × CanAppend (J.limit journal.old) objects number r rs }
    ensures has { (objects : Schema) (r : Record) (rs : Records) → stands_for lent.entry ≡ in_bytes objects r → J.has journal.old rs → J.has journal.new (with_one objects (record { number = number; of = r }) rs) }
    ensures limit { J.limit journal.new ≡ J.limit journal.old }
    ensures medium { J.medium journal.new ≡ J.medium journal.old }
{
    journal.append(number, lent);
}

/// Gives the Abort of a transaction under this number, where it has written.
#[tactic(none)]
pub(crate) fn give_abort<J: Journal>(journal: &mut J, wrote: bool, number: u64, transaction: u64)
    requires { wrote ≡ true → (objects : Schema) × (rs : Records) × J.has journal.old rs × CanAppend (J.limit journal.old) objects number (Abort transaction) rs }
    ensures has { (objects : Schema) (rs : Records) → J.has journal.old rs → J.has journal.new (with_perhaps objects number (cond wrote (Some (Abort transaction)) None) rs) }
    ensures limit { J.limit journal.new ≡ J.limit journal.old }
    ensures medium { J.medium journal.new ≡ J.medium journal.old }
{
    if !wrote {
        return;
    }
    give(journal, number, abort_of(transaction));
}

/// Gives a record under this number, and has it on the disk with those that wait.
///
/// # Errors
///
/// Where the disk fails. The records that waited may be on it or not.
#[tactic(none)]
pub fn give_and_flush<J: Journal>(
    journal: &mut J,
    number: u64,
    lent: LentRecord<'_>,
) -> Result<(), DiskFault>
    requires { (objects : Schema) × (r : Record) × (rs : Records) × (stands_for lent ≡ in_bytes objects r) × J.has journal.old rs × CanAppend (J.limit journal.old) objects number r rs × Within (J.limit journal.old) (rs.used + record_bytes objects r + block_bytes) }
    ensures ok { OnOk result (((objects : Schema) (r : Record) (rs : Records) → stands_for lent.entry ≡ in_bytes objects r → J.has journal.old rs → J.has journal.new (flushed_all (with_one objects (record { number = number; of = r }) rs))) × (J.faults (J.medium journal.new) ≡ J.faults (J.medium journal.old))) }
    ensures err { OnErr result (Rose (J.faults (J.medium journal.old)) (J.faults (J.medium journal.new))) }
    // A crash at any moment leaves what the medium had, or the records with all that waited.
    ensures any_moment { (objects : Schema) (r : Record) (rs : Records) → stands_for lent.entry ≡ in_bytes objects r → J.has journal.old rs → J.leaves (J.medium journal.old) (J.medium journal.new) (cut_of rs) (cut_of (flushed_all (with_one objects (record { number = number; of = r }) rs))) }
    ensures limit { J.limit journal.new ≡ J.limit journal.old }
{
    give(journal, number, lent);
    journal.flush()
}
