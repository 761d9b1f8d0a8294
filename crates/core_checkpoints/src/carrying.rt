//! The records that a checkpoint carries.
ghost use Rattle.std.specs.Prelude.{◌≡◌, ℕ, ◌+◌, ◌<◌, ◌^◌, ◌∷◌, [], List, Some, slice_get};
ghost use Rattle.iv_types.specs.Definitions.{Definitions};
ghost use Rattle.iv_types.specs.declared.lock.KeptStep.{KeptStep as Kept};
ghost use Rattle.iv_meaning.specs.Objects.{schema_of};
ghost use Rattle.query_laws.specs.Limited.{IsLimited};
ghost use Rattle.txn_machine.specs.Counts.{told_need};
ghost use Rattle.txn_machine.specs.Log.{Within};
ghost use Rattle.txn_machine.specs.Records.{record_bytes};
ghost use Rattle.txn_book.specs.Opens.{open_at};
ghost use Rattle.log_records.specs.Area.{Entry};
ghost use Rattle.record_lending.specs.Steps.{HasItsEntries, record_of};
ghost use Rattle.core_journal.specs.Records.{Records};
ghost use Rattle.core_journal.specs.Cuts.{Cut};
ghost use Rattle.core_recording.specs.Carried.{CarriesAll};
ghost use Rattle.core_recording.specs.Carrying.{steps_at, id_of, CanCarry, CanCarryAll, entry_of, all_bytes};

use crate::earliest::{earliest, step_behind};
use core_journal::Journal;
use iv_types::SEATS;
use record_lending::{number_of, record_bytes, short_law, step_of};
use txn_book::Book;

// Carries the step behind so many of a session's transaction, and tells what its record takes.
fn carry_next<J: Journal>(book: &Book, journal: &mut J, session: u32, done: usize) -> u64
    requires { (definitions : Definitions) × (rs : Records) × (next : ℕ) × (es : List Entry) × (used : ℕ) × (k : Kept) × (slice_get (steps_at book.now.opens session) done ≡ Some k)
        × CanCarry definitions (id_of (open_at book.now.opens session)) k × IsLimited (schema_of definitions) × J.carries journal.old rs next es used
        × Within (J.limit journal.old) (used + record_bytes (schema_of definitions) (record_of (id_of (open_at book.now.opens session)) k)) }
    ensures carries { (definitions : Definitions) (rs : Records) (next : ℕ) (es : List Entry) (used : ℕ) (k : Kept) → slice_get (steps_at book.now.opens session) done ≡ Some k → HasItsEntries definitions k → J.carries journal.old rs next es used
        → J.carries journal.new rs next (entry_of (schema_of definitions) (id_of (open_at book.now.opens session)) k ∷ es) (used + record_bytes (schema_of definitions) (record_of (id_of (open_at book.now.opens session)) k)) }
    ensures bytes { (definitions : Definitions) (k : Kept) → slice_get (steps_at book.now.opens session) done ≡ Some k → HasItsEntries definitions k
        → result ≡ told_need (record_bytes (schema_of definitions) (record_of (id_of (open_at book.now.opens session)) k)) }
    ensures stands { (x : Cut) → J.stands_on journal.old x → J.stands_on journal.new x }
    ensures limit { J.limit journal.new ≡ J.limit journal.old }
    ensures medium { J.medium journal.new ≡ J.medium journal.old }
    ensures few { done < 2 ^ 63 }
{
    short_law();
    match step_behind(book, session, done) {
        Some((transaction, step)) => {
            let lent = step_of(transaction, step);
            journal.carry(number_of(step), lent);
            record_bytes(lent)
        }
        None => unreachable!(),
    }
}

/// Carries the records of all steps that open transactions keep, in the order of their numbers, and tells what they take. A sum past
/// the end of a `u64` counts as that end. It takes no memory.
pub(crate) fn carry_kept<J: Journal>(book: &Book, journal: &mut J) -> u64
    requires { (definitions : Definitions) × (rs : Records) × (next : ℕ) × (used : ℕ) × CanCarryAll definitions book.now.opens × IsLimited (schema_of definitions) × J.carries journal.old rs next [] used
        × Within (J.limit journal.old) (used + all_bytes (schema_of definitions) book.now.opens) }
    ensures carries { (definitions : Definitions) (rs : Records) (next : ℕ) (used : ℕ) → CanCarryAll definitions book.now.opens → J.carries journal.old rs next [] used
        → (es : List Entry) × CarriesAll (schema_of definitions) book.now.opens es × J.carries journal.new rs next es (used + all_bytes (schema_of definitions) book.now.opens) }
    ensures bytes { (definitions : Definitions) → CanCarryAll definitions book.now.opens → result ≡ told_need (all_bytes (schema_of definitions) book.now.opens) }
    ensures stands { (x : Cut) → J.stands_on journal.old x → J.stands_on journal.new x }
    ensures limit { J.limit journal.new ≡ J.limit journal.old }
    ensures medium { J.medium journal.new ≡ J.medium journal.old }
{
    let mut done = [0; SEATS];
    let mut bytes: u64 = 0;
    while let Some(session) = earliest(book, &done) {
        let at = session as usize;
        let more = carry_next(book, journal, session, done[at]);
        bytes = bytes.saturating_add(more);
        done[at] += 1;
    }
    bytes
}
