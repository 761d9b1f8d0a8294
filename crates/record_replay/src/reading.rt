//! What a record says that can be taken back.
ghost use Rattle.std.specs.Prelude.{◌≡◌, IfOk, IfSome, IfNone};
ghost use Rattle.std.specs.Option.{option_copied};
ghost use Rattle.iv_meaning.specs.Objects.{schema_of};
ghost use Rattle.record_replay.specs.Telling.{Reads, ReadsNone};

use crate::answer::Head;
use iv_types::{Bytes, Catalog, NoMemory};
use live_records::{LiveChange, LiveRecord};
use log_records::Record;
use record_reading::{read_change, read_delta};
use std::alloc::Global;

// The bytes of a row, if there is one.
fn bytes_of(row: &Option<Bytes>) -> Option<&[u8]>
    ensures { option_copied result ≡ row.now }
{
    match row {
        Some(bytes) => Some(bytes.as_slice()),
        None => None,
    }
}

/// What a Write or a Delta says, if it is of a table or a view that is there, and fits it. Other records say nothing that can
/// be taken back.
///
/// # Errors
///
/// Where there is no memory for it.
pub(crate) fn read_live(
    alloc: Global,
    catalog: &Catalog,
    head: Head,
    entry: &Record,
) -> Result<Option<LiveRecord>, NoMemory>
    ensures some { IfOk result (λ found. IfSome found (Reads (schema_of catalog.now) head entry.now)) }
    ensures none { IfOk result (λ found. IfNone found (ReadsNone (schema_of catalog.now) entry.now)) }
{
    match entry {
        Record::Write {
            transaction,
            table,
            key,
            before,
            after,
        } => {
            let before = bytes_of(before);
            let after = bytes_of(after);
            match read_change(alloc, catalog, *table, key.as_slice(), before, after)? {
                Some(change) => Ok(Some(LiveRecord {
                    place: head.place,
                    number: head.number,
                    transaction: *transaction,
                    change: LiveChange::Wrote(change),
                })),
                None => Ok(None),
            }
        }
        Record::Delta {
            transaction,
            view,
            group,
            count,
            sums,
        } => match read_delta(
            alloc,
            catalog,
            *view,
            group.as_slice(),
            *count,
            sums.as_slice(),
        )? {
            Some(delta) => Ok(Some(LiveRecord {
                place: head.place,
                number: head.number,
                transaction: *transaction,
                change: LiveChange::Added(delta),
            })),
            None => Ok(None),
        },
        _ => Ok(None),
    }
}
