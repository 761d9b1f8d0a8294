//! The records of an image.
ghost use Rattle.std.specs.Prelude.{◌≡◌, ◌+◌, ◌≤◌, ℕ, [], length, Ok, OnOk};
ghost use Rattle.iv_types.specs.Maps.{map_size};
ghost use Rattle.txn_log.specs.Replay.{Pages};
ghost use Rattle.txn_log.specs.Refused.{PlacedImage, BadImage, IsRefused, most_number};
ghost use Rattle.image_finding.specs.Faults.{IfBad, FindFaults};
ghost use Rattle.record_replay.specs.Past.{carrying};
ghost use Rattle.record_replay.specs.Standing.{Has, HasReplayed};
ghost use Rattle.record_replay.specs.Texts.{texts_entries};
ghost use Rattle.record_replay.specs.declared.answer.Replayed.TheVariants.{Passed, Broken};
ghost use Rattle.log_replay.specs.Told.{IsImageOf, IsRecovered};

use crate::each::{carry_each, follow_each};
use crate::parts::count_before;
use image_finding::FindFault;
use iv_types::{NoMemory, SortedMaps};
use log_records::Scanned;
use record_replay::{Replay, Replayed};

// What is answered of records, as an outcome.
fn outcome(answer: Result<Replayed, NoMemory>) -> Result<(), FindFault>
    ensures passed { OnOk result (answer ≡ Ok Passed) }
    ensures broken { IfBad result (λ bad. answer ≡ Ok (Broken bad)) }
    ensures no_disk { (count : ℕ) → FindFaults result count count }
{
    match answer {
        Ok(Replayed::Passed) => Ok(()),
        Ok(Replayed::Broken(bad)) => Err(FindFault::BadImage(bad)),
        Err(NoMemory) => Err(FindFault::NoMemory),
    }
}

/// Replays all records of an image, in the order in which they were scanned: those before the redo place are carried ones. The log
/// area begins at this place of the device. Then what transactions keep that have not ended is taken back, the latest first. The
/// store has then what is recovered of the image, and no transaction is open.
///
/// # Errors
///
/// `BadImage` with rule 13 or 14, and the place of the first record that fails one, as it is replayed or taken back. `NoMemory` where
/// there was none for it. What stands there is not told then.
pub fn replay_records<M: SortedMaps>(
    replay: &mut Replay<M>,
    area: u64,
    redo: u64,
    records: &[Scanned],
) -> Result<(), FindFault>
    requires begins { (p : Pages) × HasReplayed M.maps M.limit replay.old (carrying p [] []) }
    // The store has what is recovered.
    ensures recovered { OnOk result ((i : PlacedImage) → IsImageOf M.maps M.limit area redo records.now replay.old i → IsRecovered M.maps M.limit replay.new i) }
    // It has some pages with their commit number, whatever the records stand for.
    ensures some { OnOk result ((p : Pages) × Has M.maps M.limit replay.new.store p × (replay.new.commits ≡ p.db.number) × (replay.new.next ≤ most_number + 1)) }
    // Index 0 counts at most what the texts of definitions among the records do beside what it counted,
    ensures texts { OnOk result (map_size (M.maps replay.new.store.tables 0) ≤ map_size (M.maps replay.old.store.tables 0) + texts_entries records.now) }
    // and the commit number rises by one a record at most.
    ensures commits { replay.new.commits ≤ replay.old.commits + length records.now }
    // The rule and the place that are told are those for which the image is refused.
    ensures refused { IfBad result (λ bad. (i : PlacedImage) → IsImageOf M.maps M.limit area redo records.now replay.old i → IsRefused i (BadImage bad.rule bad.place)) }
    // Nothing else of the store is changed.
    ensures rest { replay.new.store ≡ record replay.old.store { catalog = replay.new.store.catalog; tables = replay.new.store.tables; views = replay.new.store.views } }
    // The disk is not asked.
    ensures no_disk { (count : ℕ) → FindFaults result count count }
{
    let count = count_before(redo, records);
    match outcome(carry_each(replay, area, &records[..count])) {
        Ok(()) => {}
        Err(fault) => return Err(fault),
    }
    match outcome(follow_each(replay, area, &records[count..])) {
        Ok(()) => {}
        Err(fault) => return Err(fault),
    }
    outcome(replay.reverse())
}
