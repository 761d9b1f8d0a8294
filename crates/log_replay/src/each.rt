//! Records one after another.
ghost use Rattle.std.specs.Prelude.{◌≡◌, ◌+◌, ◌≤◌, List, [], length, IfOk, OnOk};
ghost use Rattle.iv_types.specs.Maps.{map_size};
ghost use Rattle.txn_log.specs.Replay.{Deed, Pages};
ghost use Rattle.txn_log.specs.Refused.{Placed};
ghost use Rattle.record_replay.specs.Past.{Past, carrying};
ghost use Rattle.record_replay.specs.Standing.{HasReplayed};
ghost use Rattle.record_replay.specs.Texts.{texts_entries};
ghost use Rattle.record_replay.specs.declared.answer.Replayed.TheVariants.{Passed};
ghost use Rattle.log_replay.specs.Through.{CarryTo, GoTo};
ghost use Rattle.log_replay.specs.Told.{TellsEachCarried, TellsEach};

use crate::parts::head_of;
use iv_types::{NoMemory, SortedMaps};
use log_records::Scanned;
use record_replay::{Replay, Replayed};

/// Replays carried records in order, up to the first that fails rule 13. The area begins at this place of the device.
///
/// # Errors
///
/// Where there is no memory for it. What stands there is not told then.
pub(crate) fn carry_each<M: SortedMaps>(
    replay: &mut Replay<M>,
    area: u64,
    records: &[Scanned],
) -> Result<Replayed, NoMemory>
    requires begins { (p : Pages) × HasReplayed M.maps M.limit replay.old (carrying p [] []) }
    ensures told { IfOk result (λ answer. (p : Pages) → HasReplayed M.maps M.limit replay.old (carrying p [] [])
        → (all : List Placed) → CarryTo area p.db.schema [] records.now all → TellsEachCarried M.maps M.limit replay.new p all answer) }
    ensures some { IfOk result (λ answer. answer ≡ Passed → (p : Pages) × (first : List Placed) × (ds : List Deed) × HasReplayed M.maps M.limit replay.new (carrying p first ds)) }
    ensures texts { OnOk result (M.maps replay.new.store.tables 0 ≡ M.maps replay.old.store.tables 0) }
    ensures commits { replay.new.commits ≡ replay.old.commits }
    ensures rest { replay.new.store ≡ record replay.old.store { catalog = replay.new.store.catalog; tables = replay.new.store.tables; views = replay.new.store.views } }
{
    for scanned in records {
        let answer = replay.carry(head_of(area, scanned), &scanned.entry)?;
        if answer != Replayed::Passed {
            return Ok(answer);
        }
    }
    Ok(Replayed::Passed)
}

/// Replays further records in order, up to the first that fails rule 13 or 14. The area begins at this place of the device.
///
/// # Errors
///
/// Where there is no memory for it. What stands there is not told then.
pub(crate) fn follow_each<M: SortedMaps>(
    replay: &mut Replay<M>,
    area: u64,
    records: &[Scanned],
) -> Result<Replayed, NoMemory>
    requires begins { (p : Pages) × (first : List Placed) × (ds : List Deed) × HasReplayed M.maps M.limit replay.old (carrying p first ds) }
    ensures told { IfOk result (λ answer. (p : Pages) (first : List Placed) (ds : List Deed) → HasReplayed M.maps M.limit replay.old (carrying p first ds)
        → (all : List Placed) → GoTo area p.db.schema [] records.now all → TellsEach M.maps M.limit replay.new p first ds all answer) }
    ensures some { IfOk result (λ answer. answer ≡ Passed → (x : Past) × HasReplayed M.maps M.limit replay.new x) }
    ensures texts { OnOk result (map_size (M.maps replay.new.store.tables 0) ≤ map_size (M.maps replay.old.store.tables 0) + texts_entries records.now) }
    ensures commits { replay.new.commits ≤ replay.old.commits + length records.now }
    ensures rest { replay.new.store ≡ record replay.old.store { catalog = replay.new.store.catalog; tables = replay.new.store.tables; views = replay.new.store.views } }
{
    for scanned in records {
        let answer = replay.follow(head_of(area, scanned), &scanned.entry)?;
        if answer != Replayed::Passed {
            return Ok(answer);
        }
    }
    Ok(Replayed::Passed)
}
