//! The records of the log, replayed.
ghost use Rattle.std.specs.Prelude.{◌≡◌, ◌+◌, ◌≤◌, ℕ, List, length, IfOk};
ghost use Rattle.iv_types.specs.Maps.{map_size};
ghost use Rattle.page_store.specs.Image.{area_at};
ghost use Rattle.table_store.specs.Lists.{map_at};
ghost use Rattle.txn_log.specs.Replay.{Pages};
ghost use Rattle.txn_log.specs.Refused.{PlacedImage, BadImage, IsRefused, most_number};
ghost use Rattle.disk_io.specs.Disk.{AreBytes};
ghost use Rattle.image_finding.specs.Faults.{IfBad, FindFaults};
ghost use Rattle.image_finding.specs.Images.{HasImage};
ghost use Rattle.record_replay.specs.Standing.{Has};
ghost use Rattle.record_replay.specs.Texts.{texts_entries};
ghost use Rattle.log_replay.specs.Told.{IsRecovered};
ghost use Rattle.image_pages.specs.Pages.{no_limit, HasSomePages, HasPagesOf};
ghost use Rattle.image_opening.specs.Images.{IsImageIn};

use data_store::DataStore;
use image_finding::{FindFault, FoundImage, LiveHeader};
use log_replay::replay_records;
use record_replay::Replay;
use tree_maps::TreeMaps;

// Two headers stand before the log areas.
const FIRST_AREA: u64 = 278_528;

// Where the log area in use begins, a byte of the device.
fn area_place(header: &LiveHeader) -> u64
    requires { header.now.area_bytes ≤ 268435456 }
    ensures { header.now.area ≤ 1 → result ≡ area_at header.now.area_bytes header.now.area }
{
    FIRST_AREA + header.area as u64 * header.area_bytes
}

/// Replays all records of an image on a store that has what its stored pages have.
///
/// # Errors
///
/// `BadImage` with rule 13 or 14 and the place of the first record that fails one. `NoMemory` where there was none for it.
pub(crate) fn replayed(
    store: DataStore<TreeMaps>,
    image: &FoundImage,
) -> Result<Replay<TreeMaps>, FindFault>
    requires has { HasSomePages store }
    // What the bytes recover to.
    ensures recovered { (c : List ℕ) → AreBytes c → HasImage c image.now → HasPagesOf c store → (i : PlacedImage) → IsImageIn c i → IfOk result (λ replay. IsRecovered map_at no_limit replay i) }
    // They are refused for what is told.
    ensures refused { (c : List ℕ) → AreBytes c → HasImage c image.now → HasPagesOf c store → (i : PlacedImage) → IsImageIn c i → IfBad result (λ bad. IsRefused i (BadImage bad.rule bad.place)) }
    // It has some pages, whatever the disk is.
    ensures has { IfOk result (λ replay. (p : Pages) × Has map_at no_limit replay.store p × (replay.commits ≡ p.db.number) × (replay.next ≤ most_number + 1)) }
    // Index 0 counts at most what the texts of definitions among the records do beside what it counted,
    ensures texts { IfOk result (λ replay. map_size (map_at replay.store.tables 0) ≤ map_size (map_at store.tables 0) + texts_entries image.now.records) }
    // and the commit number is at most the header's and one more for each record.
    ensures commits { IfOk result (λ replay. replay.commits ≤ image.now.header.commits + length image.now.records) }
    // Nothing else of the store is changed.
    ensures rest { IfOk result (λ replay. replay.store ≡ record store { catalog = replay.store.catalog; tables = replay.store.tables; views = replay.store.views }) }
    // The disk is not asked.
    ensures no_disk { (count : ℕ) → FindFaults result count count }
{
    let mut replay = Replay::new(store, image.header.commits);
    match replay_records(
        &mut replay,
        area_place(&image.header),
        image.header.redo,
        image.records.as_slice(),
    ) {
        Ok(()) => Ok(replay),
        Err(fault) => Err(fault),
    }
}
