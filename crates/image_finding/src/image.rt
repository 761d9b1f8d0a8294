//! An image that was found.
ghost use Rattle.std.specs.Prelude.{◌≡◌, ◌≤◌, length};
ghost use Rattle.image_finding.specs.Maps.{IsLow};

use crate::LiveHeader;
use iv_types::Bytes;
use log_records::RecordList;

/// What stands on a device whose image passes rules 1 to 9.
#[derive(Drop)]
pub struct FoundImage {
    /// The live header.
    pub header: LiveHeader,
    /// The records of the log area in use, with their places in the area.
    pub records: RecordList,
    /// The page map, one byte a page: 0 not stored, 1 in slot 0, 2 in slot 1.
    pub map: Bytes,
    ghost whole_map: { length map ≡ header.pages },
    ghost low_map: { IsLow map },
    ghost few_pages: { header.pages ≤ 131072 },
    ghost small_areas: { header.area_bytes ≤ 268435456 },
    ghost named_area: { header.area ≤ 1 },
    ghost few_records: { length records ≤ header.area_bytes },
}
