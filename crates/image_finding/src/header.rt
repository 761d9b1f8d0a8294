//! The fields of a header.
ghost use Rattle.std.specs.Prelude.{◌≤◌};

/// The live header of a device, as its bytes have it.
#[derive(Clone, Copy, Debug, Drop)]
pub struct LiveHeader {
    /// Where it begins, a byte of the device.
    pub place: u64,
    /// The number of the disk's format.
    pub format: u32,
    /// How many pages there are.
    pub pages: u32,
    /// How many bytes each log area has.
    pub area_bytes: u64,
    /// The header's number.
    pub number: u64,
    /// The greatest commit number.
    pub commits: u64,
    /// The next record number.
    pub next: u64,
    /// The log area in use.
    pub area: u8,
    /// Where the second block of the log area begins, counted from the area's first byte.
    pub redo: u64,
    ghost low: { place ≤ 139264 },
}
