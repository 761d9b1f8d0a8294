//! What is found of the views' rows.

use iv_types::{Bytes, NumberList};

/// A row of a view that is not what the view has, evaluated afresh: its count and its sums on each side, or none where that side
/// has no row.
#[derive(Drop)]
pub struct WrongRow {
    pub view: u32,
    /// The encoded group.
    pub group: Bytes,
    pub stored: Option<NumberList>,
    pub fresh: Option<NumberList>,
}

/// How the stored rows of views stand beside their views, evaluated afresh.
#[derive(Drop)]
pub enum ViewsFound {
    /// Each is what its view has.
    Same,
    /// A sum of some view leaves the HUGE range.
    OutOfRange,
    /// The first row that differs, where no sum leaves the range.
    Differs(WrongRow),
}
