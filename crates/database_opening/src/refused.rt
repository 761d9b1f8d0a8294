//! No database.

use image_opening::OpenFault;

/// Why no database is opened. The disk is handed back.
#[derive(Drop)]
pub struct OpenRefused<D> {
    pub disk: D,
    pub fault: OpenFault,
}
