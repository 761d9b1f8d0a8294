//! A disk that was closed.
use crate::list_disk::ListDisk;

/// A disk that lies under a name.
#[derive(Drop)]
pub struct ClosedDisk {
    pub name: String,
    pub disk: ListDisk,
}
