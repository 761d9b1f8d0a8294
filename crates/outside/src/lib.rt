//! What a program meets outside itself: the disks that it opens and makes by name.
#![tactic(auto)]

mod closed;
mod finding;
mod list_disk;
mod list_outside;
mod outside;
mod unmade;

pub use list_disk::ListDisk;
pub use list_outside::ListOutside;
pub use outside::Outside;
pub use unmade::Unmade;
