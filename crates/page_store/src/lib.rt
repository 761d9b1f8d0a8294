//! Pages on a disk, published so that a crash leaves the old image or the new one.
#![tactic(auto)]

mod apart;
mod close;
mod facts;
mod find;
mod header;
mod pages;
mod publish;
mod staging;
mod store;

pub use facts::HeaderFacts;
pub use iv_types::DiskFault;
pub use store::PageStore;
