//! The image of a database on a device of any size with any bytes, as it is found before its records are replayed: the
//! live header, the records of the log area in use and the page map; or the first rule of the image that fails.
//!
//! Nothing is written. What the bytes say is tested before memory is taken for it.
#![tactic(auto)]

mod fault;
mod find;
mod header;
mod image;
mod layout;
mod live;
mod log;
mod pages;
mod reading;
mod rules;

pub use fault::{BadImage, FindFault};
pub use find::find_image;
pub use header::LiveHeader;
pub use image::FoundImage;
pub use pages::read_page;
