//! Why no database is opened.
ghost use Rattle.std.specs.Prelude.{◌≡◌};
ghost use Rattle.image_opening.specs.Faults.{open_fault, views_fault};

use crate::views::ViewsFault;
use image_finding::{BadImage, FindFault};
use image_views::WrongRow;
use iv_types::Catalog;

/// A stored row of a view that is not what the view has, evaluated afresh.
#[derive(Drop)]
pub struct WrongView {
    /// The first such row, by the number of its view and then by its group.
    pub row: WrongRow,
    /// The definitions, which name the view.
    pub catalog: Catalog,
}

/// Why an image is not opened.
#[derive(Drop)]
pub enum OpenFault {
    /// A rule of the image fails.
    BadImage(BadImage),
    /// A stored row of a view is not what the view has.
    BadView(WrongView),
    /// The disk failed, and its count of faults says so.
    DiskFault,
    /// There was no memory for it.
    NoMemory,
}

/// The same as why an image is not opened.
pub(crate) fn open_fault(fault: FindFault) -> OpenFault
    ensures { result ≡ open_fault fault }
{
    match fault {
        FindFault::BadImage(bad) => OpenFault::BadImage(bad),
        FindFault::DiskFault => OpenFault::DiskFault,
        FindFault::NoMemory => OpenFault::NoMemory,
    }
}

/// Why an image with these definitions is not opened for its views.
pub(crate) fn views_fault(fault: ViewsFault, catalog: Catalog) -> OpenFault
    ensures { result ≡ views_fault catalog fault }
{
    match fault {
        ViewsFault::Rule(bad) => OpenFault::BadImage(bad),
        ViewsFault::Row(row) => OpenFault::BadView(WrongView { row, catalog }),
        ViewsFault::NoMemory => OpenFault::NoMemory,
    }
}
