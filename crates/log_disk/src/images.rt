//! Laws of the images that bytes bear. Each function is there for its contract.
ghost use Rattle.log_disk.specs.Spelled.{FieldsLaw, CommitBytes};
ghost use Rattle.log_disk.specs.Bears.{StoredLaw, FirstEndLaw, OneImageLaw};
ghost use Rattle.log_disk.specs.Placed.{PlacedLaw, RecordsLieLaw, PlacedThereLaw};
ghost use Rattle.log_disk.specs.WorkedPlaces.{WorkedPlaces};
ghost use Rattle.log_disk.specs.Places.{PlacesLaw, GateLaw, BreakLaw};
ghost use Rattle.log_disk.specs.Found.{LiveLaw, FoundLaw, NotDamagedLaw, WholeLaw};

/// A record's fields stand in its bytes as they are named.
pub fn fields_law()
    ensures fields { FieldsLaw }
    ensures commit { CommitBytes }
{}

/// For proper pages whose texts and entries fit there are stored pages that hold them.
pub fn stored_law()
    ensures { StoredLaw }
{}

/// A first block whose gate is closed has no end, and an open one ends behind its records.
pub fn first_end_law()
    ensures { FirstEndLaw }
{}

/// The live header of a device is open and lies wholly on it, and has the greater number.
pub fn live_law()
    ensures { LiveLaw }
{}

/// For each device there is what is found.
pub fn found_law()
    ensures { FoundLaw }
{}

/// What is found stands where it is found; a block that does not lie in the area is told by its open gate, and one that is not
/// whole records by the first byte of what is none.
pub fn places_law()
    ensures found { PlacesLaw }
    ensures gates { GateLaw }
    ensures breaks { BreakLaw }
{}

/// Bytes bear one image.
pub fn one_image_law()
    ensures { OneImageLaw }
{}

/// Bytes that bear an image are refused by no rule on header, blocks, page map and entries.
pub fn not_damaged_law()
    ensures { NotDamagedLaw }
{}

/// Where no rule fails the header, the blocks, the page map and the stored pages are whole.
pub fn whole_law()
    ensures { WholeLaw }
{}

/// What is placed of bytes that bear an image is that image at the places of its records.
pub fn placed_law()
    ensures { PlacedLaw }
{}

/// The carried records that are placed fill the first block, and the others lie behind it, each where its bytes begin on the device.
pub fn records_lie_law()
    ensures { RecordsLieLaw }
{}

/// For whole blocks and stored pages there is what is placed, as of an area with a carried record and one behind the redo place.
pub fn placed_there_law()
    ensures there { PlacedThereLaw }
    ensures worked { WorkedPlaces }
{}
