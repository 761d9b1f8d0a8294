//! Laws of calls on a disk. Each function is there for its contract.
ghost use Rattle.log_disk.specs.Calls.{DiskTells};
ghost use Rattle.log_disk.specs.Laws.{AreasLaw, OpeningLaw, OpenedLaw, StandingLaw, CallsLaw, PrefixLaw, OneStepLaw, RoomLaw};

use disk_io::Disk;

/// Bytes written in the log areas leave what the header, its page map and the stored pages mean.
pub fn areas_law()
    ensures { AreasLaw }
{}

/// While an opening publishes what it recovered, a crash leaves the image that it found or the one that it publishes.
pub fn opening_law<D: Disk>()
    ensures { D.is_told → OpeningLaw (record { size_of = D.size_of; seen = D.seen; may_leave = D.may_leave; moment = D.moment; left_since = D.left_since }) }
{}

/// Where the checkpoint of an opening is published, an engine may be begun on it.
pub fn opened_law<D: Disk>()
    ensures { D.is_told → OpenedLaw (record { size_of = D.size_of; seen = D.seen; may_leave = D.may_leave; moment = D.moment; left_since = D.left_since }) }
{}

/// After any calls a machine that no fault of the disk stopped has on the disk what its moments say.
pub fn standing_law<D: Disk>()
    ensures { D.is_told → StandingLaw (record { size_of = D.size_of; seen = D.seen; may_leave = D.may_leave; moment = D.moment; left_since = D.left_since }) }
{}

/// Whatever a crash may leave at any moment of any call bears what a crash of the machine leaves in a world that the
/// call passes, without some of its waiting records.
pub fn calls_law<D: Disk>()
    ensures { D.is_told → CallsLaw (record { size_of = D.size_of; seen = D.seen; may_leave = D.may_leave; moment = D.moment; left_since = D.left_since }) }
{}

/// So it recovers to the database at a commit number, with every commit acknowledged before the call.
pub fn prefix_law<D: Disk>()
    ensures { D.is_told → PrefixLaw (record { size_of = D.size_of; seen = D.seen; may_leave = D.may_leave; moment = D.moment; left_since = D.left_since }) }
{}

/// Where one step, or none, was committed since, it recovers to what was committed before or to what is committed after.
pub fn one_step_law<D: Disk>()
    ensures { D.is_told → OneStepLaw (record { size_of = D.size_of; seen = D.seen; may_leave = D.may_leave; moment = D.moment; left_since = D.left_since }) }
{}

/// At each moment the log in memory has used and reserved as many bytes as the machine, and between two steps they lie in its area.
pub fn room_law<D: Disk>()
    ensures { D.is_told → RoomLaw (record { size_of = D.size_of; seen = D.seen; may_leave = D.may_leave; moment = D.moment; left_since = D.left_since }) }
{}
