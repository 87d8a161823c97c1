// The laws by which an event of a machine is proved. Each function states one; it does nothing.
ghost use Rattle.dn_volume.specs.Laws.{DecidingStoresLead, FastDevicesLeave, ValidDisksLieWithin, TablesAreThere, AdvancesAreTold, MovesStaySound, AnswersStaySound, BreaksStaySound, BeginsStaySound, FlightsAreGranted, InodesAreShort, WantsAreShort};
ghost use Rattle.dn_volume.specs.Resting.{RestingVolumesAreAtRest};
ghost use Rattle.dn_volume.specs.Fresh.{FreshVolumesAgree, FreshVolumesAreSound};
ghost use Rattle.dn_volume.specs.Wrong.{LeftOutPlacesAreRefused, StalePointersAreRefused, WrongPartsAreRefused};
ghost use Rattle.dn_volume.specs.Rely.{FlightsStay, OthersStay};
ghost use Rattle.dn_volume.specs.StillLaws.{StillFlushes, StillSettles, StillWithoutFlights};

use fingerprint::Fingerprint;
use pm_device::Pm;

/// Where each image that a stop may leave stands for the disk of before or the disk of after, it has the files of the
/// one or of the other, and is this program's if both disks are.
pub fn deciding_stores_lead()
    ensures { DecidingStoresLead }
{}

/// A device that stands for a disk leaves images of that disk alone.
pub fn fast_devices_leave()
    ensures { FastDevicesLeave }
{}

/// What a disk without a fault says of its words lies within its pages.
pub fn valid_disks_lie_within()
    ensures { ValidDisksLieWithin }
{}

/// An advance that is the last one adds its entry, and every other leaves the history as it is.
pub fn advances_are_told()
    ensures { AdvancesAreTold }
{}

/// An operation in flight stays as far as it is through an event of another actor, which changes no inode that it
/// holds, and stores to no page that it has taken.
pub fn flights_stay()
    ensures { FlightsStay }
{}

/// The table that is kept in memory is that of the device's words.
pub fn tables_are_there()
    ensures { TablesAreThere }
{}

/// All that other actors have begun stays through an event that is for what its actor holds and has taken.
pub fn others_stay()
    ensures { OthersStay }
{}

/// A sound volume stays sound, whatever an event does: where it goes on, where it answers an operation, which goes over
/// into the history, and where it breaks off.
pub fn events_stay_sound<D: Pm, F: Fingerprint>()
    ensures moves { MovesStaySound D F D.state }
    ensures answers { AnswersStaySound D F D.state }
    ensures breaks { BreaksStaySound D F D.state }
{}

/// So it stays whatever a begin answers.
pub fn begins_stay_sound<D: Pm, F: Fingerprint>()
    ensures { BeginsStaySound D F D.state }
{}

/// A volume that was just mounted from an image without files agrees with it, and is sound from it.
pub fn fresh_volumes_agree()
    ensures agree { FreshVolumesAgree }
    ensures sound { FreshVolumesAreSound }
{}

/// Where each word is settled, or awaits a fence of a client that has an operation in flight, the device is still once
/// there is none. An event keeps it so that flushes or settles what it stores.
pub fn stillness_stays()
    ensures still { StillWithoutFlights }
    ensures flushes { StillFlushes }
    ensures settles { StillSettles }
{}

/// Where nothing waits for reclaim, a want of an inode is one of the disk.
pub fn inodes_are_short()
    ensures { InodesAreShort }
{}

/// Nothing stands in the way of an operation in flight, and it has taken the pages that it needs.
pub fn flights_are_granted()
    ensures { FlightsAreGranted }
{}

/// Where nothing waits for reclaim, a want of room is one of the disk.
pub fn wants_are_short()
    ensures { WantsAreShort }
{}

/// Each group of the invariant refuses something: in a volume without files, each part that is made wrong; and a place
/// that doesn't wait for the daemon, and a pointer to no row.
pub fn wrong_parts_are_refused()
    ensures parts { WrongPartsAreRefused }
    ensures places { LeftOutPlacesAreRefused }
    ensures pointers { StalePointersAreRefused }
{}

/// Once no operation is in flight, the daemon has begun nothing and nothing waits for reclaim, counts are exact, the
/// journal is closed, no file is dying, no pointer is stale, the device is still, and the free pages are the disk's.
pub fn resting_volumes_are_at_rest()
    ensures { RestingVolumesAreAtRest }
{}
