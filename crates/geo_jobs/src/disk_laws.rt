//! What a disk worker does over several turns.
ghost use Rattle.geo_serve.specs.Drives.{drive_view};
ghost use Rattle.geo_jobs.specs.Ran.{TurnsAddUp};

use geo_disk::Disk;

/// By what a worker's pass added in several turns, each of its drives did what the Takes and Delivers say that it was
/// asked, no other disk was taken for, and each bio that was taken was delivered. So it is with no turn, and with one
/// turn more.
pub fn turns_add_up<D: Disk>()
    ensures { TurnsAddUp (drive_view D.view) }
{}
