//! Drives that are dealt to the disk workers, and gathered again.
ghost use Rattle.std.specs.Prelude.{◌≡◌, ◌+◌, ◌<◌, ◌≤◌, ◌^◌, [], ◌∷◌, ◌++◌, drop, length, take, vec_capacity, vec_len};
ghost use Rattle.geo_jobs.specs.Deal.{dealt, drives_in, gathered_drives, own_disks};

use crate::drive_list::DriveList;
use geo_disk::Drive;

// Deals the drive of a disk to the worker to which the disk belongs.
fn deal_one<D>(disk: u32, drive: Drive<D>, even: &mut DriveList<D>, odd: &mut DriveList<D>)
    requires even { 0 < even.old.spare }
    requires odd { 0 < odd.old.spare }
    ensures even { even.new.items ≡ even.old.items ++ own_disks 0 ((disk, drive) ∷ []) }
    ensures odd { odd.new.items ≡ odd.old.items ++ own_disks 1 ((disk, drive) ∷ []) }
    ensures room { even.old.spare ≤ even.new.spare + 1 }
    ensures room_of_odd { odd.old.spare ≤ odd.new.spare + 1 }
{
    if disk % 2 == 0 {
        even.push(disk, drive);
    } else {
        odd.push(disk, drive);
    }
}

/// Deals drives in header order to the two disk workers, in turn.
pub fn deal<D: Drop>(drives: Vec<Drive<D>>, even: &mut DriveList<D>, odd: &mut DriveList<D>)
    requires few { vec_len drives < 2 ^ 16 }
    requires none { even.old.items ≡ [] }
    requires none_of_odd { odd.old.items ≡ [] }
    requires room { vec_len drives ≤ even.old.spare }
    requires room_of_odd { vec_len drives ≤ odd.old.spare }
    ensures even { even.new.items ≡ dealt 0 drives.items }
    ensures odd { odd.new.items ≡ dealt 1 drives.items }
{
    let mut disk = 0u32;
    for drive in drives {
        deal_one(disk, drive, even, odd);
        disk += 1;
    }
}

// Moves the first drive of a list, if there is one.
fn move_first<D>(list: &mut DriveList<D>, back: &mut Vec<Drive<D>>)
    requires { 0 < length list.old.items → vec_len back.old < vec_capacity back.old }
    ensures list { list.new.items ≡ drop 1 list.old.items }
    ensures back { back.new.items ≡ back.old.items ++ drives_in (take 1 list.old.items) }
    ensures room { vec_capacity back.new ≡ vec_capacity back.old }
{
    if let Some((_, drive)) = list.take_first() {
        back.push_reserved(drive);
    }
}

/// Gathers drives from the lists of the two disk workers, in turn.
pub fn gather<D: Drop>(mut even: DriveList<D>, mut odd: DriveList<D>, back: &mut Vec<Drive<D>>)
    requires fewer { length odd.items ≤ length even.items }
    requires room { vec_len back.old + length even.items + length odd.items ≤ vec_capacity back.old }
    ensures { back.new.items ≡ back.old.items ++ gathered_drives even.items odd.items }
{
    while let Some((_, drive)) = even.take_first() {
        back.push_reserved(drive);
        move_first(&mut odd, back);
    }
}
