//! Disks, drives, and the shelf that disks are taken from and given back to (disk(9)).
//!
//! Contracts see a [`Disk`] by one ghost member (`view`, a `DiskView`): its sizes, its sectors if it tells them, how
//! many calls failed, and the list of what it was asked and answered. A [`Shelf`] is seen (`ShelfView`) as what it
//! has under each name if it tells that, the names that are lent, and the list of its own calls. Of each name it has
//! counts: of its disk's faults, of takes that failed, and of gives that failed. It keeps besides what that disk had
//! been asked, and with how many sectors it was last offered back, be it taken back or not. These lists are [`Notes`],
//! which only clauses read: they tell each byte that was written or read, and take no memory.
//!
//! A write or zero changes exactly the sectors that its answer says were done (`held`), a read or flush none. A call
//! that fails is one fault more, and nothing else is (`faults`). What was asked grows by each call, and by nothing
//! else (`asked`, `called`). What [`Shelf::take`] and [`Shelf::give`] find, change and leave is said exactly, also
//! after a fault (`found`, `given`, `lent`, `counts`); a call that goes through is no fault (`no_fault`), and other
//! names stay. [`Drive`] makes exactly one call of the disk that it holds, and keeps its kind. [`MemDisk`] and
//! [`MemShelf`] fail exactly at the calls that they are told to (`fails`), but that a take may say that memory ran
//! out; a memory drive without failing calls has no fault. They copy no disk.
//!
//! Why so: [`Disk::read`] takes a slice, each of whose bytes is there, so the room of a READ holds zeros first. A count
//! of faults stands still at the end of its type. A disk in memory under a name of a shelf is one disk over its
//! takings.
//!
//! geo_file has disks that are images; geo_serve, geo_drain, geo_elev, the jobs and geo_run call these. Tests stand
//! in geo_tests_low. Read `src/disk.rt` and `src/shelf.rt` first.
#![tactic(auto)]

mod calls;
mod counts;
mod disk;
mod drive;
mod lending;
mod mem_disk;
mod mem_shelf;
mod notes;
mod shelf;

pub use calls::DiskCall;
pub use counts::one_more;
pub use disk::{Disk, DiskFailed};
pub use drive::Drive;
pub use lending::Lending;
pub use mem_disk::MemDisk;
pub use mem_shelf::MemShelf;
pub use notes::Notes;
pub use shelf::{GiveFault, Shelf, ShelfCall, ShelfFault, TakeAnswer, Taken, is_disk_size};
