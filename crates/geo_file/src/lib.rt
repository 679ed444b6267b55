//! Image files of a folder as disks of a shelf: the trusted edge of disks. The disk of a name is the file `NAME.img`,
//! locked by flock(2) for as long as it is lent.
//!
//! Contracts see a [`FileDisk`] as its sizes, its faults, what it was asked and what was written to its file (`Image`),
//! and a [`FileShelf`] as its loans, its faults and its calls (`Folder`). Neither tells what it holds.
//!
//! They meet the contracts of geo_disk's `Disk` and `Shelf`: counts of faults, the lists of calls with their bytes,
//! which names are lent, and that a disk comes in whole sectors, at most 2^40 bytes. A write of a disk puts just its
//! bytes into the file, at the place of its sectors, a zero just zeros, and a read or flush nothing (`wrote`).
//!
//! Trusted is one function: `ToldFile::write_at` writes by one call of the system, and notes what that wrote. No
//! other code has the file, so none can write without telling. That a file then holds what was written to it, gives
//! that back, and keeps it after a sync, is tested, not proved, and so is that a file which is locked can't be taken.
//! geo_tests_low has a test of each call over real files; `tests/edge` and `tests/locked` run the program so.
//!
//! Why so: an image is locked right after it is opened and its size asked behind that, so a locked one is a fault of
//! the shelf whatever its size. A failed write tells the whole sectors that the system took. A flush is fdatasync;
//! giving back is fsync, whose failure is a failed give. A name with a slash is missing.
//!
//! geomrun gives a shelf of the current folder to the top call. Read `src/file_shelf.rt` first.
#![tactic(auto)]

mod file_disk;
mod file_shelf;
mod told_file;

pub use file_disk::FileDisk;
pub use file_shelf::FileShelf;
