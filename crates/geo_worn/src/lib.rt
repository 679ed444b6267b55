//! A disk whose sectors wear out: a template for a disk of one's own (docs/LIVE-RATTLE.md).
//!
//! Contracts see a [`WornDisk`] as its sectors, how often each was written, how many writes a sector bears, how many
//! calls failed, and what it was asked (`Worn`). A write or zero in whose range a sector was written as often as that
//! fails and does nothing; each other is made, and counts for each of its sectors. A read or flush never fails
//! (clause `fails` of each call). So what any [`Disk`] has to be is proved of it.
//!
//! It keeps its sectors in a [`geo_disk::MemDisk`], of whose calls none is to fail. No program uses it. Read
//! `specs/Worn.antt` and `src/disk.rt` first.
#![tactic(auto)]

mod disk;
mod memory;
#[cfg(test)]
mod tests;
mod wear;

pub use disk::WornDisk;
