//! Tests of the low layers: plain types, tables, bytes in and out, disks, scripts, address maps and records. They
//! stand in one crate, since a crate with tests is proved twice.
//!
//! Each file has the tests of one crate, at concrete values. They show what no clause says: that the calls which
//! allocate succeed with ample memory, and that the calls can be made at all. `file.rt` works on real image files,
//! `io.rt` on a reader and a writer of std: what these edges give and take is tested alone. `script.rt` has the table
//! of good and bad lines; `mbr.rt` and `ebr.rt` have tables and chains that lie.
#![tactic(auto)]

#[cfg(test)]
mod base;
#[cfg(test)]
mod concat;
#[cfg(test)]
mod disk;
#[cfg(test)]
mod ebr;
#[cfg(test)]
mod event;
#[cfg(test)]
mod family;
#[cfg(test)]
mod file;
#[cfg(test)]
mod io;
#[cfg(test)]
mod label;
#[cfg(test)]
mod mbr;
#[cfg(test)]
mod model;
#[cfg(test)]
mod nbd;
#[cfg(test)]
mod nop;
#[cfg(test)]
mod range;
#[cfg(test)]
mod record;
#[cfg(test)]
mod same;
#[cfg(test)]
mod script;
#[cfg(test)]
mod slots;
#[cfg(test)]
mod stripe;
