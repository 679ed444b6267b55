//! Requests on their way (g_bio(9)): made, started, split, delivered and gathered.
//!
//! Contracts see a [`BioTable`] as its bios in order of numbers, the next number and the room (`BioTableView`). The
//! bytes of a READ are named by their place in the log ([`LogBytes`]), or held by the bio itself where no log keeps
//! them ([`Held`]); in the model they are bytes.
//!
//! [`BioTable::submit`], [`BioTable::start`], [`BioTable::bounce`], [`BioTable::set_phase`], [`BioTable::deliver`] and
//! [`BioTable::end`] change exactly the named bio. By `set_phase` it goes to its disk and is taken there; the last two
//! are a disk's answer, with a log and without. `start` puts one child for each piece behind all others
//! (`split`). [`BioTable::up`] follows the model's `up` (`told`, `rises`): the last child that comes in ends its
//! parent. The parent gets the first error in the order of the pieces, else the bytes joined in that order, and its
//! children are taken out. The children of a split are those that the definitions make of its pieces
//! ([`laws::children_are_of_pieces`]). After want of memory the bios are as before (`bios_stay`). The room after each
//! call that ends Ok is exact.
//!
//! [`BioTable::get`] tells besides that numbers rise from 1 on and are below the next one (`in_order`). A waiting bio
//! knows where its children stand, how many they are and how many are Done (`family`), and the parent of a child
//! waits (`parent`).
//!
//! Why so: a WRITE's bytes are shared with its children, and an only child's with its parent, as bios share their data
//! in g_bio(9); only several pieces are joined by a copy. `up` asks for nothing but the phase.
//!
//! geo_state keeps the table beside what finds the next bio that is due; geo_log keeps the bytes. Tests stand in
//! geo_tests_bios. Read `src/table.rt` and `specs/BioTable.antt` first.
#![tactic(auto)]

mod bio;
mod gather;
pub mod laws;
mod log_bytes;
mod rows;
mod split;
mod table;
mod targets;

pub use bio::{Bio, Held, Risen};
pub use gather::copied_at;
pub use geo_model::{BioResult, Owner, Phase, Span};
pub use log_bytes::LogBytes;
pub use table::BioTable;
pub use targets::Targets;
