//! The class MBR: the slices of a partition table in the first sector of a provider (gpart(8)).
//!
//! An [`MbrMap`] is seen as the window of one slice. [`decode`] answers exactly the model's table (`mbr_table`) or the
//! first cause to decline it: `Signature`, `Protective`, `Nothing`. Read `table.rt`.
mod mbr_map;
mod table;

pub use geo_model::{MbrTable, Slice};
pub use mbr_map::MbrMap;
pub use table::decode;
