//! The class LABEL: a provider under another name, one sector shorter, by a record in its last sector (glabel(8)).
//!
//! A [`LabelMap`] is seen as its window. [`decode`] answers exactly the model's record, of version 1 or 2, or the first
//! cause to decline it (`label_record`). [`encode`] leaves the record and zeros behind it (`label_sector`).
//! [`what_is_encoded_is_decoded`]. Read `record.rt`.
mod label_map;
mod record;

pub use geo_model::LabelRecord;
pub use label_map::LabelMap;
pub use record::{decode, encode, what_is_encoded_is_decoded};
