//! The class CONCAT: providers one behind the other (gconcat(8)).
//!
//! A [`ConcatMap`] is seen as the sizes of its components and its sector size. [`ConcatMap::add`] puts a component
//! behind the others: each old offset keeps its place ([`places_stay`]), and each new one lies in the new component
//! ([`new_places_are_in_the_new_component`]).
//!
//! [`decode`] answers exactly the model's record or the first cause to decline it (`concat_record`). [`encode`]
//! leaves the record and zeros behind it. [`what_is_encoded_is_decoded`], where the place is one of 1 to 16 places.
//! Read `concat_map.rt` first.
mod concat_map;
mod growth;
mod record;

pub use concat_map::ConcatMap;
pub use geo_model::ConcatRecord;
pub use growth::{new_places_are_in_the_new_component, places_stay};
pub use record::{decode, encode, what_is_encoded_is_decoded};
