//! The classes (geom(4)): where a provider of each lies below it, what it keeps in sectors, and what it asks for and
//! says when a provider is tasted; and all of them behind one enum.
//!
//! One folder a class has its map, its record or table, and their laws: [`nop`], [`label`], [`mbr`], [`ebr`],
//! [`concat`] and [`stripe`]. They share what stands beside the folders. [`AddressMap`] is the trait of all maps;
//! contracts see a map by its ghost members: its size (`media`), its sector size, where an offset lies (`spot`), and
//! the stretches of a range, each of which lies in one component (`stretches`). [`AddressMap::split`] is the model's
//! `cut` at the ends of these stretches. The laws of the trait say that pieces follow each other over the request
//! (`pieces_follow`), and that each of their bytes lies where the map says (`pieces_are_placed`). [`Window`] is the map
//! of a provider that lies in component 0 as a whole. A [`PieceList`] is seen as its pieces and its room. The heads and
//! fields of records ([`decode_head`], [`encode_head`]) and the entries of partition tables are exact; all their
//! numbers are little-endian.
//!
//! Contracts see a [`Config`] as the model's configuration, and a [`Taste`] as the model's taste. A [`Config`] keeps
//! the map of a concat or a stripe as soon as no place is free, and EBR's partitions in a box; that shows in no
//! contract.
//!
//! [`taste_where`] and [`judge`] answer exactly what the model says; a label of version 2 with another media size is
//! declined as `Media`. [`Config::split`] gives exactly the model's pieces of a range that its geom's map covers
//! (`Covers`). [`Config::flush`] and [`Config::consumers`] give what a FLUSH goes through, and the consumers of
//! pieces ([`laws::flushes_go_through`], [`laws::pieces_go_through`]). A provider whose offsets have places is
//! covered ([`laws::what_lies_is_covered`]), but that a stripe is as long as its provider is asked for beside
//! (`IsAsLong`).
//!
//! [`Config::component`], [`Config::components`], [`Config::filled`], [`Config::with_place`],
//! [`Config::joined_size`], [`Config::empty_concat`] and [`Config::empty_stripe`] are the model's.
//! [`Taste::weigh_back`] tells what is found in the sector that is back, for EBR with the links that were read. Where
//! nothing is found it leaves the taste that the model's step leaves ([`laws::tastes_follow`]). After `NoMemory`
//! nothing is changed.
//!
//! Why so: EBR's partitions stand in a box, since each geom has a configuration. A taste answers what is found and not
//! the verdict, which is as large as the largest shape. Decoders ask only for the bytes that they read, and no map for
//! whole sectors.
//!
//! geo_bio keeps lists of pieces, geo_taste and geo_moves make geoms by it, geo_moves splits requests and writes
//! records by it, and geo_state keeps the taste under way. Tests stand in geo_tests_low, class by class, and in
//! geo_tests_core. Read `src/address_map.rt`, `src/config.rt` and `src/verdict.rt` first.
#![tactic(auto)]

mod address_map;
mod assembly;
mod component;
pub mod concat;
mod config;
pub mod ebr;
mod entry;
mod field;
mod head;
pub mod label;
pub mod laws;
pub mod mbr;
pub mod nop;
mod piece_list;
mod places;
mod sizes;
mod split;
pub mod stripe;
mod taste;
mod verdict;
mod window;

pub use address_map::AddressMap;
pub use config::Config;
pub use geo_model::{Facts, Piece, Shape, Span, Stretch, Verdict};
pub use head::{decode_head, encode_head};
pub use piece_list::PieceList;
pub use sizes::{concat_size, stripe_size};
pub use split::Media;
pub use taste::{Asked, Taste};
pub use verdict::{judge, taste_where};
pub use window::Window;
