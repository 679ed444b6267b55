//! The class EBR: the logical partitions of a chain of links, read sector by sector (gpart(8)).
//!
//! Contracts see a [`Chain`] as the number of the provider's sectors and the chain so far: its links, and the sector
//! of the next one. An [`EbrMap`] is seen as the window of one partition.
//!
//! [`Chain::feed`] answers exactly what the model says to the sector of the next link (`feed`): that it wants another
//! sector, that the chain is whole, or the first cause of a decline. So a chain read along its answers has exactly the
//! table of its media, which the model reads in the same way (`chain_table`). Each provider lies as the map of its
//! partition says ([`maps_are_the_models`]). A taste under way judges by it. Read `chain.rt` first.
mod chain;
mod ebr_map;
mod link;

pub use chain::{Chain, Link};
pub use ebr_map::{EbrMap, maps_are_the_models};
pub use geo_model::{EbrPart, EbrTable};
