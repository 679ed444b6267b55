//! Laws of the address maps of a sound, steady and fitting mesh (geom(4)): what below a request is open, and how its
//! map goes down. There is no code: each contract is a law.
//!
//! A provider to which a bio goes has a count ([`live_is_open`]). Below an open provider each component is a consumer
//! at an open provider ([`open_goes_down`]), so all that bios use is open ([`used_goes_down`]). Where an offset lies,
//! and which disks are reached, is told by the providers below ([`map_goes_down`]). Where the leaves of each child
//! cover that child, together they cover the request ([`joined_covers`]).
//!
//! geo_laws_steps needs them to show that no step changes a map in use; so do the laws of rest, requests and the
//! elevator order. Read `specs/MapLaws.antt` first.
#![tactic(auto)]

ghost use Rattle.geo_laws_maps.specs.Covers.{JoinedCovers};
ghost use Rattle.geo_laws_maps.specs.MapLaws.{LiveIsOpen, MapGoesDown, OpenGoesDown, UsedGoesDown};

/// A provider to which a bio goes has a count.
#[tactic(auto, using(crate::proofs::Opened::live_is_open))]
pub fn live_is_open()
    ensures { LiveIsOpen }
{}

/// Below an open provider each component of its geom is a consumer of that geom at an open provider.
#[tactic(auto, using(crate::proofs::Opened::open_goes_down))]
pub fn open_goes_down()
    ensures { OpenGoesDown }
{}

/// So all that bios use is open, and closed downwards.
#[tactic(auto, using(crate::proofs::Opened::used_goes_down))]
pub fn used_goes_down()
    ensures { UsedGoesDown }
{}

/// Where an offset of an open provider lies, and which disks are reached from it, is told by the providers below.
#[tactic(auto, using(crate::proofs::Levels::map_goes_down))]
pub fn map_goes_down()
    ensures { MapGoesDown }
{}

/// Where the leaves of each child of a request cover that child, together they cover the request.
#[tactic(auto, using(crate::proofs::JoinedCovers::joined_covers))]
pub fn joined_covers()
    ensures { JoinedCovers }
{}
