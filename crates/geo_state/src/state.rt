//! What the mesh is at one moment.

use crate::Traffic;
use geo_base::{BioId, GeomId, Name};
use geo_class::{Config, Taste};
use geo_event::EventQueue;
use geo_handles::Handles;
use geo_mesh::Topo;

/// A disk of the header: its sector size and its size in bytes, the geom that stands for it, withering or not, and
/// the request that is at it.
#[derive(Clone, Copy, Debug)]
pub struct DiskSeat {
    pub name: Name,
    pub sector: u32,
    pub size: u64,
    pub geom: Option<GeomId>,
    pub busy: Option<BioId>,
}

/// An actor's own requests: how many are out, and a number below which there is none.
#[derive(Clone, Copy, Debug)]
pub struct OwnBios {
    pub count: u64,
    pub low: u64,
}

/// What the mesh is at one moment. Its fields are open: what holds of them together is `Holds`.
#[derive(Drop)]
pub struct State {
    pub topo: Topo<Config>,
    pub queue: EventQueue,
    pub handles: Handles,
    pub traffic: Traffic,
    pub taste: Option<Taste>,
    /// The number of the taste's read while it is out.
    pub read: Option<BioId>,
    /// The disks in header order.
    pub disks: Vec<DiskSeat>,
    /// The actors in the plan's order.
    pub own: Vec<OwnBios>,
    /// How many providers there are.
    pub providers: u64,
}
