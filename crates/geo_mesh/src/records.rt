//! What stands under the number of a geom, a provider or a consumer.
use geo_base::{Counts, GeomId, Kind, Name, ProvId};
use thiserror::Error;

/// A geom, an instance of a class (geom(4)). A geom that a taste made is automatic; `started` counts the requests that
/// it has started.
#[derive(Debug, Drop)]
pub struct GeomRec<C> {
    pub kind: Kind,
    pub name: Name,
    pub config: C,
    pub automatic: bool,
    pub withering: bool,
    pub started: u64,
}

/// A provider, the gate at which a geom offers service: its media size and its sector size in bytes, whether it carries
/// an error, its counts, and whether its write count left zero or reached zero (g_access(9)).
#[derive(Clone, Copy, Debug)]
pub struct ProvRec {
    pub geom: GeomId,
    pub name: Name,
    pub size: u64,
    pub sector: u32,
    pub errored: bool,
    pub have: Counts,
    pub risen: bool,
    pub fallen: bool,
}

/// A consumer, the back door through which a geom attaches to one provider: its counts, how many requests are out
/// through it, and whether it is marked as spoiled (g_attach(9), g_access(9)).
#[derive(Clone, Copy, Debug)]
pub struct ConsRec {
    pub geom: GeomId,
    pub prov: Option<ProvId>,
    pub want: Counts,
    pub active: u64,
    pub spoiled: bool,
}

/// Room for the walks of the access counts: a mark, and counts that are being tried.
#[derive(Clone, Copy, Debug, PartialEq, Eq)]
pub struct Scratch {
    pub mark: u64,
    pub trial: Counts,
}

/// Why a consumer isn't attached: the provider carries an error, the geom would reach itself, or a geom would get a
/// rank above 32 (g_attach(9)).
#[derive(Clone, Copy, Debug, PartialEq, Eq, Error)]
pub enum AttachRefusal {
    #[error("the provider carries an error")]
    Enxio,
    #[error("the geom would reach itself")]
    Eloop,
    #[error("a rank would be too great")]
    Edeep,
}

/// A geom, its rank, and the scratch beside it.
#[derive(Drop)]
pub struct GeomCell<C> {
    pub geom: GeomRec<C>,
    pub rank: u64,
    pub scratch: Scratch,
}

/// A provider, and the scratch beside it.
#[derive(Drop)]
pub struct ProvCell {
    pub provider: ProvRec,
    pub scratch: Scratch,
}

/// A consumer, and the scratch beside it.
#[derive(Drop)]
pub struct ConsCell {
    pub consumer: ConsRec,
    pub scratch: Scratch,
}
