//! Why a demand is refused.
use geo_base::{ConsId, ProvId};
use thiserror::Error;

/// Why counts aren't granted (g_access(9)): a provider reached downwards carries an error, a writer would stand beside
/// another's exclusive count, or a count would be too great.
#[derive(Clone, Copy, Debug, PartialEq, Eq, Error)]
pub enum GrantRefusal {
    #[error("a provider below carries an error")]
    Enxio {
        prov: ProvId,
    },
    #[error("a writer would stand beside another's exclusive count")]
    Eperm {
        prov: ProvId,
        writer: ConsId,
        exclusive: ConsId,
    },
    #[error("a count would be too great")]
    Eoverflow {
        prov: ProvId,
    },
}

/// Why a consumer doesn't join a provider (g_attach(9), g_access(9)): what refuses a demand, or its geom would reach
/// itself, or a geom would get a rank above 32.
#[derive(Clone, Copy, Debug, PartialEq, Eq, Error)]
pub enum JoinRefusal {
    #[error("a provider below carries an error")]
    Enxio {
        prov: ProvId,
    },
    #[error("the geom would reach itself")]
    Eloop,
    #[error("a rank would be too great")]
    Edeep,
    #[error("a writer would stand beside another's exclusive count")]
    Eperm {
        prov: ProvId,
        writer: ConsId,
        exclusive: ConsId,
    },
    #[error("a count would be too great")]
    Eoverflow {
        prov: ProvId,
    },
}
