//! Whether a geom is in use.
ghost use Rattle.std.specs.Prelude.{◌≡◌};
ghost use Rattle.geo_model.specs.GeomCommands.{is_in_use};
ghost use Rattle.geo_access.specs.Access.{IsCounted, granted_by};

use geo_access::{is_zero, provider_of};
use geo_base::GeomId;
use geo_class::Config;
use geo_mesh::Topo;

/// Whether a provider of the geom has a count.
pub fn is_in_use(topo: &Topo<Config>, geom: GeomId) -> bool
    requires counted { IsCounted topo.now }
    ensures { result ≡ is_in_use (granted_by topo.now) topo.now.topology geom }
{
    let mut from = 0;
    while let Some((id, prov)) = provider_of(topo, geom, from) {
        if !is_zero(prov.have) {
            return true;
        }
        from = id.number() + 1;
    }
    false
}
