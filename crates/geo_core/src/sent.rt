//! Where a bio goes that waits for its disk.
ghost use Rattle.std.specs.Prelude.{◌≡◌, ◌<◌, ◌^◌};
ghost use Rattle.geo_core.specs.Mesh.{world_of};
ghost use Rattle.geo_core.specs.Running.{seen, IsMesh};
ghost use Rattle.geo_core.specs.Sent.{spot_of};

use crate::running::Running;
use geo_base::BioId;
use geo_moves::{Spot, spot_in};

/// Where a bio goes that waits for its disk: Some exactly where it is Sent.
pub fn sent(running: &Running, bio: BioId) -> Option<Spot>
    requires { IsMesh running.now }
    ensures spot { result ≡ spot_of (world_of (seen running.now)) bio }
    ensures bound { (world_of (seen running.now)).next_bio < 2 ^ 64 }
{
    match running.state.traffic.get(bio) {
        Some(found) => spot_in(&running.state.topo, found),
        None => None,
    }
}
