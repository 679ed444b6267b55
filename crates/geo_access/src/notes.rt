//! Notes of write counts that left zero or came to it.
ghost use Rattle.std.specs.Prelude.{◌≡◌};
ghost use Rattle.geo_mesh.specs.Graph.{IsSoundGraph};
ghost use Rattle.geo_access.specs.Access.{IsCounted, first_noted, is_noted, without_risen, without_fallen};

use geo_base::ProvId;
use geo_mesh::Topo;

/// The smallest number of a provider whose write count is noted to have left zero. The note is dropped; all else stays.
pub fn next_risen<C>(topo: &mut Topo<C>) -> Option<ProvId>
    requires { IsCounted topo.old }
    ensures first { result ≡ first_noted topo.old.risen }
    ensures dropped { topo.new ≡ without_risen topo.old result }
    ensures sound { IsSoundGraph topo.old.topology }
    ensures counted { IsCounted topo.new }
{
    let prov = topo.first_risen()?;
    let fallen = is_fallen(topo, prov);
    topo.set_noted(prov, false, fallen);
    Some(prov)
}

/// The smallest number of a provider whose write count is noted to have come to zero. The note is dropped; all else
/// stays.
pub fn next_fallen<C>(topo: &mut Topo<C>) -> Option<ProvId>
    requires { IsCounted topo.old }
    ensures first { result ≡ first_noted topo.old.fallen }
    ensures dropped { topo.new ≡ without_fallen topo.old result }
    ensures sound { IsSoundGraph topo.old.topology }
    ensures counted { IsCounted topo.new }
{
    let prov = topo.first_fallen()?;
    let risen = is_risen(topo, prov);
    topo.set_noted(prov, risen, false);
    Some(prov)
}

// Whether the provider is noted to have left zero.
fn is_risen<C>(topo: &Topo<C>, prov: ProvId) -> bool
    ensures { result ≡ is_noted topo.now.risen prov }
{
    match topo.provider(prov) {
        Some(provider) => provider.risen,
        None => false,
    }
}

// Whether the provider is noted to have come to zero.
fn is_fallen<C>(topo: &Topo<C>, prov: ProvId) -> bool
    ensures { result ≡ is_noted topo.now.fallen prov }
{
    match topo.provider(prov) {
        Some(provider) => provider.fallen,
        None => false,
    }
}
