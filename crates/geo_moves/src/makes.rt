//! Geoms that come with a provider of theirs (g_new_geomf, g_new_providerf).
ghost use Rattle.std.specs.Prelude.{◌≡◌, true, false, None, All, IfOk, OnOk, OnErr};
ghost use Rattle.geo_model.specs.Words.{is_granted_kind};
ghost use Rattle.geo_model.specs.Topology.{is_name_taken};
ghost use Rattle.geo_model.specs.Place.{disk_of};
ghost use Rattle.geo_mesh.specs.Topo.{is_provider_size};
ghost use Rattle.geo_moves.specs.Standing.{CanStandOn};
ghost use Rattle.geo_state.specs.Holds.{Holds};
ghost use Rattle.geo_state.specs.Steps.{SameWorld, Stands};
ghost use Rattle.geo_moves.specs.Makes.{HasGrown, IsBuilt};

use geo_base::{GeomId, NoMemory, ProvId};
use geo_state::{State, reserve_events};
use geo_taste::{NewGeom, Offer, build};

/// More providers than so many can't be counted.
const MOST: u64 = 0x1000_0000_0000_0000;

/// A geom over the providers, in order, that isn't automatic, and a provider of it, which is counted and offered for
/// taste. After `NoMemory` all is as before.
pub fn grow(
    state: &mut State,
    geom: NewGeom,
    below: &[ProvId],
    offer: &Offer,
) -> Result<GeomId, NoMemory>
    requires kept { Holds state.old }
    requires can_stand { All (CanStandOn state.old.topo.topology) below.now }
    requires size { is_provider_size offer.now.size offer.now.sector ≡ true }
    requires free { is_name_taken state.old.topo.topology offer.now.name ≡ false }
    ensures number { IfOk result (λ id. id ≡ state.old.topo.topology.next_geom) }
    ensures grown { OnOk result (HasGrown state.old state.new geom below.now offer.now) }
    ensures same { OnErr result (SameWorld state.old state.new) }
    ensures kept { OnErr result (Holds state.new) }
    ensures traffic { state.new.traffic ≡ state.old.traffic }
{
    if state.providers >= MOST {
        return Err(NoMemory);
    }
    reserve_events(state)?;
    let id = build(&mut state.topo, &mut state.queue, geom, below, offer)?;
    state.providers += 1;
    Ok(id)
}

/// A geom of no disk over the providers, as `grow` makes it.
pub fn make(
    state: &mut State,
    geom: NewGeom,
    below: &[ProvId],
    offer: &Offer,
) -> Result<(), NoMemory>
    requires stands { Stands state.old }
    requires kind { is_granted_kind geom.kind ≡ false }
    requires no_disk { disk_of geom.config ≡ None }
    requires can_stand { All (CanStandOn state.old.topo.topology) below.now }
    requires size { is_provider_size offer.now.size offer.now.sector ≡ true }
    requires free { is_name_taken state.old.topo.topology offer.now.name ≡ false }
    ensures made { OnOk result (IsBuilt state.old state.new geom below.now offer.now) }
    ensures same { OnErr result (SameWorld state.old state.new) }
    ensures kept { Holds state.new }
    ensures traffic { state.new.traffic ≡ state.old.traffic }
{
    grow(state, geom, below, offer)?;
    Ok(())
}
