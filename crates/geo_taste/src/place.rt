//! A place of an assembly that a provider takes (geom(4)).
ghost use Rattle.std.specs.Prelude.{◌≡◌, ◌<◌, ◌≤◌, ◌+◌, [], length, true, false, IfOk, IfSome};
ghost use Rattle.geo_model.specs.Acceptance.{places_of};
ghost use Rattle.geo_model.specs.Topology.{providers_of};
ghost use Rattle.geo_taste.specs.Making.{both, AreBoth};
ghost use Rattle.geo_taste.specs.Members.{CanBeOffered, joined_name, last_plan, plan_for, plan_of, with_plan};
ghost use Rattle.geo_taste.specs.Standing.{CanStandOn, MayOffer};

use crate::member::Member;
use crate::names::free_joined_name;
use crate::offer::{Offer, is_provider_size, make_offer};
use crate::raise::attach_one;
use geo_base::{GeomId, NoMemory, ProvId};
use geo_class::Config;
use geo_event::EventQueue;
use geo_mesh::Topo;
use std::alloc::Global;

/// What a place that is taken comes to: the configuration in which it is filled, and the provider to be made where no
/// place is left.
#[derive(Debug, Drop)]
pub struct Plan {
    pub filled: Config,
    pub offer: Option<Offer>,
}

// The plan for a configuration in which each place is filled. None where no provider can be made.
fn last_plan(topo: &Topo<Config>, member: &Member, filled: Config, sector: u32) -> Option<Plan>
    ensures { result ≡ last_plan topo.now.topology filled
        (joined_name member.now.kind member.now.geom_name) sector }
{
    let size = filled.joined_size()?;
    let name = free_joined_name(topo, member.kind, &member.geom_name)?;
    if !is_provider_size(size, sector) {
        return None;
    }
    let offer = Some(Offer { name, size, sector });
    Some(Plan { filled, offer })
}

// The plan for a configuration in which the member's place was filled.
fn plan_for(topo: &Topo<Config>, member: &Member, filled: Config, sector: u32) -> Option<Plan>
    ensures { result ≡ plan_for topo.now.topology filled
        (joined_name member.now.kind member.now.geom_name) sector }
{
    if filled.is_whole() {
        last_plan(topo, member, filled, sector)
    } else {
        Some(Plan {
            filled,
            offer: None,
        })
    }
}

/// The plan for the next consumer to fill the member's place in a configuration, with a component of `size` bytes in
/// sectors of `sector`. None where the assembly would be complete, and no provider of it can be made.
pub fn place_plan(
    alloc: Global,
    topo: &Topo<Config>,
    size: u64,
    sector: u32,
    config: &Config,
    member: &Member,
) -> Result<Option<Plan>, NoMemory>
    requires { member.now.place < length (places_of config.now) }
    ensures { IfOk result (λ plan. plan ≡ plan_of topo.now.topology size sector config.now member.now.place
        (joined_name member.now.kind member.now.geom_name)) }
{
    let consumer = topo.coming_consumer();
    let Some(filled) = config.filled(alloc, member.place, consumer, size, sector)? else {
        return Ok(None);
    };
    Ok(plan_for(topo, member, filled, sector))
}

/// The provider takes its place in the geom, in room that was kept, and where the plan has a provider it is made and
/// offered for taste.
pub fn take_place(
    topo: &mut Topo<Config>,
    queue: &mut EventQueue,
    geom: GeomId,
    prov: ProvId,
    plan: Plan,
)
    requires consumers { 1 ≤ topo.old.room.consumers }
    requires providers { 1 ≤ topo.old.room.providers }
    requires spare { 1 ≤ queue.old.spare }
    requires may { MayOffer topo.old.topology geom }
    requires bare { providers_of topo.old.topology geom ≡ [] }
    requires stands { CanStandOn topo.old.topology prov }
    requires offer { IfSome plan.offer (CanBeOffered topo.old.topology) }
    ensures taken { AreBoth topo.new queue.new (with_plan (both topo.old queue.old) prov geom plan) }
    ensures spare { queue.old.spare ≤ queue.new.spare + 1 }
{
    attach_one(topo, geom, prov);
    let _ = topo.swap_config(geom, plan.filled);
    if let Some(offer) = plan.offer {
        make_offer(topo, queue, geom, &offer);
    }
}
