//! A provider that is made and offered for taste.
ghost use Rattle.std.specs.Prelude.{◌≡◌, ◌+◌, ◌≤◌, true, false};
ghost use Rattle.geo_model.specs.Topology.{is_name_taken};
ghost use Rattle.geo_mesh.specs.Topo.{is_provider_size};
ghost use Rattle.geo_taste.specs.Making.{both, with_offer, AreBoth};
ghost use Rattle.geo_taste.specs.Standing.{MayOffer};

use geo_base::{GeomId, MAX_MEDIA_BYTES, Name, ProvId};
use geo_class::Config;
use geo_event::EventQueue;
use geo_mesh::Topo;
use geo_model::Event;

/// A provider to be made: its name, and its media size and sector size in bytes.
#[derive(Clone, Copy, Debug)]
pub struct Offer {
    pub name: Name,
    pub size: u64,
    pub sector: u32,
}

/// Whether a provider may have this media size and sector size, in bytes: a whole positive number of sectors of 512 or
/// 4,096, and at most 2^60.
pub fn is_provider_size(size: u64, sector: u32) -> bool
    ensures { result ≡ is_provider_size size sector }
{
    (sector == 512 || sector == 4096)
        && 1 <= size
        && size <= MAX_MEDIA_BYTES
        && size % u64::from(sector) == 0
}

/// Makes the provider of a geom and offers it for taste, in room that was kept (g_new_providerf, g_post_event(9)).
pub fn make_offer(topo: &mut Topo<Config>, queue: &mut EventQueue, geom: GeomId, offer: &Offer)
    requires room { 1 ≤ topo.old.room.providers }
    requires spare { 1 ≤ queue.old.spare }
    requires may { MayOffer topo.old.topology geom }
    requires size { is_provider_size offer.now.size offer.now.sector ≡ true }
    requires free { is_name_taken topo.old.topology offer.now.name ≡ false }
    ensures made { AreBoth topo.new queue.new
        (with_offer (both topo.old queue.old) geom offer.now.name offer.now.size offer.now.sector) }
    ensures room { topo.old.room.providers ≤ topo.new.room.providers + 1 }
    ensures spare { queue.old.spare ≤ queue.new.spare + 1 }
{
    let Ok(prov) = topo.new_provider(geom, offer.name, offer.size, offer.sector) else {
        unreachable!()
    };
    queue.post(Event::NewProvider(prov));
}
