//! A label that a class accepts.
ghost use Rattle.std.specs.Prelude.{◌≡◌, ◌+◌, ◌≤◌, IfOk, OnErr};
ghost use Rattle.geo_model.specs.Names.{label_name};
ghost use Rattle.geo_mesh.specs.Cells.{provider_seen};
ghost use Rattle.geo_taste.specs.Making.{both, AreBoth};
ghost use Rattle.geo_taste.specs.Accepting.{labelled, IsAccepted};
ghost use Rattle.geo_taste.specs.Accepts.{MakesSizes};
ghost use Rattle.geo_taste.specs.Standing.{CanStandOn};

use crate::names::free_label_name;
use crate::offer::{Offer, is_provider_size, make_offer};
use crate::raise::{NewGeom, raise};
use crate::shapes::Accepted;
use geo_base::{Kind, NoMemory, ProvId};
use geo_class::Config;
use geo_event::EventQueue;
use geo_mesh::{ProvRec, Topo};
use geo_model::LabelRecord;

/// Makes the LABEL geom over the provider, with a provider one sector smaller. It declines where the provider's name
/// isn't one or is taken. After `NoMemory` nothing changed.
pub fn accept_label(
    topo: &mut Topo<Config>,
    queue: &mut EventQueue,
    prov: ProvId,
    below: &ProvRec,
    found: &LabelRecord,
) -> Result<Accepted, NoMemory>
    requires stands { CanStandOn topo.old.topology prov }
    requires sector { below.now.sector ≤ below.now.size }
    ensures made { IfOk result (λ answer.
        let made = labelled (both topo.old queue.old) (provider_seen prov below.now) (label_name found.now.name) in
        IsAccepted answer topo.new queue.new (both topo.old queue.old) made (MakesSizes made)) }
    ensures same { OnErr result (AreBoth topo.new queue.new (both topo.old queue.old)) }
    ensures spare { queue.old.spare ≤ queue.new.spare + 1 }
{
    let size = below.size - u64::from(below.sector);
    let sector = below.sector;
    let Some(name) = free_label_name(topo, &found.name) else {
        return Ok(Accepted::Declined);
    };
    if !is_provider_size(size, sector) {
        return Ok(Accepted::Declined);
    }
    topo.reserve(1, 1, 1)?;
    queue.reserve(1)?;
    let geom = NewGeom {
        kind: Kind::Label,
        name: below.name,
        config: Config::label(Some(topo.coming_consumer())),
    };
    let id = raise(topo, geom, true, &[prov]);
    make_offer(topo, queue, id, &Offer { name, size, sector });
    Ok(Accepted::Made)
}
