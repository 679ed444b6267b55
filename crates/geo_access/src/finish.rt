//! The end of a walk: what was tried is kept or dropped, and nothing is left to try.
ghost use Rattle.std.specs.Prelude.{◌≡◌, ℕ, ◌+◌, fold, IsSome, Some};
ghost use Rattle.geo_base.specs.declared.request.Counts.{Counts};
ghost use Rattle.geo_model.specs.Topology.{geom_at, provider_at, consumers_of, providers_of};
ghost use Rattle.std.specs.Option.{option_map_or};
ghost use Rattle.geo_mesh.specs.Topo.{no_scratch, with_provider_scratch};
ghost use Rattle.geo_mesh.specs.Cells.{provider_seen};
ghost use Rattle.geo_access.specs.Views.{order_of, MayEnd, made_at, have_at, raise_want, raise_have, finish_provider, raise_wants, finish_geom};

use crate::counts::{NO_COUNTS, Way, shifted};
use crate::order::{Order, take};
use crate::walk::{consumer_of, provider_of};
use geo_base::{Counts, GeomId, ProvId};
use geo_mesh::{Scratch, Topo};

const NO_SCRATCH: Scratch = Scratch {
    mark: 0,
    trial: NO_COUNTS,
};

/// Ends the walk: with a way, what the geoms' consumers and providers gain or lose comes into their counts, and write
/// counts that left zero or came to it are noted.
pub fn finish<C>(topo: &mut Topo<C>, order: Order, keep: Option<Way>)
    requires { MayEnd topo.old order }
    ensures { topo.new ≡ fold (finish_geom keep) topo.old (order_of topo.old order) }
{
    let mut rest = order;
    while let Some(geom) = take(topo, &mut rest) {
        finish_geom(topo, geom, keep);
    }
}

// The same for the consumers and providers of one geom.
fn finish_geom<C>(topo: &mut Topo<C>, geom: GeomId, keep: Option<Way>)
    requires { IsSome (geom_at topo.old.topology geom) }
    ensures finished { topo.new ≡ finish_geom keep topo.old geom }
    ensures graph { topo.new.topology ≡ topo.old.topology }
{
    if let Some(way) = keep {
        let gain = topo.geom_scratch(geom).trial;
        raise_wants(topo, geom, way, gain);
    }
    finish_providers(topo, geom, keep);
    topo.set_geom_scratch(geom, NO_SCRATCH);
}

// Each consumer of the geom has what it gains.
fn raise_wants<C>(topo: &mut Topo<C>, geom: GeomId, way: Way, gain: Counts)
    ensures raised { topo.new ≡ fold (raise_want way gain) topo.old (consumers_of topo.old.topology geom) }
    ensures graph { topo.new.topology ≡ topo.old.topology }
{
    let mut from = 0;
    while let Some((id, cons)) = consumer_of(topo, geom, from) {
        topo.set_want(id, shifted(way, cons.want, gain));
        from = id.number() + 1;
    }
}

// Each provider of the geom has what it gains, where that is kept, and nothing is left to try.
fn finish_providers<C>(topo: &mut Topo<C>, geom: GeomId, keep: Option<Way>)
    ensures finished { topo.new ≡ fold (finish_provider keep) topo.old (providers_of topo.old.topology geom) }
    ensures graph { topo.new.topology ≡ topo.old.topology }
{
    let mut from = 0;
    while let Some((id, prov)) = provider_of(topo, geom, from) {
        finish_provider(topo, id, prov.have, keep);
        from = id.number() + 1;
    }
}

// The same for one of them.
fn finish_provider<C>(topo: &mut Topo<C>, prov: ProvId, have: Counts, keep: Option<Way>)
    requires lives { IsSome (provider_at topo.old.topology prov) }
    requires have { have ≡ have_at topo.old prov }
    ensures { topo.new ≡ with_provider_scratch (option_map_or (λ way. raise_have way topo.old prov) keep topo.old)
        prov no_scratch }
{
    if let Some(way) = keep {
        raise_have(topo, prov, way, have);
    }
    topo.set_provider_scratch(prov, NO_SCRATCH);
}

// The provider has what it gains, and a note.
fn raise_have<C>(topo: &mut Topo<C>, prov: ProvId, way: Way, have: Counts)
    requires lives { IsSome (provider_at topo.old.topology prov) }
    requires have { have ≡ have_at topo.old prov }
    ensures { topo.new ≡ raise_have way topo.old prov }
{
    let now = shifted(way, have, topo.provider_scratch(prov).trial);
    topo.set_have(prov, now);
    match way {
        Way::Rises => topo.set_noted(prov, have.w == 0 && now.w != 0, false),
        Way::Falls => topo.set_noted(prov, false, have.w != 0 && now.w == 0),
    }
}
