//! What a demand makes providers and consumers gain, from above to below.
ghost use Rattle.std.specs.Prelude.{◌≡◌, ℕ, ◌+◌, length, fold, All, IsSome, true};
ghost use Rattle.geo_model.specs.Topology.{geom_at, provider_at, consumers_of, providers_of};
ghost use Rattle.geo_model.specs.Demand.{no_counts};
ghost use Rattle.geo_access.specs.Views.{order_of, consumers_over, mark_at, made_at, weigh, gain_of, gain_at, give, hand, spread_from};

use crate::counts::{NO_COUNTS, Way, Weight, add, had, is_zero, made_of};
use crate::order::{Order, take};
use crate::steps::Steps;
use crate::walk::{consumer_of, provider_of};
use geo_base::{Counts, GeomId, ProvId};
use geo_mesh::{Scratch, Topo};
use std::sync::ledger::Ledger;

/// What each consumer of a geom in the order gains, and what each provider below.
pub fn spread<C, L: Ledger>(topo: &mut Topo<C>, order: Order, way: Way, steps: &mut Steps<L>)
    requires { All (λ x. IsSome (geom_at topo.old.topology x)) (order_of topo.old order) }
    ensures spread { topo.new ≡ fold (spread_from way) topo.old (order_of topo.old order) }
    ensures steps { steps.new ≡ steps.old + consumers_over topo.old.topology (order_of topo.old order) }
{
    let mut rest = order;
    while let Some(geom) = take(topo, &mut rest) {
        spread_from(topo, geom, way, steps);
    }
}

// What each consumer of the geom gains, and what each provider gains by that.
fn spread_from<C, L: Ledger>(topo: &mut Topo<C>, geom: GeomId, way: Way, steps: &mut Steps<L>)
    requires { IsSome (geom_at topo.old.topology geom) }
    ensures spread { topo.new ≡ spread_from way topo.old geom }
    ensures steps { steps.new ≡ steps.old + length (consumers_of topo.old.topology geom) }
    ensures graph { topo.new.topology ≡ topo.old.topology }
{
    let gain = gain_of(topo, geom, way);
    let mark = topo.geom_scratch(geom).mark;
    topo.set_geom_scratch(geom, Scratch { mark, trial: gain });
    hand_down(topo, geom, gain, steps);
}

// What each consumer of the geom gains by what its providers gain.
fn gain_of<C>(topo: &Topo<C>, geom: GeomId, way: Way) -> Counts
    ensures { result ≡ gain_of topo.now way geom }
{
    match topo.geom(geom) {
        Some(found) => made_of(found.kind, weight_of(topo, geom, way)),
        None => NO_COUNTS,
    }
}

// What the providers of the geom gain together, and whether none has a count without it.
fn weight_of<C>(topo: &Topo<C>, geom: GeomId, way: Way) -> Weight
    ensures { result
        ≡ fold (weigh topo.now way) (record { sum = no_counts; quiet = true }) (providers_of topo.now.topology geom) }
{
    let mut weight = Weight {
        sum: NO_COUNTS,
        quiet: true,
    };
    let mut from = 0;
    while let Some((id, prov)) = provider_of(topo, geom, from) {
        let gain = topo.provider_scratch(id).trial;
        weight = Weight {
            sum: add(weight.sum, gain),
            quiet: weight.quiet && is_zero(had(way, prov.have, gain)),
        };
        from = id.number() + 1;
    }
    weight
}

/// The provider gains so much more.
pub fn give<C>(topo: &mut Topo<C>, prov: ProvId, gain: Counts)
    requires { IsSome (provider_at topo.old.topology prov) }
    ensures { topo.new ≡ give gain topo.old prov }
{
    let trial = add(topo.provider_scratch(prov).trial, gain);
    topo.set_provider_scratch(prov, Scratch { mark: 0, trial });
}

// What each consumer of the geom gains goes to the provider to which it is attached.
fn hand_down<C, L: Ledger>(topo: &mut Topo<C>, geom: GeomId, gain: Counts, steps: &mut Steps<L>)
    ensures handed { topo.new ≡ fold (hand gain) topo.old (consumers_of topo.old.topology geom) }
    ensures steps { steps.new ≡ steps.old + length (consumers_of topo.old.topology geom) }
    ensures graph { topo.new.topology ≡ topo.old.topology }
{
    let mut from = 0;
    while let Some((id, cons)) = consumer_of(topo, geom, from) {
        steps.tick();
        if let Some(prov) = cons.prov {
            give(topo, prov, gain);
        }
        from = id.number() + 1;
    }
}
