//! One whole step of a taste.
ghost use Rattle.std.specs.Prelude.{◌≡◌, ◌+◌, ◌≤◌, ◌<◌, ◌^◌, false, Some, length, IfOk, IfSome, IsSome, OnErr};
ghost use Rattle.geo_model.specs.Rank.{rank};
ghost use Rattle.geo_model.specs.Topology.{Provider as ProviderValue, provider_at};
ghost use Rattle.geo_model.specs.World.{is_read_out};
ghost use Rattle.geo_access.specs.Access.{consumers_below};
ghost use Rattle.geo_class.specs.Taste.{sector_back};
ghost use Rattle.geo_taste.specs.Accepts.{NamesAPlace};
ghost use Rattle.geo_taste.specs.Making.{AreBoth, both};
ghost use Rattle.geo_taste.specs.Going.{going};
ghost use Rattle.geo_taste.specs.Judging.{IsJudged, IsKnownAfter, IsTakenAs, MayJudge, judged_of};
ghost use Rattle.geo_taste.specs.Taster.{IsSettled, IsTasteOf};

use crate::judge::{Said, say};
use crate::{Accepted, accept};
use geo_access::Steps;
use geo_base::{MAX_LINKS, NoMemory, UNTASTED_RANK};
use geo_class::{Config, Taste};
use geo_event::EventQueue;
use geo_mesh::Topo;
use geo_model::{Judged, Shape};
use std::alloc::Global;
use std::sync::ledger::Ledger;

/// One step of a taste, the first that applies: the end, where the provider carries an error or is gone, or the taste's
/// consumer is marked; a result to judge, where what a class accepts is made of the provider; a sector to read, a class
/// to ask. After `NoMemory` nothing changed.
///
/// In a mesh that is sound, steady and fitting that is the model's step. In another one a class that accepts may
/// decline after all, where what would be made breaks the graph.
pub fn judge_step<L: Ledger>(
    alloc: Global,
    taste: &mut Taste,
    topo: &mut Topo<Config>,
    queue: &mut EventQueue,
    steps: &mut Steps<L>,
) -> Result<Judged, NoMemory>
    requires settled { IsSettled topo.old }
    requires tasting { IsTasteOf topo.old taste.old }
    requires few { taste.old.reads < 2 ^ 63 }
    requires sector { IfSome (sector_back taste.old.asked) (λ x. 512 ≤ length x.1) }
    requires low { IfSome (provider_at topo.old.topology taste.old.provider)
        (λ p. rank topo.old.topology p.geom < UNTASTED_RANK) }
    ensures judged { IfOk result (IsJudged (both topo.old queue.old) taste.old topo.new queue.new taste.new) }
    ensures same { OnErr result (AreBoth topo.new queue.new (both topo.old queue.old)) }
    ensures taste { OnErr result (taste.new ≡ taste.old) }
    ensures settled { IsKnownAfter result (MayJudge (both topo.old queue.old) taste.old) (IsSettled topo.new) }
    ensures tasting { IsKnownAfter result (MayJudge (both topo.old queue.old) taste.old)
        (IsTasteOf topo.new taste.new) }
    ensures spare { queue.old.spare ≤ queue.new.spare + MAX_LINKS }
    ensures bound { steps.new ≤ steps.old + consumers_below topo.old.topology taste.old.provider }
{
    match say(taste, topo, steps) {
        Said::Came(judged) => Ok(judged),
        Said::Accepts(shape) => take_shape(alloc, taste, topo, queue, &shape),
    }
}

// What the class accepts is made, if anything can be, and the class is done with.
fn take_shape(
    alloc: Global,
    taste: &mut Taste,
    topo: &mut Topo<Config>,
    queue: &mut EventQueue,
    shape: &Shape,
) -> Result<Judged, NoMemory>
    requires settled { IsSettled topo.old }
    requires tasting { IsTasteOf topo.old taste.old }
    requires idle { is_read_out taste.old.asked ≡ false }
    requires goes { IsSome (going topo.old.topology taste.old) }
    requires low { IfSome (provider_at topo.old.topology taste.old.provider)
        (λ p. rank topo.old.topology p.geom < UNTASTED_RANK) }
    requires place { NamesAPlace shape.now }
    ensures taken { IfOk result (λ j. (p : ProviderValue)
        → provider_at topo.old.topology taste.old.provider ≡ Some p
        → IsTakenAs (both topo.old queue.old) taste.old p shape.now topo.new queue.new taste.new j) }
    ensures same { OnErr result (AreBoth topo.new queue.new (both topo.old queue.old)) }
    ensures taste { OnErr result (taste.new ≡ taste.old) }
    ensures spare { queue.old.spare ≤ queue.new.spare + MAX_LINKS }
{
    let prov = taste.provider();
    let accepted = accept(alloc, topo, queue, prov, shape)?;
    taste.end_class();
    Ok(judged_of(accepted))
}

// What a step comes to where a class accepted.
fn judged_of(accepted: Accepted) -> Judged
    ensures { result ≡ judged_of accepted }
{
    match accepted {
        Accepted::Made => Judged::Made,
        Accepted::Declined => Judged::Next,
    }
}
