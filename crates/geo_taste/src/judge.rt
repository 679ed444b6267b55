//! One step of a taste, up to what is made of the provider.
ghost use Rattle.std.specs.Prelude.{◌≡◌, ◌+◌, ◌≤◌, ◌<◌, ◌^◌, ℕ, true, length, IfSome};
ghost use Rattle.geo_base.specs.declared.kind.Kind.{Kind as KindValue};
ghost use Rattle.geo_base.specs.declared.request.Counts.{Counts as CountsValue};
ghost use Rattle.geo_model.specs.declared.step.BioResult.{BioResult as BioResultValue};
ghost use Rattle.geo_model.specs.Events.{QueuedTopology};
ghost use Rattle.geo_model.specs.Tasting.{facts_of};
ghost use Rattle.geo_model.specs.Topology.{Provider as ProviderValue};
ghost use Rattle.geo_model.specs.World.{Config as ConfigValue, ReadBack};
ghost use Rattle.geo_mesh.specs.Topo.{TopoView};
ghost use Rattle.geo_access.specs.Access.{consumers_below};
ghost use Rattle.geo_class.specs.Taste.{sector_back};
ghost use Rattle.geo_taste.specs.Saying.{IsReadTaken, IsSaid, IsSaidOn, is_plain, with_said};
ghost use Rattle.geo_taste.specs.Taster.{IsSettled, IsTasteOf};

use crate::ask::{facts, next_class};
use crate::taster::read_sector;
use geo_access::Steps;
use geo_class::{Asked, Config, Taste};
use geo_mesh::Topo;
use geo_model::{Facts, Judged, Shape};
use std::sync::ledger::Ledger;

/// What a step of a taste comes to before anything is made of the provider: what the step came to, or a shape that the
/// class accepts.
#[derive(Clone, Copy, Debug)]
pub enum Said {
    Came(Judged),
    Accepts(Shape),
}

/// The first that applies: the end, where the provider carries an error or is gone, or the taste's consumer is marked;
/// a result to judge, a sector to read, a class to ask.
pub fn say<L: Ledger>(taste: &mut Taste, topo: &mut Topo<Config>, steps: &mut Steps<L>) -> Said
    requires settled { IsSettled topo.old }
    requires tasting { IsTasteOf topo.old taste.old }
    requires few { taste.old.reads < 2 ^ 63 }
    requires sector { IfSome (sector_back taste.old.asked) (λ x. 512 ≤ length x.1) }
    ensures said { IsSaid topo.old taste.old topo.new taste.new result }
    ensures topo { topo.new ≡ with_said topo.old taste.old.consumer result }
    ensures settled { IsSettled topo.new }
    ensures tasting { IsTasteOf topo.new taste.new }
    ensures plain { is_plain result ≡ true }
    ensures bound { steps.new ≤ steps.old + consumers_below topo.old.topology taste.old.provider }
{
    match facts(topo, taste) {
        Some(facts) => say_on(taste, topo, &facts, steps),
        None => Said::Came(Judged::Ended),
    }
}

// The same of a taste that goes on.
fn say_on<L: Ledger>(
    taste: &mut Taste,
    topo: &mut Topo<Config>,
    facts: &Facts,
    steps: &mut Steps<L>,
) -> Said
    requires settled { IsSettled topo.old }
    requires tasting { IsTasteOf topo.old taste.old }
    requires few { taste.old.reads < 2 ^ 63 }
    requires sector { IfSome (sector_back taste.old.asked) (λ x. 512 ≤ length x.1) }
    ensures said { (p : ProviderValue) → facts.now ≡ facts_of topo.old.topology p
        → IsSaidOn topo.old taste.old p topo.new taste.new result }
    ensures topo { topo.new ≡ with_said topo.old taste.old.consumer result }
    ensures settled { IsSettled topo.new }
    ensures tasting { IsTasteOf topo.new taste.new }
    ensures plain { is_plain result ≡ true }
    ensures bound { steps.new ≤ steps.old + consumers_below topo.old.topology taste.old.provider }
{
    match taste.asked() {
        Asked::NoClass => Said::Came(next_class(taste, topo, facts, steps)),
        Asked::NextSector { kind, sector } => {
            let kind = *kind;
            let sector = *sector;
            Said::Came(read_sector(taste, topo, kind, sector, steps))
        }
        Asked::ReadOut { .. } => Said::Came(Judged::Next),
        Asked::ReadBack { .. } => take_result(taste, facts),
    }
}

// What becomes of the read that is back; a failed one is a decline.
fn take_result(taste: &mut Taste, facts: &Facts) -> Said
    requires { IfSome (sector_back taste.old.asked) (λ x. 512 ≤ length x.1) }
    ensures kept { (t : TopoView ConfigValue) (c : ℕ) → t ≡ with_said t c result }
    ensures taken { (granted : ℕ → CountsValue) (q : QueuedTopology ConfigValue) (p : ProviderValue) (kind : KindValue)
        (got : BioResultValue) → taste.old.asked ≡ ReadBack kind got → facts.now ≡ facts_of q.topology p
        → IsReadTaken granted q taste.old p kind got taste.new result }
    ensures tasting { (t : TopoView ConfigValue) (kind : KindValue) (got : BioResultValue)
        → taste.old.asked ≡ ReadBack kind got → IsTasteOf t taste.old → IsTasteOf t taste.new }
    ensures plain { is_plain result ≡ true }
{
    match taste.weigh_back(facts) {
        Some(shape) => Said::Accepts(shape),
        None => Said::Came(Judged::Next),
    }
}
