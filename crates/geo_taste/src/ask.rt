//! Which class is asked next, and whether the taste goes on at all.
ghost use Rattle.std.specs.Prelude.{◌≡◌, ◌+◌, ◌≤◌, ℕ, false, List, option_map};
ghost use Rattle.geo_model.specs.declared.step.Event.{Event as EventValue};
ghost use Rattle.geo_model.specs.Tasting.{ask_class, facts_of, next_class};
ghost use Rattle.std.specs.Option.{option_map_or};
ghost use Rattle.geo_model.specs.Topology.{Provider as ProviderValue, consumer_at};
ghost use Rattle.geo_model.specs.World.{Taste as TasteValue, is_read_out};
ghost use Rattle.geo_mesh.specs.Cells.{provider_seen};
ghost use Rattle.geo_access.specs.Access.{consumers_below, granted_by};
ghost use Rattle.geo_class.specs.Taste.{ended};
ghost use Rattle.geo_taste.specs.Going.{going};
ghost use Rattle.geo_taste.specs.Taster.{IsSettled, IsTasteOf, judging, makes, queued, with_judged};

use crate::over::is_attached;
use crate::taster::read_sector;
use geo_access::Steps;
use geo_base::Kind;
use geo_class::{Config, Taste, taste_where};
use geo_mesh::{ProvRec, Topo};
use geo_model::{Facts, Judged};
use std::sync::ledger::Ledger;

/// What the classes know of the tasted provider. None where the taste has ended: the provider carries an error or is
/// gone, or the taste's consumer is marked as spoiled.
pub fn facts(topo: &Topo<Config>, taste: &Taste) -> Option<Facts>
    ensures { result ≡ option_map (facts_of topo.now.topology) (going topo.now.topology taste.now) }
{
    let provider = topo.provider(taste.provider())?;
    if provider.errored {
        return None;
    }
    if is_spoiled(topo, taste) {
        return None;
    }
    Some(facts_of(topo, provider))
}

/// Asks the next class of those that are left; without one the taste ends.
pub fn next_class<L: Ledger>(
    taste: &mut Taste,
    topo: &mut Topo<Config>,
    facts: &Facts,
    steps: &mut Steps<L>,
) -> Judged
    requires settled { IsSettled topo.old }
    requires tasting { IsTasteOf topo.old taste.old }
    requires idle { is_read_out taste.old.asked ≡ false }
    ensures judged { (events : List EventValue) (p : ProviderValue) → facts.now ≡ facts_of topo.old.topology p
        → next_class (granted_by topo.old) (queued topo.old events) taste.old p taste.old.classes
        ≡ judging topo.new events taste.new result }
    ensures topo { topo.new ≡ with_judged topo.old taste.old.consumer result }
    ensures settled { IsSettled topo.new }
    ensures tasting { IsTasteOf topo.new taste.new }
    ensures plain { makes result ≡ false }
    ensures bound { steps.new ≤ steps.old + consumers_below topo.old.topology taste.old.provider }
{
    match taste.next_class() {
        Some(kind) => ask_class(taste, topo, kind, facts, steps),
        None => Judged::Ended,
    }
}

/// Asks a class: its first sector is read, unless it has a geom over the provider already or doesn't look at it.
fn ask_class<L: Ledger>(
    taste: &mut Taste,
    topo: &mut Topo<Config>,
    kind: Kind,
    facts: &Facts,
    steps: &mut Steps<L>,
) -> Judged
    requires settled { IsSettled topo.old }
    requires tasting { IsTasteOf topo.old taste.old }
    requires asked { taste.old ≡ ended taste.old }
    ensures judged { (events : List EventValue) (p : ProviderValue) (s : TasteValue)
        → facts.now ≡ facts_of topo.old.topology p → taste.old ≡ record (ended s) { classes = taste.old.classes }
        → ask_class (granted_by topo.old) (queued topo.old events) s p kind taste.old.classes
        ≡ judging topo.new events taste.new result }
    ensures topo { topo.new ≡ with_judged topo.old taste.old.consumer result }
    ensures settled { IsSettled topo.new }
    ensures tasting { IsTasteOf topo.new taste.new }
    ensures plain { makes result ≡ false }
    ensures bound { steps.new ≤ steps.old + consumers_below topo.old.topology taste.old.provider }
{
    if is_attached(topo, kind, taste.provider()) {
        return Judged::Next;
    }
    match taste_where(kind, facts) {
        Some(sector) => read_sector(taste, topo, kind, sector, steps),
        None => Judged::Next,
    }
}

// Whether the taste's consumer is marked as spoiled.
fn is_spoiled(topo: &Topo<Config>, taste: &Taste) -> bool
    ensures { result ≡ option_map_or (λ c. c.spoiled) (consumer_at topo.now.topology taste.now.consumer) false }
{
    match topo.consumer(taste.consumer()) {
        Some(consumer) => consumer.spoiled,
        None => false,
    }
}

// What the classes know of a provider.
fn facts_of(topo: &Topo<Config>, provider: &ProvRec) -> Facts
    requires { 1 ≤ provider.now.sector }
    ensures { (id : ℕ) → result ≡ facts_of topo.now.topology (provider_seen id provider.now) }
{
    let kind = match topo.geom(provider.geom) {
        Some(geom) => geom.kind,
        None => Kind::Disk,
    };
    Facts {
        kind,
        sector: provider.sector,
        sectors: provider.size / u64::from(provider.sector),
    }
}
