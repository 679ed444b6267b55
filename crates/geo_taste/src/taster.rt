//! The consumer of TASTE by which a provider is tasted: how it comes, reads and goes.
ghost use Rattle.std.specs.Prelude.{◌≡◌, ◌+◌, ◌≤◌, ◌^◌, ◌<◌, ◌==◌, [], true, false, not, Some, List, IfOk, OnOk, OnErr};
ghost use Rattle.geo_model.specs.declared.step.Event.{Event as EventValue};
ghost use Rattle.geo_model.specs.Bios.{read_back};
ghost use Rattle.geo_model.specs.Demand.{no_counts};
ghost use Rattle.geo_model.specs.Events.{is_not_tasted};
ghost use Rattle.geo_model.specs.Tasting.{read_sector};
ghost use Rattle.geo_model.specs.Topology.{consumers_of};
ghost use Rattle.geo_model.specs.World.{is_read_out};
ghost use Rattle.geo_slots.specs.Slots.{value_at};
ghost use Rattle.geo_mesh.specs.Topo.{IsButForRoom, without_consumer};
ghost use Rattle.geo_mesh.specs.Graph.{IsSoundGraph};
ghost use Rattle.geo_access.specs.Access.{IsCounted, IsHolder, IsPlaced, consumers_below, granted_by, place_of};
ghost use Rattle.geo_taste.specs.Taster.{IsSettled, IsTasteOf, first_taste, is_low, judging, makes, queued, with_granted, with_judged, with_taster};

use geo_access::{Steps, grant, release};
use geo_base::{ConsId, Counts, GeomId, Kind, NoMemory, ProvId, UNTASTED_RANK};
use geo_class::{Config, Taste};
use geo_mesh::{ProvRec, Topo};
use geo_model::{BioResult, Judged};
use std::sync::ledger::Ledger;

/// The number of TASTE.
const TASTE: u64 = 2;

/// What a taste is granted while its read is out.
const ONE_READ: Counts = Counts { r: 1, w: 0, e: 0 };

/// Whether a provider is to be tasted: it carries no error, its geom isn't withering and has a rank below 8, and nobody
/// writes it.
pub fn is_tasted<C>(topo: &Topo<C>, prov: ProvId) -> bool
    requires { IsCounted topo.now }
    ensures { result ≡ not (is_not_tasted (granted_by topo.now) topo.now.topology prov) }
{
    let Some(provider) = topo.provider(prov) else {
        return false;
    };
    if provider.errored {
        return false;
    }
    if is_written(provider) {
        return false;
    }
    is_low(topo, provider.geom)
}

/// A taste of a provider that is to be tasted begins, by a new consumer of TASTE that is attached to it (g_attach(9)).
/// No class is asked yet. After `NoMemory` nothing changed. The taste is that of the mesh where TASTE had no consumer.
pub fn begin(topo: &mut Topo<Config>, prov: ProvId) -> Result<Taste, NoMemory>
    requires settled { IsSettled topo.old }
    requires tasted { is_not_tasted (granted_by topo.old) topo.old.topology prov ≡ false }
    ensures taste { IfOk result (λ taste. taste ≡ first_taste prov topo.old.topology.next_consumer) }
    ensures added { OnOk result (IsButForRoom topo.new (with_taster topo.old prov)) }
    ensures same { OnErr result (IsButForRoom topo.new topo.old) }
    ensures settled { IsSettled topo.new }
    ensures tasting { consumers_of topo.old.topology 2 ≡ [] → IfOk result (IsTasteOf topo.new) }
{
    let geom = taste_geom(topo);
    let consumer = topo.new_consumer(geom)?;
    match topo.attach(consumer, prov) {
        Ok(()) => Ok(Taste::new(prov, consumer)),
        Err(_) => unreachable!(),
    }
}

/// The read of the taste is back: its result goes to the taste, which holds nothing from now on.
pub fn hand_back<L: Ledger>(
    taste: &mut Taste,
    topo: &mut Topo<Config>,
    got: BioResult,
    steps: &mut Steps<L>,
)
    requires settled { IsSettled topo.old }
    requires tasting { IsTasteOf topo.old taste.old }
    requires out { is_read_out taste.old.asked ≡ true }
    ensures taste { taste.new ≡ record taste.old { asked = read_back got taste.old.asked } }
    ensures topo { topo.new ≡ with_granted topo.old taste.old.consumer no_counts }
    ensures settled { IsSettled topo.new }
    ensures tasting { IsTasteOf topo.new taste.new }
    ensures bound { steps.new ≤ steps.old + consumers_below topo.old.topology taste.old.provider }
{
    let consumer = holder(topo, taste);
    release(topo, consumer, steps);
    taste.take_back(got);
}

/// The taste is over: its consumer is detached and destroyed (g_detach(9), g_destroy_consumer). Its read isn't out, so
/// it holds nothing.
pub fn abort(taste: Taste, topo: &mut Topo<Config>)
    requires settled { IsSettled topo.old }
    requires tasting { IsTasteOf topo.old taste }
    requires idle { is_read_out taste.asked ≡ false }
    requires none_out { value_at topo.old.active taste.consumer ≡ Some 0 }
    ensures gone { topo.new ≡ without_consumer topo.old taste.consumer }
    ensures settled { IsSettled topo.new }
{
    let consumer = holder(topo, &taste);
    topo.detach(consumer);
    topo.destroy_consumer(consumer);
}

/// The read of a sector is granted to the taste; a refused grant ends the class that is asked.
pub fn read_sector<L: Ledger>(
    taste: &mut Taste,
    topo: &mut Topo<Config>,
    kind: Kind,
    sector: u64,
    steps: &mut Steps<L>,
) -> Judged
    requires settled { IsSettled topo.old }
    requires tasting { IsTasteOf topo.old taste.old }
    requires idle { is_read_out taste.old.asked ≡ false }
    requires few { taste.old.reads < 2 ^ 63 }
    ensures judged { (events : List EventValue)
        → read_sector (granted_by topo.old) (queued topo.old events) taste.old kind sector
        ≡ judging topo.new events taste.new result }
    ensures topo { topo.new ≡ with_judged topo.old taste.old.consumer result }
    ensures settled { IsSettled topo.new }
    ensures tasting { IsTasteOf topo.new taste.new }
    ensures plain { makes result ≡ false }
    ensures bound { steps.new ≤ steps.old + consumers_below topo.old.topology taste.old.provider }
{
    let consumer = holder(topo, taste);
    match grant(topo, consumer, ONE_READ, steps) {
        Ok(()) => {
            taste.note_read(kind);
            Judged::Read { sector }
        }
        Err(_) => {
            taste.end_class();
            Judged::Next
        }
    }
}

// Whether somebody writes the provider.
fn is_written(provider: &ProvRec) -> bool
    ensures { result ≡ not (provider.now.have.w == 0) }
{
    provider.have.w != 0
}

// Whether the geom stands, isn't withering and has a rank below 8.
fn is_low<C>(topo: &Topo<C>, geom: GeomId) -> bool
    ensures { result ≡ is_low topo.now.topology geom }
{
    let Some(found) = topo.geom(geom) else {
        return false;
    };
    if found.withering {
        return false;
    }
    match topo.rank(geom) {
        Some(rank) => rank < UNTASTED_RANK,
        None => false,
    }
}

// Geom 2, the one of TASTE.
fn taste_geom<C>(topo: &Topo<C>) -> GeomId
    ensures number { result ≡ 2 }
    ensures sound { IsSoundGraph topo.now.topology }
{
    let geom = GeomId::new(TASTE);
    let _stands = topo.geom(geom).is_some();
    geom
}

// The taste's consumer, which holds what it is granted at the tasted provider.
fn holder(topo: &Topo<Config>, taste: &Taste) -> ConsId
    requires settled { IsSettled topo.now }
    requires tasting { IsTasteOf topo.now taste.now }
    ensures number { result ≡ taste.now.consumer }
    ensures holds { IsHolder topo.now.topology result }
    ensures place { place_of topo.now.topology result ≡ taste.now.provider }
    ensures placed { IsPlaced topo.now.topology }
    ensures sound { IsSoundGraph topo.now.topology }
{
    let consumer = taste.consumer();
    let _stands = topo.consumer(consumer).is_some();
    consumer
}
