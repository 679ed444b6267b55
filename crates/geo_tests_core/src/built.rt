//! Meshes as the tests make them: geoms, providers, consumers and handles, of any configuration.
ghost use Rattle.std.specs.Prelude.{◌≡◌, false, true, Some, IfOk, OnOk};
ghost use Rattle.geo_model.specs.Demand.{is_zero, no_counts};
ghost use Rattle.geo_model.specs.Words.{is_granted_kind};
ghost use Rattle.geo_slots.specs.Slots.{value_at};
ghost use Rattle.geo_access.specs.Access.{IsCounted, IsHolder, IsQuiet};
ghost use Rattle.geo_tests_core.specs.Built.{ConsumersAreAttached, IsBuilt};

use geo_access::{GrantRefusal, Steps, grant};
use geo_base::{ConsId, Counts, GeomId, Kind, Name, ProvId};
use geo_mesh::Topo;
use std::alloc::Global;
use std::sync::ledger::Ledger;
use std::test::Fail;

const NO_COUNTS: Counts = Counts { r: 0, w: 0, e: 0 };

/// The name of these bytes.
pub fn name(bytes: &[u8]) -> Result<Name, Fail> {
    Ok(Name::new(bytes).ok().ok_or("not a name")?)
}

/// A mesh in which nothing was made yet.
pub fn first_mesh<C: Drop>(alloc: Global, dev: C, taste: C) -> Result<Topo<C>, Fail>
    ensures { IfOk result (λ topo. IsBuilt topo) }
{
    Ok(Topo::new(alloc, dev, taste)?)
}

/// A geom of the class, with this name.
pub fn geom_of<C: Drop>(
    topo: &mut Topo<C>,
    kind: Kind,
    name: Name,
    config: C,
) -> Result<GeomId, Fail>
    requires built { IsBuilt topo.old }
    requires other { is_granted_kind kind ≡ false }
    ensures { OnOk result (IsBuilt topo.new) }
{
    Ok(topo.new_geom(kind, name, config, false)?)
}

/// A provider of the geom, of a megabyte.
#[tactic(auto, using(crate::proofs::Building::provider_built))]
pub fn provider_of<C>(topo: &mut Topo<C>, geom: GeomId, name: Name) -> Result<ProvId, Fail>
    requires { IsBuilt topo.old }
    ensures { OnOk result (IsBuilt topo.new) }
{
    let good = topo.geom(geom).is_some() && geom.number() > 2;
    if !good || topo.is_withering(geom) || topo.is_name_taken(&name) {
        return Err(Fail::from("no provider may be made"));
    }
    Ok(topo.new_provider(geom, name, 1_048_576, 512)?)
}

/// A geom of the class with nothing below it, and its provider.
pub fn stand<C: Drop>(
    topo: &mut Topo<C>,
    kind: Kind,
    text: &[u8],
    config: C,
) -> Result<ProvId, Fail>
    requires built { IsBuilt topo.old }
    requires other { is_granted_kind kind ≡ false }
    ensures { OnOk result (IsBuilt topo.new) }
{
    let name = name(text)?;
    let geom = geom_of(topo, kind, name, config)?;
    provider_of(topo, geom, name)
}

/// A consumer of the geom, attached to the provider.
pub fn consumer_of<C>(topo: &mut Topo<C>, geom: GeomId, prov: ProvId) -> Result<ConsId, Fail>
    requires { IsBuilt topo.old }
    ensures { OnOk result (IsBuilt topo.new) }
{
    if topo.geom(geom).is_none() {
        return Err(Fail::from("no geom"));
    }
    let cons = topo.new_consumer(geom)?;
    let free = match topo.consumer(cons) {
        Some(consumer) => consumer.prov.is_none(),
        None => false,
    };
    if !free || topo.provider(prov).is_none() {
        return Err(Fail::from("not to be attached"));
    }
    match topo.attach(cons, prov) {
        Ok(()) => Ok(cons),
        Err(_) => Err(Fail::from("refused")),
    }
}

/// A new handle with these counts at the provider.
pub fn open<C, L: Ledger>(
    topo: &mut Topo<C>,
    prov: ProvId,
    add: Counts,
    steps: &mut Steps<L>,
) -> Result<Result<(), GrantRefusal>, Fail>
    requires built { IsBuilt topo.old }
    requires some { is_zero add ≡ false }
    ensures counted { OnOk result (IsCounted topo.new) }
    ensures attached { OnOk result (ConsumersAreAttached topo.new.topology) }
{
    let cons = consumer_of(topo, GeomId::new(1), prov)?;
    if !holds_nothing(topo, cons) {
        return Err(Fail::from("no new handle"));
    }
    Ok(grant(topo, cons, add, steps))
}

/// Whether the consumer is of DEV, is attached and has no counts.
pub fn holds_nothing<C>(topo: &Topo<C>, cons: ConsId) -> bool
    ensures holder { result ≡ true → IsHolder topo.now.topology cons }
    ensures nothing { result ≡ true → value_at topo.now.wants cons ≡ Some no_counts }
{
    match topo.consumer(cons) {
        Some(consumer) => {
            consumer.geom.number() == 1 && consumer.prov.is_some() && consumer.want == NO_COUNTS
        }
        None => false,
    }
}

/// Whether no write count is noted.
pub fn is_quiet<C>(topo: &Topo<C>) -> bool
    requires { IsCounted topo.now }
    ensures { result ≡ true → IsQuiet topo.now }
{
    topo.first_risen().is_none() && topo.first_fallen().is_none()
}
