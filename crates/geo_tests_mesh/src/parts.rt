//! What no clause says: what is noted of a geom, a provider or a consumer stands there and nowhere else, and what was
//! made goes again.
ghost use Rattle.std.specs.Prelude.{◌≡◌, [], true};
ghost use Rattle.geo_model.specs.Topology.{attached_to, consumers_of, providers_of};

use crate::mesh::{attach, consumer_of, detach, first_mesh, geom_of};
use crate::same::assert_same;
use geo_base::{ConsId, Counts, GeomId, ProvId};
use geo_mesh::{Scratch, Topo};
use std::test::Fail;

const ONE_READ: Counts = Counts { r: 1, w: 0, e: 0 };

const CLEAR: Scratch = Scratch {
    mark: 0,
    trial: Counts { r: 0, w: 0, e: 0 },
};

const TRIED: Scratch = Scratch {
    mark: 5,
    trial: ONE_READ,
};

// A geom with a provider and a consumer.
#[derive(Clone, Copy)]
struct Part {
    geom: GeomId,
    prov: ProvId,
    user: ConsId,
}

fn part_in(topo: &mut Topo<u8>, name: &[u8]) -> Result<Part, Fail> {
    let (geom, prov) = geom_of(topo, name)?;
    let user = consumer_of(topo, geom)?;
    Ok(Part { geom, prov, user })
}

// Two of them.
fn pair_in(topo: &mut Topo<u8>) -> Result<(Part, Part), Fail> {
    let first = part_in(topo, b"ada0")?;
    let second = part_in(topo, b"ada1")?;
    Ok((first, second))
}

// The scratches of two geoms, once the first one's is set.
fn geom_scratches(
    topo: &mut Topo<u8>,
    first: GeomId,
    second: GeomId,
) -> Result<[Scratch; 2], Fail> {
    if topo.geom(first).is_none() || topo.geom(second).is_none() {
        return Err(Fail::from("no geom"));
    }
    topo.set_geom_scratch(first, TRIED);
    Ok([topo.geom_scratch(first), topo.geom_scratch(second)])
}

// The same of two providers.
fn provider_scratches(
    topo: &mut Topo<u8>,
    first: ProvId,
    second: ProvId,
) -> Result<[Scratch; 2], Fail> {
    if topo.provider(first).is_none() || topo.provider(second).is_none() {
        return Err(Fail::from("no provider"));
    }
    topo.set_provider_scratch(first, TRIED);
    Ok([topo.provider_scratch(first), topo.provider_scratch(second)])
}

// The same of two consumers.
fn consumer_scratches(
    topo: &mut Topo<u8>,
    first: ConsId,
    second: ConsId,
) -> Result<[Scratch; 2], Fail> {
    if topo.consumer(first).is_none() || topo.consumer(second).is_none() {
        return Err(Fail::from("no consumer"));
    }
    topo.set_consumer_scratch(first, TRIED);
    Ok([topo.consumer_scratch(first), topo.consumer_scratch(second)])
}

// All three.
fn scratches(topo: &mut Topo<u8>) -> Result<[[Scratch; 2]; 3], Fail> {
    let (first, second) = pair_in(topo)?;
    Ok([
        geom_scratches(topo, first.geom, second.geom)?,
        provider_scratches(topo, first.prov, second.prov)?,
        consumer_scratches(topo, first.user, second.user)?,
    ])
}

#[test]
fn a_scratch_is_of_one_part(rt: HostRuntime) -> Result<(), Fail> {
    let mut topo = first_mesh(rt.alloc())?;
    let found = scratches(&mut topo);
    drop(topo);
    assert_same(&rt, found?, [[TRIED, CLEAR]; 3]);
    Ok(())
}

// The counts and notes of a provider are set: its write count left zero.
fn note(topo: &mut Topo<u8>, prov: ProvId) -> Result<(), Fail> {
    if topo.provider(prov).is_none() {
        return Err(Fail::from("no provider"));
    }
    topo.set_have(prov, ONE_READ);
    if topo.provider(prov).is_none() {
        return Err(Fail::from("no provider any more"));
    }
    topo.set_noted(prov, true, false);
    Ok(())
}

// The counts of two providers, and the first that is noted to have left zero and to have come to it.
type Noted = ([Option<Counts>; 2], [Option<ProvId>; 2]);

fn noted(topo: &mut Topo<u8>) -> Result<(ProvId, Noted), Fail> {
    let (below, above) = pair_in(topo)?;
    let (first, second) = (below.prov, above.prov);
    note(topo, second)?;
    let haves = [
        topo.provider(first).map(|prov| prov.have),
        topo.provider(second).map(|prov| prov.have),
    ];
    Ok((second, (haves, [topo.first_risen(), topo.first_fallen()])))
}

#[test]
fn counts_and_notes_are_of_one_provider(rt: HostRuntime) -> Result<(), Fail> {
    let mut topo = first_mesh(rt.alloc())?;
    let found = noted(&mut topo);
    drop(topo);
    let (prov, (haves, notes)) = found?;
    assert_same(&rt, haves, [Some(CLEAR.trial), Some(ONE_READ)]);
    assert_same(&rt, notes, [Some(prov), None]);
    Ok(())
}

// Marks the first consumer, and tells which of the two are marked; and again once the mark is taken away.
fn marks(topo: &mut Topo<u8>) -> Result<[[Option<bool>; 2]; 2], Fail> {
    let (below, above) = pair_in(topo)?;
    let (first, second) = (below.user, above.user);
    mark(topo, first, true)?;
    let marked = marked_of(topo, first, second);
    mark(topo, first, false)?;
    Ok([marked, marked_of(topo, first, second)])
}

// The consumer is marked, or its mark is taken away.
fn mark(topo: &mut Topo<u8>, cons: ConsId, marked: bool) -> Result<(), Fail> {
    if topo.consumer(cons).is_none() {
        return Err(Fail::from("no consumer"));
    }
    topo.set_spoiled(cons, marked);
    Ok(())
}

// Which consumers are marked.
fn marked_of(topo: &Topo<u8>, first: ConsId, second: ConsId) -> [Option<bool>; 2] {
    [
        topo.consumer(first).map(|cons| cons.spoiled),
        topo.consumer(second).map(|cons| cons.spoiled),
    ]
}

#[test]
fn a_mark_is_of_one_consumer_and_goes(rt: HostRuntime) -> Result<(), Fail> {
    let mut topo = first_mesh(rt.alloc())?;
    let found = marks(&mut topo);
    drop(topo);
    assert_same(
        &rt,
        found?,
        [[Some(true), Some(false)], [Some(false), Some(false)]],
    );
    Ok(())
}

// Gives a geom another configuration, which had 7. The old one.
fn swap(topo: &mut Topo<u8>, geom: GeomId) -> Result<u8, Fail> {
    if topo.geom(geom).is_none() {
        return Err(Fail::from("no geom"));
    }
    Ok(topo.swap_config(geom, 9))
}

// The geom starts a request.
fn start(topo: &mut Topo<u8>, geom: GeomId) -> Result<(), Fail> {
    let few = match topo.geom(geom) {
        Some(found) => found.started < 100,
        None => false,
    };
    if !few {
        return Err(Fail::from("no geom"));
    }
    topo.note_started(geom);
    Ok(())
}

// The configuration of a geom, and how many requests it started.
fn seen_of(topo: &Topo<u8>, geom: GeomId) -> Option<(u8, u64)> {
    match topo.geom(geom) {
        Some(found) => Some((found.config, found.started)),
        None => None,
    }
}

// The first of two geoms gets another configuration and starts two requests: its old configuration, and both after it.
fn changed(topo: &mut Topo<u8>) -> Result<(u8, [Option<(u8, u64)>; 2]), Fail> {
    let (below, above) = pair_in(topo)?;
    let (first, second) = (below.geom, above.geom);
    let old = swap(topo, first)?;
    start(topo, first)?;
    start(topo, first)?;
    Ok((old, [seen_of(topo, first), seen_of(topo, second)]))
}

#[test]
fn a_geom_changes_alone(rt: HostRuntime) -> Result<(), Fail> {
    let mut topo = first_mesh(rt.alloc())?;
    let found = changed(&mut topo);
    drop(topo);
    assert_same(&rt, found?, (7, [Some((9, 2)), Some((7, 0))]));
    Ok(())
}

// A provider of a megabyte gets another one.
fn grow(topo: &mut Topo<u8>, prov: ProvId) -> Result<(), Fail> {
    let small = match topo.provider(prov) {
        Some(found) => found.size <= 1_048_576 && found.sector == 512,
        None => false,
    };
    if !small {
        return Err(Fail::from("no small provider"));
    }
    topo.set_size(prov, 2_097_152);
    Ok(())
}

// The sizes of two providers, of which the second grows.
fn grown(topo: &mut Topo<u8>) -> Result<[Option<u64>; 2], Fail> {
    let (below, above) = pair_in(topo)?;
    let (first, second) = (below.prov, above.prov);
    grow(topo, second)?;
    Ok([
        topo.provider(first).map(|prov| prov.size),
        topo.provider(second).map(|prov| prov.size),
    ])
}

#[test]
fn a_provider_grows_alone(rt: HostRuntime) -> Result<(), Fail> {
    let mut topo = first_mesh(rt.alloc())?;
    let found = grown(&mut topo);
    drop(topo);
    assert_same(&rt, found?, [Some(1_048_576), Some(2_097_152)]);
    Ok(())
}

// Whether nothing is attached to the provider.
#[tactic(auto, using(crate::proofs::Vacant::none_attached))]
fn is_unused(topo: &Topo<u8>, prov: ProvId) -> bool
    ensures { result ≡ true → attached_to topo.now.topology prov ≡ [] }
{
    match topo.attached_to(prov, 0) {
        Some(_) => false,
        None => true,
    }
}

// Whether the geom has no provider.
#[tactic(auto, using(crate::proofs::Vacant::none_offered))]
fn offers_nothing(topo: &Topo<u8>, geom: GeomId) -> bool
    ensures { result ≡ true → providers_of topo.now.topology geom ≡ [] }
{
    match topo.provider_of(geom, 0) {
        Some(_) => false,
        None => true,
    }
}

// Whether the geom has no consumer.
#[tactic(auto, using(crate::proofs::Vacant::none_owned))]
fn uses_nothing(topo: &Topo<u8>, geom: GeomId) -> bool
    ensures { result ≡ true → consumers_of topo.now.topology geom ≡ [] }
{
    match topo.consumer_of(geom, 0) {
        Some(_) => false,
        None => true,
    }
}

// Takes away a provider to which nothing is attached.
fn destroy_provider(topo: &mut Topo<u8>, prov: ProvId) -> Result<(), Fail> {
    if !is_unused(topo, prov) {
        return Err(Fail::from("a provider is used"));
    }
    topo.destroy_provider(prov);
    Ok(())
}

// Takes away a consumer that is attached to nothing.
fn destroy_consumer(topo: &mut Topo<u8>, cons: ConsId) -> Result<(), Fail> {
    let loose = match topo.consumer(cons) {
        Some(consumer) => consumer.prov.is_none(),
        None => false,
    };
    if !loose {
        return Err(Fail::from("a consumer is attached"));
    }
    topo.destroy_consumer(cons);
    Ok(())
}

// Takes away a geom that has neither.
fn destroy_geom(topo: &mut Topo<u8>, geom: GeomId) -> Result<(), Fail> {
    if geom.number() <= 2 || !offers_nothing(topo, geom) || !uses_nothing(topo, geom) {
        return Err(Fail::from("a geom has parts"));
    }
    topo.destroy_geom(geom);
    Ok(())
}

// The first parts from these numbers on: a geom other than DEV and TASTE, a provider, and a consumer.
type Firsts = (Option<GeomId>, Option<ProvId>, Option<ConsId>);

fn firsts(topo: &Topo<u8>) -> Firsts {
    (
        topo.next_geom(3),
        topo.next_provider(0),
        topo.next_consumer(0),
    )
}

// What comes first where that is this one.
fn firsts_of(part: &Part) -> Firsts {
    (Some(part.geom), Some(part.prov), Some(part.user))
}

// Attaches the consumer to the provider, and takes it off: what is attached before and after that, and what comes
// first before.
fn used_for_a_while(
    topo: &mut Topo<u8>,
    user: ConsId,
    prov: ProvId,
) -> Result<([Option<ConsId>; 2], Firsts), Fail> {
    attach(topo, user, prov)?;
    let used = topo.attached_to(prov, 0);
    let before = firsts(topo);
    detach(topo, user)?;
    Ok(([used, topo.attached_to(prov, 0)], before))
}

// Takes away the consumer and the provider of a geom, and the geom.
fn destroy(topo: &mut Topo<u8>, part: &Part) -> Result<(), Fail> {
    destroy_consumer(topo, part.user)?;
    destroy_provider(topo, part.prov)?;
    destroy_geom(topo, part.geom)
}

// What is attached to a provider, before and after, and what comes first.
type Found = ([Option<ConsId>; 2], [Firsts; 2]);

// The first of two geoms is attached to the provider of the second, and taken off; then all it has goes, and it goes.
// What is found, and what is wanted.
fn gone(topo: &mut Topo<u8>) -> Result<(Found, Found), Fail> {
    let (first, second) = pair_in(topo)?;
    let (attached, before) = used_for_a_while(topo, first.user, second.prov)?;
    destroy(topo, &first)?;
    let found = (attached, [before, firsts(topo)]);
    let attached = [Some(first.user), None];
    Ok((found, (attached, [firsts_of(&first), firsts_of(&second)])))
}

#[test]
fn what_was_made_goes_again(rt: HostRuntime) -> Result<(), Fail> {
    let mut topo = first_mesh(rt.alloc())?;
    let found = gone(&mut topo);
    drop(topo);
    let (found, want) = found?;
    assert_same(&rt, found, want);
    Ok(())
}
