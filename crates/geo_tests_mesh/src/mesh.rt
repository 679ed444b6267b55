//! What no clause says: that there is memory, the mesh at a concrete type, and a tower of geoms.
//!
//! Each test drops its mesh by a call. At the end of a scope or at a `?` the drop of each part of it would be written
//! out, and proved for minutes.
use crate::same::assert_same;
use geo_base::{ConsId, Counts, GeomId, Kind, Name, ProvId};
use geo_mesh::{AttachRefusal, Topo};
use std::alloc::Global;
use std::test::Fail;

const NO_COUNTS: Counts = Counts { r: 0, w: 0, e: 0 };

/// The mesh that stands at first.
pub fn first_mesh(alloc: Global) -> Result<Topo<u8>, Fail> {
    Ok(Topo::new(alloc, 1, 2)?)
}

// The name of these bytes.
fn name(bytes: &[u8]) -> Result<Name, Fail> {
    Ok(Name::new(bytes).ok().ok_or("not a name")?)
}

/// A NOP geom with a provider, both of this name.
pub fn geom_of(topo: &mut Topo<u8>, text: &[u8]) -> Result<(GeomId, ProvId), Fail> {
    let name = name(text)?;
    let geom = topo.new_geom(Kind::Nop, name, 7, false)?;
    let prov = provider_of(topo, geom, name)?;
    Ok((geom, prov))
}

// A provider of the geom, of a megabyte.
fn provider_of(topo: &mut Topo<u8>, geom: GeomId, name: Name) -> Result<ProvId, Fail> {
    let good = topo.geom(geom).is_some() && geom.number() > 2;
    if !good || topo.is_withering(geom) || topo.is_name_taken(&name) {
        return Err(Fail::from("no provider may be made"));
    }
    Ok(topo.new_provider(geom, name, 1_048_576, 512)?)
}

/// A consumer of the geom, attached to nothing.
pub fn consumer_of(topo: &mut Topo<u8>, geom: GeomId) -> Result<ConsId, Fail> {
    if topo.geom(geom).is_none() {
        return Err(Fail::from("no geom"));
    }
    Ok(topo.new_consumer(geom)?)
}

/// Attaches the consumer to the provider. None where it is attached, else why it is refused.
pub fn attach(
    topo: &mut Topo<u8>,
    cons: ConsId,
    prov: ProvId,
) -> Result<Option<AttachRefusal>, Fail> {
    let free = match topo.consumer(cons) {
        Some(consumer) => consumer.prov.is_none(),
        None => false,
    };
    if !free || topo.provider(prov).is_none() {
        return Err(Fail::from("not to be attached"));
    }
    Ok(topo.attach(cons, prov).err())
}

// A tower of NOP geoms of ranks 1 to `height`, each attached to the one below: its lowest consumer and its top
// provider.
fn tower(topo: &mut Topo<u8>, height: u8) -> Result<(ConsId, GeomId, ProvId), Fail> {
    let (_, mut below) = geom_of(topo, &[b'a'])?;
    let (mut top, upper) = geom_of(topo, &[b'b'])?;
    let foot = consumer_of(topo, top)?;
    if attach(topo, foot, below)?.is_some() {
        return Err(Fail::from("refused"));
    }
    below = upper;
    for storey in 2..height {
        let (geom, prov) = geom_of(topo, &[b'c', 65 + storey % 26, 65 + storey / 26])?;
        let cons = consumer_of(topo, geom)?;
        if attach(topo, cons, below)?.is_some() {
            return Err(Fail::from("refused"));
        }
        below = prov;
        top = geom;
    }
    Ok((foot, top, below))
}

// The provider gets an error.
fn fail(topo: &mut Topo<u8>, prov: ProvId) -> Result<(), Fail> {
    if topo.provider(prov).is_none() {
        return Err(Fail::from("no provider"));
    }
    topo.set_error(prov);
    Ok(())
}

/// Takes the consumer off its provider.
pub fn detach(topo: &mut Topo<u8>, cons: ConsId) -> Result<(), Fail> {
    let quiet = match topo.consumer(cons) {
        Some(consumer) => {
            consumer.prov.is_some() && consumer.want == NO_COUNTS && consumer.active == 0
        }
        None => false,
    };
    if !quiet {
        return Err(Fail::from("not to be detached"));
    }
    topo.detach(cons);
    Ok(())
}

// What attaching a geom to its own provider is answered, and then with an error at it.
fn own_provider(topo: &mut Topo<u8>) -> Result<[Option<AttachRefusal>; 2], Fail> {
    let (geom, prov) = geom_of(topo, b"ada0")?;
    let cons = consumer_of(topo, geom)?;
    let own = attach(topo, cons, prov)?;
    fail(topo, prov)?;
    Ok([own, attach(topo, cons, prov)?])
}

#[test]
fn a_geom_would_reach_itself(rt: HostRuntime) -> Result<(), Fail> {
    let mut topo = first_mesh(rt.alloc())?;
    let answers = own_provider(&mut topo);
    drop(topo);
    assert_same(
        &rt,
        answers?,
        [Some(AttachRefusal::Eloop), Some(AttachRefusal::Enxio)],
    );
    Ok(())
}

// The rank of the top of a tower of 31 geoms, before and after a detach at its foot; and that of no geom.
fn falling_tower(topo: &mut Topo<u8>) -> Result<[Option<u32>; 3], Fail> {
    let (foot, top, _) = tower(topo, 31)?;
    let whole = topo.rank(top);
    detach(topo, foot)?;
    Ok([whole, topo.rank(top), topo.rank(GeomId::new(99))])
}

#[test]
fn a_tower_falls_by_a_storey(rt: HostRuntime) -> Result<(), Fail> {
    let mut topo = first_mesh(rt.alloc())?;
    let ranks = falling_tower(&mut topo);
    drop(topo);
    assert_same(&rt, ranks?, [Some(31), Some(30), None]);
    Ok(())
}

// What attaching a geom, and then a handle, above a tower of 32 geoms is answered.
fn above_the_limit(topo: &mut Topo<u8>) -> Result<[Option<AttachRefusal>; 2], Fail> {
    let (_, _, upper) = tower(topo, 32)?;
    let (geom, _) = geom_of(topo, b"over")?;
    let cons = consumer_of(topo, geom)?;
    let refused = attach(topo, cons, upper)?;
    let handle = consumer_of(topo, GeomId::new(1))?;
    Ok([refused, attach(topo, handle, upper)?])
}

#[test]
fn rank_33_is_too_deep(rt: HostRuntime) -> Result<(), Fail> {
    let mut topo = first_mesh(rt.alloc())?;
    let answers = above_the_limit(&mut topo);
    let rank = topo.rank(GeomId::new(1));
    drop(topo);
    assert_same(&rt, answers?, [Some(AttachRefusal::Edeep), None]);
    assert_same(&rt, rank, Some(33));
    Ok(())
}

// Two providers of one name, of which the first gets an error, and then the second.
fn two_of_a_name(topo: &mut Topo<u8>) -> Result<(ProvId, [Option<ProvId>; 3]), Fail> {
    topo.reserve(2, 2, 2)?;
    let (_, first) = geom_of(topo, b"ada0")?;
    fail(topo, first)?;
    let (_, second) = geom_of(topo, b"ada0")?;
    let ada0 = name(b"ada0")?;
    let sound = topo.find(&ada0);
    fail(topo, second)?;
    Ok((
        second,
        [sound, topo.find(&ada0), topo.find(&name(b"ada1")?)],
    ))
}

#[test]
fn a_sound_provider_is_found_first(rt: HostRuntime) -> Result<(), Fail> {
    let mut topo = first_mesh(rt.alloc())?;
    let answer = two_of_a_name(&mut topo);
    drop(topo);
    let (second, found) = answer?;
    assert_same(&rt, found, [Some(second), Some(second), None]);
    Ok(())
}

// A provider with a handle, a geom and a handle: the geom's consumer, and what is found above, twice.
fn between_handles(topo: &mut Topo<u8>) -> Result<(ConsId, [Option<ConsId>; 2]), Fail> {
    let (_, prov) = geom_of(topo, b"ada0")?;
    let (over, _) = geom_of(topo, b"over")?;
    let first = consumer_of(topo, GeomId::new(1))?;
    let cons = consumer_of(topo, over)?;
    let second = consumer_of(topo, GeomId::new(1))?;
    attach(topo, first, prov)?;
    attach(topo, cons, prov)?;
    attach(topo, second, prov)?;
    Ok((
        cons,
        [
            topo.above(prov, 0),
            topo.above(prov, cons.number().saturating_add(1)),
        ],
    ))
}

#[test]
fn handles_are_not_above(rt: HostRuntime) -> Result<(), Fail> {
    let mut topo = first_mesh(rt.alloc())?;
    let answer = between_handles(&mut topo);
    drop(topo);
    let (cons, found) = answer?;
    assert_same(&rt, found, [Some(cons), None]);
    Ok(())
}

// Geoms of two classes and of one name: the second, and those of its class found from the first number on and behind
// it; then of a class without one; and TASTE by its name.
fn two_classes(topo: &mut Topo<u8>) -> Result<(GeomId, [Option<GeomId>; 4]), Fail> {
    let ada0 = name(b"ada0")?;
    let taste = name(b"taste")?;
    topo.new_geom(Kind::Disk, ada0, 7, false)?;
    let second = topo.new_geom(Kind::Mbr, ada0, 7, true)?;
    let found = topo.next_named(Kind::Mbr, &ada0, 0);
    let behind = topo.next_named(Kind::Mbr, &ada0, second.number().saturating_add(1));
    let none = topo.next_named(Kind::Ebr, &ada0, 0);
    Ok((
        second,
        [found, behind, none, topo.next_named(Kind::Taste, &taste, 0)],
    ))
}

#[test]
fn a_geom_is_found_by_class_and_name(rt: HostRuntime) -> Result<(), Fail> {
    let mut topo = first_mesh(rt.alloc())?;
    let answer = two_classes(&mut topo);
    drop(topo);
    let (second, found) = answer?;
    assert_same(&rt, found, [Some(second), None, None, Some(GeomId::new(2))]);
    Ok(())
}

// The geom withers.
fn wither(topo: &mut Topo<u8>, geom: GeomId) -> Result<(), Fail> {
    if topo.geom(geom).is_none() {
        return Err(Fail::from("no geom"));
    }
    topo.set_withering(geom);
    Ok(())
}

// Which geom can go: while a consumer is attached to the one provider of a withering geom, once it is detached, once it
// is attached again, and once its own geom withers too.
fn two_layers(topo: &mut Topo<u8>) -> Result<([GeomId; 2], [Option<GeomId>; 4]), Fail> {
    let (lower, prov) = geom_of(topo, b"ada0")?;
    let (upper, _) = geom_of(topo, b"over")?;
    let cons = consumer_of(topo, upper)?;
    attach(topo, cons, prov)?;
    wither(topo, lower)?;
    let held = topo.next_going(0);
    detach(topo, cons)?;
    let free = topo.next_going(0);
    attach(topo, cons, prov)?;
    let again = topo.next_going(0);
    wither(topo, upper)?;
    Ok(([lower, upper], [held, free, again, topo.next_going(0)]))
}

#[test]
fn a_geom_can_go_once_nothing_holds_it(rt: HostRuntime) -> Result<(), Fail> {
    let mut topo = first_mesh(rt.alloc())?;
    let answer = two_layers(&mut topo);
    drop(topo);
    let (geoms, found) = answer?;
    assert_same(&rt, found, [None, Some(geoms[0]), None, Some(geoms[1])]);
    Ok(())
}

// Which geom can go while the consumer has these counts.
fn going_with(topo: &mut Topo<u8>, cons: ConsId, want: Counts) -> Result<Option<GeomId>, Fail> {
    if topo.consumer(cons).is_none() {
        return Err(Fail::from("no consumer"));
    }
    topo.set_want(cons, want);
    Ok(topo.next_going(0))
}

// Which geom can go while a request is out through the consumer.
fn going_out(topo: &mut Topo<u8>, cons: ConsId) -> Result<Option<GeomId>, Fail> {
    let quiet = match topo.consumer(cons) {
        Some(consumer) => consumer.active == 0,
        None => false,
    };
    if !quiet {
        return Err(Fail::from("no quiet consumer"));
    }
    topo.note_active(cons);
    Ok(topo.next_going(0))
}

// Which geom can go once that request is back.
fn going_back(topo: &mut Topo<u8>, cons: ConsId) -> Result<Option<GeomId>, Fail> {
    let busy = match topo.consumer(cons) {
        Some(consumer) => consumer.active > 0,
        None => false,
    };
    if !busy {
        return Err(Fail::from("no busy consumer"));
    }
    topo.note_back(cons);
    Ok(topo.next_going(0))
}

// A withering geom of one consumer, and whether it can go: with a count, without one, with a request out, and with the
// request back.
fn one_consumer(topo: &mut Topo<u8>) -> Result<(GeomId, [Option<GeomId>; 4]), Fail> {
    let geom = topo.new_geom(Kind::Nop, name(b"over")?, 7, false)?;
    let cons = consumer_of(topo, geom)?;
    wither(topo, geom)?;
    let held = going_with(topo, cons, Counts { r: 1, w: 0, e: 0 })?;
    let free = going_with(topo, cons, NO_COUNTS)?;
    let out = going_out(topo, cons)?;
    Ok((geom, [held, free, out, going_back(topo, cons)?]))
}

#[test]
fn a_used_consumer_holds_its_geom(rt: HostRuntime) -> Result<(), Fail> {
    let mut topo = first_mesh(rt.alloc())?;
    let answer = one_consumer(&mut topo);
    drop(topo);
    let (geom, found) = answer?;
    assert_same(&rt, found, [None, Some(geom), None, Some(geom)]);
    Ok(())
}
