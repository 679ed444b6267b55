//! What no clause says: that there is memory, and access counts at a concrete type, in a diamond, in a tower and
//! where a concat grows.
ghost use Rattle.std.specs.Prelude.{◌≡◌, false, true, OnOk, IfOk, Some};
ghost use Rattle.geo_model.specs.Words.{is_granted_kind};
ghost use Rattle.geo_model.specs.Demand.{is_zero, no_counts};
ghost use Rattle.geo_slots.specs.Slots.{value_at};
ghost use Rattle.geo_access.specs.Access.{IsCounted, IsHolder, IsQuiet};
ghost use Rattle.geo_access.specs.Join.{IsLoose};
ghost use Rattle.geo_tests_core.specs.Built.{ConsumersAreAttached, IsBuilt};

use crate::built::{consumer_of, first_mesh, geom_of, is_quiet, name, open, provider_of, stand};
use crate::same::assert_same;
use geo_access::{JoinRefusal, Steps, could_grant, join};
use geo_base::{ConsId, Counts, Errno, GeomId, Kind, ProvId};
use geo_mesh::Topo;
use std::alloc::Global;
use std::marker::Brand;
use std::sync::ledger::{Blank, Ledger};
use std::test::Fail;

const ONE_READ: Counts = Counts { r: 1, w: 0, e: 0 };

const ONE_WRITE: Counts = Counts { r: 0, w: 1, e: 0 };

/// A concat over two providers, which may be one, and its provider.
pub fn concat(
    topo: &mut Topo<u8>,
    text: &[u8],
    first: ProvId,
    second: ProvId,
) -> Result<(GeomId, ProvId), Fail>
    requires { IsBuilt topo.old }
    ensures { OnOk result (IsBuilt topo.new) }
{
    let name = name(text)?;
    let geom = geom_of(topo, Kind::Concat, name, 7)?;
    consumer_of(topo, geom, first)?;
    consumer_of(topo, geom, second)?;
    let prov = provider_of(topo, geom, name)?;
    Ok((geom, prov))
}

// What a handle with these counts at the provider would be answered.
fn asked<L: Ledger>(
    topo: &mut Topo<u8>,
    prov: ProvId,
    add: Counts,
    steps: &mut Steps<L>,
) -> Result<Result<(), Errno>, Fail>
    requires { IsBuilt topo.old }
    ensures { topo.new ≡ topo.old }
{
    if topo.provider(prov).is_none() {
        return Err(Fail::from("no provider"));
    }
    Ok(could_grant(topo, prov, add, steps))
}

// A concat over a disk and a concat that stands on that same disk: what a handle that writes at it would be answered,
// and one that reads.
fn over_a_diamond<L: Ledger>(
    topo: &mut Topo<u8>,
    blank: Blank,
) -> Result<[Result<(), Errno>; 2], Fail>
    requires built { IsBuilt topo.old }
    requires name { blank.name ≡ L.name }
    requires parts { blank.parts ≡ L.parts }
    requires some { L.parts ≡ 1 }
{
    let mut steps: Steps<L> = Steps::new(blank);
    let foot = stand(topo, Kind::Disk, b"md0", 7)?;
    let side = stand(topo, Kind::Disk, b"md1", 7)?;
    let (_, middle) = concat(topo, b"middle", foot, side)?;
    let (_, top) = concat(topo, b"top", middle, foot)?;
    let writer = asked(topo, top, ONE_WRITE, &mut steps)?;
    Ok([writer, asked(topo, top, ONE_READ, &mut steps)?])
}

// The same in a new mesh.
fn diamond_answers(alloc: Global) -> Result<[Result<(), Errno>; 2], Fail> {
    let mut topo = first_mesh(alloc, 1, 2)?;
    let answer = over_a_diamond::<Brand>(&mut topo, Blank::new(1));
    drop(topo);
    answer
}

#[test]
fn a_diamond_is_read_and_not_written(rt: HostRuntime) -> Result<(), Fail> {
    let answers = diamond_answers(rt.alloc())?;
    assert_same(&rt, answers, [Err(Errno::EPERM), Ok(())]);
    Ok(())
}

// Concats of this number, each over the one below twice, the lowest over a disk: the disk's provider and the top's.
fn tower(topo: &mut Topo<u8>, height: u8) -> Result<(ProvId, ProvId), Fail>
    requires { IsBuilt topo.old }
    ensures { OnOk result (IsBuilt topo.new) }
{
    let foot = stand(topo, Kind::Disk, b"md0", 7)?;
    let mut top = foot;
    for storey in 0..height {
        let (_, prov) = concat(topo, &[b'c', 65 + storey % 26, 65 + storey / 26], top, top)?;
        top = prov;
    }
    Ok((foot, top))
}

// The counts of the disk below thirty such concats, once one reads at the top.
fn below_thirty<L: Ledger>(topo: &mut Topo<u8>, blank: Blank) -> Result<Option<Counts>, Fail>
    requires built { IsBuilt topo.old }
    requires name { blank.name ≡ L.name }
    requires parts { blank.parts ≡ L.parts }
    requires some { L.parts ≡ 1 }
{
    let mut steps: Steps<L> = Steps::new(blank);
    let (foot, top) = tower(topo, 30)?;
    if open(topo, top, ONE_READ, &mut steps)?.is_err() {
        return Err(Fail::from("refused"));
    }
    Ok(topo.provider(foot).map(|prov| prov.have))
}

// The same in a new mesh.
fn thirty_below(alloc: Global) -> Result<Option<Counts>, Fail> {
    let mut topo = first_mesh(alloc, 1, 2)?;
    let answer = below_thirty::<Brand>(&mut topo, Blank::new(1));
    drop(topo);
    answer
}

#[test]
fn a_reader_counts_once_for_each_way_down(rt: HostRuntime) -> Result<(), Fail> {
    let have = thirty_below(rt.alloc())?;
    assert_same(
        &rt,
        have,
        Some(Counts {
            r: 1_073_741_824,
            w: 0,
            e: 2_147_483_646,
        }),
    );
    Ok(())
}

// What a handle that reads at the top of 31 such concats would be answered.
fn above_thirty<L: Ledger>(topo: &mut Topo<u8>, blank: Blank) -> Result<Result<(), Errno>, Fail>
    requires built { IsBuilt topo.old }
    requires name { blank.name ≡ L.name }
    requires parts { blank.parts ≡ L.parts }
    requires some { L.parts ≡ 1 }
{
    let mut steps: Steps<L> = Steps::new(blank);
    let (_, top) = tower(topo, 31)?;
    asked(topo, top, ONE_READ, &mut steps)
}

// The same in a new mesh.
fn thirty_above(alloc: Global) -> Result<Result<(), Errno>, Fail> {
    let mut topo = first_mesh(alloc, 1, 2)?;
    let answer = above_thirty::<Brand>(&mut topo, Blank::new(1));
    drop(topo);
    answer
}

#[test]
fn one_storey_more_is_too_much(rt: HostRuntime) -> Result<(), Fail> {
    let answer = thirty_above(rt.alloc())?;
    assert_same(&rt, answer, Err(Errno::EOVERFLOW));
    Ok(())
}

// A new consumer of the geom joins the provider.
fn grow<L: Ledger>(
    topo: &mut Topo<u8>,
    geom: GeomId,
    prov: ProvId,
    steps: &mut Steps<L>,
) -> Result<Result<(), JoinRefusal>, Fail>
    requires counted { IsCounted topo.old }
    requires attached { ConsumersAreAttached topo.old.topology }
    ensures counted { IfOk result (λ r. OnOk r (IsCounted topo.new)) }
    ensures attached { IfOk result (λ r. OnOk r (ConsumersAreAttached topo.new.topology)) }
{
    if topo.geom(geom).is_none() || topo.provider(prov).is_none() || !is_quiet(topo) {
        return Err(Fail::from("not to grow"));
    }
    let cons = topo.new_consumer(geom)?;
    if !is_loose(topo, cons) || topo.provider(prov).is_none() {
        return Err(Fail::from("no new consumer"));
    }
    Ok(join(topo, cons, prov, steps))
}

// Whether the consumer is attached to nothing, and no request is out through it.
fn is_loose(topo: &Topo<u8>, cons: ConsId) -> bool
    ensures { result ≡ true → IsLoose topo.now cons }
{
    match topo.consumer(cons) {
        Some(consumer) => consumer.prov.is_none() && consumer.active == 0,
        None => false,
    }
}

// What a concat under a handle that reads is answered when it grows by another disk, and then by itself; and the
// counts of the disk.
fn growing<L: Ledger>(
    topo: &mut Topo<u8>,
    blank: Blank,
) -> Result<([Result<(), JoinRefusal>; 2], Option<Counts>), Fail>
    requires built { IsBuilt topo.old }
    requires name { blank.name ≡ L.name }
    requires parts { blank.parts ≡ L.parts }
    requires some { L.parts ≡ 1 }
{
    let mut steps: Steps<L> = Steps::new(blank);
    let foot = stand(topo, Kind::Disk, b"md0", 7)?;
    let side = stand(topo, Kind::Disk, b"md1", 7)?;
    let (geom, top) = concat(topo, b"top", foot, foot)?;
    if open(topo, top, ONE_READ, &mut steps)?.is_err() {
        return Err(Fail::from("refused"));
    }
    let joined = grow(topo, geom, side, &mut steps)?;
    if joined.is_err() {
        return Err(Fail::from("refused"));
    }
    let own = grow(topo, geom, top, &mut steps)?;
    Ok(([joined, own], topo.provider(side).map(|prov| prov.have)))
}

// The same in a new mesh.
fn grown(alloc: Global) -> Result<([Result<(), JoinRefusal>; 2], Option<Counts>), Fail> {
    let mut topo = first_mesh(alloc, 1, 2)?;
    let answer = growing::<Brand>(&mut topo, Blank::new(1));
    drop(topo);
    answer
}

#[test]
fn an_open_concat_grows(rt: HostRuntime) -> Result<(), Fail> {
    let (answers, have) = grown(rt.alloc())?;
    assert_same(&rt, answers, [Ok(()), Err(JoinRefusal::Eloop)]);
    assert_same(&rt, have, Some(Counts { r: 1, w: 0, e: 1 }));
    Ok(())
}
