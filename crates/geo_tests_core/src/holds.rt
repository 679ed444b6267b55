//! What no clause says: a handle that is asked for, opened and closed, the notes of the write count that left zero and
//! came to it, and a handle that is refused further down than at its provider.
ghost use Rattle.std.specs.Prelude.{◌≡◌, false, true, OnOk};
ghost use Rattle.geo_model.specs.Demand.{is_zero};
ghost use Rattle.geo_access.specs.Access.{IsCounted, IsHolder};
ghost use Rattle.geo_tests_core.specs.Built.{ConsumersAreAttached, IsBuilt};

use crate::access::concat;
use crate::built::{
    consumer_of, first_mesh, geom_of, holds_nothing, is_quiet, name, provider_of, stand,
};
use crate::same::assert_same;
use geo_access::{GrantRefusal, Steps, allowed, grant, next_fallen, next_risen, release};
use geo_base::{ConsId, Counts, GeomId, Kind, ProvId};
use geo_mesh::Topo;
use std::alloc::Global;
use std::marker::Brand;
use std::sync::ledger::{Blank, Ledger};
use std::test::Fail;

const ONE_READ: Counts = Counts { r: 1, w: 0, e: 0 };

const ONE_WRITE: Counts = Counts { r: 0, w: 1, e: 0 };

// What is told of a new handle: what holding its counts would be answered, and what it is answered.
type Answers = (Result<(), GrantRefusal>, Result<(), GrantRefusal>);

// A new handle at the provider, and what is told of it.
fn open<L: Ledger>(
    topo: &mut Topo<u8>,
    prov: ProvId,
    add: Counts,
    steps: &mut Steps<L>,
) -> Result<(ConsId, Answers), Fail>
    requires built { IsBuilt topo.old }
    requires some { is_zero add ≡ false }
    ensures counted { OnOk result (IsCounted topo.new) }
    ensures attached { OnOk result (ConsumersAreAttached topo.new.topology) }
{
    let cons = consumer_of(topo, GeomId::new(1), prov)?;
    if !holds_nothing(topo, cons) {
        return Err(Fail::from("no new handle"));
    }
    let may = allowed(topo, cons, add, steps);
    Ok((cons, (may, grant(topo, cons, add, steps))))
}

// Whether the consumer is of DEV and is attached.
fn is_holder(topo: &Topo<u8>, cons: ConsId) -> bool
    ensures { result ≡ true → IsHolder topo.now.topology cons }
{
    match topo.consumer(cons) {
        Some(consumer) => consumer.geom.number() == 1 && consumer.prov.is_some(),
        None => false,
    }
}

// The handle is closed, and its counts go.
fn close<L: Ledger>(topo: &mut Topo<u8>, cons: ConsId, steps: &mut Steps<L>) -> Result<(), Fail>
    requires counted { IsCounted topo.old }
    requires attached { ConsumersAreAttached topo.old.topology }
    ensures { OnOk result (IsCounted topo.new) }
{
    if !is_quiet(topo) || !is_holder(topo, cons) {
        return Err(Fail::from("no handle to close"));
    }
    release(topo, cons, steps);
    Ok(())
}

// The providers that are noted to have left zero: the first, and the next.
fn risen(topo: &mut Topo<u8>) -> [Option<ProvId>; 2]
    requires { IsCounted topo.old }
    ensures counted { IsCounted topo.new }
    ensures topology { topo.new.topology ≡ topo.old.topology }
{
    let first = next_risen(topo);
    [first, next_risen(topo)]
}

// The same of those that came to it.
fn fallen(topo: &mut Topo<u8>) -> [Option<ProvId>; 2]
    requires { IsCounted topo.old }
{
    let first = next_fallen(topo);
    [first, next_fallen(topo)]
}

// What is found where a handle writes, and is closed.
#[derive(Clone, Copy, Debug, PartialEq, Eq)]
struct Found {
    answers: Answers,
    risen: [Option<ProvId>; 2],
    fallen: [Option<ProvId>; 2],
    have: Option<Counts>,
}

// A handle that writes to the disk, and is closed.
fn written<L: Ledger>(topo: &mut Topo<u8>, blank: Blank) -> Result<(ProvId, Found), Fail>
    requires built { IsBuilt topo.old }
    requires name { blank.name ≡ L.name }
    requires parts { blank.parts ≡ L.parts }
    requires some { L.parts ≡ 1 }
{
    let mut steps: Steps<L> = Steps::new(blank);
    let foot = stand(topo, Kind::Disk, b"md0", 7)?;
    let (cons, answers) = open(topo, foot, ONE_WRITE, &mut steps)?;
    let risen = risen(topo);
    let have = topo.provider(foot).map(|prov| prov.have);
    close(topo, cons, &mut steps)?;
    let fallen = fallen(topo);
    let found = Found {
        answers,
        risen,
        fallen,
        have,
    };
    Ok((foot, found))
}

// The same in a new mesh.
fn first_written(alloc: Global) -> Result<(ProvId, Found), Fail> {
    let mut topo = first_mesh(alloc, 1, 2)?;
    let answer = written::<Brand>(&mut topo, Blank::new(1));
    drop(topo);
    answer
}

#[test]
fn a_write_count_that_leaves_zero_and_comes_to_it_is_noted_once(
    rt: HostRuntime,
) -> Result<(), Fail> {
    let (foot, found) = first_written(rt.alloc())?;
    let want = Found {
        answers: (Ok(()), Ok(())),
        risen: [Some(foot), None],
        fallen: [Some(foot), None],
        have: Some(ONE_WRITE),
    };
    assert_same(&rt, found, want);
    Ok(())
}

// A NOP over a provider, and its provider.
fn nop_over(topo: &mut Topo<u8>, text: &[u8], below: ProvId) -> Result<ProvId, Fail>
    requires { IsBuilt topo.old }
    ensures { OnOk result (IsBuilt topo.new) }
{
    let name = name(text)?;
    let geom = geom_of(topo, Kind::Nop, name, 7)?;
    consumer_of(topo, geom, below)?;
    provider_of(topo, geom, name)
}

// What a handle is answered at a concat over a disk and over the disk's NOP, and the disk.
fn over_both<L: Ledger>(
    topo: &mut Topo<u8>,
    add: Counts,
    blank: Blank,
) -> Result<(ProvId, Answers), Fail>
    requires built { IsBuilt topo.old }
    requires more { is_zero add ≡ false }
    requires name { blank.name ≡ L.name }
    requires parts { blank.parts ≡ L.parts }
    requires some { L.parts ≡ 1 }
{
    let mut steps: Steps<L> = Steps::new(blank);
    let foot = stand(topo, Kind::Disk, b"md0", 7)?;
    let nop = nop_over(topo, b"md0.nop", foot)?;
    let (_, top) = concat(topo, b"top", nop, foot)?;
    let (_, answers) = open(topo, top, add, &mut steps)?;
    Ok((foot, answers))
}

// The same in a new mesh.
fn first_over_both(alloc: Global, add: Counts) -> Result<(ProvId, Answers), Fail>
    requires { is_zero add ≡ false }
{
    let mut topo = first_mesh(alloc, 1, 2)?;
    let answer = over_both::<Brand>(&mut topo, add, Blank::new(1));
    drop(topo);
    answer
}

// The NOP writes to the disk, where the concat has an exclusive count.
fn against(foot: ProvId) -> Result<(), GrantRefusal> {
    Err(GrantRefusal::Eperm {
        prov: foot,
        writer: ConsId::new(1),
        exclusive: ConsId::new(3),
    })
}

#[test]
fn a_concat_over_a_disk_and_its_nop_is_read_and_not_written(rt: HostRuntime) -> Result<(), Fail> {
    let (_, answers) = first_over_both(rt.alloc(), ONE_READ)?;
    assert_same(&rt, answers, (Ok(()), Ok(())));
    let (foot, answers) = first_over_both(rt.alloc(), ONE_WRITE)?;
    assert_same(&rt, answers, (against(foot), against(foot)));
    Ok(())
}
