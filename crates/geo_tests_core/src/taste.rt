//! What no clause says: that there is memory, and whole tastes of media as they come from outside: tables that lie,
//! chains that lead back or too far, providers that go away under a taste.
ghost use Rattle.std.specs.Prelude.{◌≡◌, ◌<◌, ◌≤◌, false, true, Some, length, IfOk, IfSome, OnOk};
ghost use Rattle.geo_model.specs.Rank.{rank};
ghost use Rattle.geo_model.specs.Topology.{provider_at};
ghost use Rattle.geo_model.specs.Words.{is_granted_kind};
ghost use Rattle.geo_model.specs.World.{is_read_out};
ghost use Rattle.geo_class.specs.Taste.{asked_of, sector_back};
ghost use Rattle.geo_taste.specs.Taster.{IsSettled, IsTasteOf, makes};
ghost use Rattle.geo_tests_core.specs.Built.{IsBuilt};

use crate::built::{consumer_of, first_mesh, geom_of, is_quiet, name, open, stand};
use crate::media::{Medium, sector_of};
use crate::same::assert_same;
use geo_access::Steps;
use geo_base::{Block, Counts, Errno, GeomId, Kind, ProvId, SharedBytes, UNTASTED_RANK};
use geo_class::{Asked, Config, Taste};
use geo_event::EventQueue;
use geo_mesh::Topo;
use geo_model::{BioResult, Judged};
use geo_taste::{abort, begin, hand_back, is_tasted, judge_step};
use std::alloc::Global;
use std::marker::Brand;
use std::process::Abort;
use std::sync::ledger::{Blank, Ledger};
use std::test::Fail;

/// The greatest count of readers.
const MOST_READERS: Counts = Counts {
    r: 2_147_483_647,
    w: 0,
    e: 0,
};

/// Whether the provider's geom has a rank at which a class may accept, or the provider is gone.
fn is_low(topo: &Topo<Config>, prov: ProvId) -> bool
    ensures { result ≡ true → IfSome (provider_at topo.now.topology prov)
        (λ p. rank topo.now.topology p.geom < UNTASTED_RANK) }
{
    let Some(provider) = topo.provider(prov) else {
        return true;
    };
    match topo.rank(provider.geom) {
        Some(rank) => rank < 8,
        None => false,
    }
}

/// Whether the sector that is back, if one is, is whole.
fn is_whole(asked: &Asked) -> bool
    ensures { result ≡ true → IfSome (sector_back (asked_of asked.now)) (λ x. 512 ≤ length x.1) }
{
    match asked {
        Asked::ReadBack {
            got: BioResult::Bytes(block),
            ..
        } => block.len() >= 512,
        _ => true,
    }
}

/// One step of the taste.
fn step<L: Ledger>(
    alloc: Global,
    taste: &mut Taste,
    topo: &mut Topo<Config>,
    queue: &mut EventQueue,
    steps: &mut Steps<L>,
) -> Result<Judged, Fail>
    requires settled { IsSettled topo.old }
    requires tasting { IsTasteOf topo.old taste.old }
    ensures settled { IfOk result (λ j. makes j ≡ false → IsSettled topo.new) }
    ensures tasting { IfOk result (λ j. makes j ≡ false → IsTasteOf topo.new taste.new) }
{
    let few = taste.reads() < 1000;
    let whole = is_whole(taste.asked());
    let low = is_low(topo, taste.provider());
    if !few {
        return Err(Fail::from("too many reads"));
    }
    if !whole {
        return Err(Fail::from("a part of a sector"));
    }
    if !low {
        return Err(Fail::from("too high"));
    }
    Ok(judge_step(alloc, taste, topo, queue, steps)?)
}

/// The read of the taste is back with this result.
fn give<L: Ledger>(
    taste: &mut Taste,
    topo: &mut Topo<Config>,
    got: BioResult,
    steps: &mut Steps<L>,
) -> Result<(), Fail>
    requires settled { IsSettled topo.old }
    requires tasting { IsTasteOf topo.old taste.old }
    ensures settled { OnOk result (IsSettled topo.new) }
    ensures tasting { OnOk result (IsTasteOf topo.new taste.new) }
{
    if !taste.read_out() {
        return Err(Fail::from("no read is out"));
    }
    hand_back(taste, topo, got, steps);
    Ok(())
}

/// One step of the taste; a sector that it reads is back at once.
fn turn<L: Ledger>(
    alloc: Global,
    taste: &mut Taste,
    topo: &mut Topo<Config>,
    queue: &mut EventQueue,
    medium: Medium,
    steps: &mut Steps<L>,
) -> Result<Judged, Fail>
    requires settled { IsSettled topo.old }
    requires tasting { IsTasteOf topo.old taste.old }
    ensures settled { IfOk result (λ j. makes j ≡ false → IsSettled topo.new) }
    ensures tasting { IfOk result (λ j. makes j ≡ false → IsTasteOf topo.new taste.new) }
{
    let judged = step(alloc, taste, topo, queue, steps)?;
    match judged {
        Judged::Read { sector } => {
            let block = Block::from_slice(alloc, &sector_of(medium, sector))?;
            give(
                taste,
                topo,
                BioResult::Bytes(SharedBytes::from_block(block)),
                steps,
            )?;
            Ok(judged)
        }
        _ => Ok(judged),
    }
}

/// Steps until something is made, or the taste ends: whether something is, and how many sectors were read.
fn course<L: Ledger>(
    alloc: Global,
    taste: &mut Taste,
    topo: &mut Topo<Config>,
    medium: Medium,
    steps: &mut Steps<L>,
) -> Result<(bool, u32), Fail>
    requires settled { IsSettled topo.old }
    requires tasting { IsTasteOf topo.old taste.old }
{
    let mut queue = EventQueue::new(alloc);
    let mut reads = 0;
    for _ in 0..200u32 {
        match turn(alloc, taste, topo, &mut queue, medium, steps)? {
            Judged::Read { .. } => reads = u32::saturating_add(reads, 1),
            Judged::Next => {}
            Judged::Made => return Ok((true, reads)),
            Judged::Ended => return Ok((false, reads)),
        }
    }
    Err(Fail::from("it goes on and on"))
}

/// A taste of the provider begins.
fn begun(topo: &mut Topo<Config>, prov: ProvId) -> Result<Taste, Fail>
    requires { IsSettled topo.old }
    ensures settled { OnOk result (IsSettled topo.new) }
    ensures tasting { IfOk result (IsTasteOf topo.new) }
{
    if !is_tasted(topo, prov) {
        return Err(Fail::from("it isn't tasted"));
    }
    if topo.consumer_of(GeomId::new(2), 0).is_some() {
        return Err(Fail::from("another taste is under way"));
    }
    Ok(begin(topo, prov)?)
}

/// A whole taste of a provider that holds this: whether something is made of it, and how many sectors are read.
fn taste_of<L: Ledger>(
    alloc: Global,
    topo: &mut Topo<Config>,
    prov: ProvId,
    medium: Medium,
    steps: &mut Steps<L>,
) -> Result<(bool, u32), Fail>
    requires { IsSettled topo.old }
{
    let mut taste = begun(topo, prov)?;
    course(alloc, &mut taste, topo, medium, steps)
}

/// The same of a new provider of the class.
fn tasted<L: Ledger>(
    alloc: Global,
    topo: &mut Topo<Config>,
    kind: Kind,
    medium: Medium,
    blank: Blank,
) -> Result<(bool, u32), Fail>
    requires built { IsBuilt topo.old }
    requires other { is_granted_kind kind ≡ false }
    requires name { blank.name ≡ L.name }
    requires parts { blank.parts ≡ L.parts }
    requires some { L.parts ≡ 1 }
{
    let mut steps: Steps<L> = Steps::new(blank);
    let prov = stand(topo, kind, b"md0", Config::nothing())?;
    taste_of(alloc, topo, prov, medium, &mut steps)
}

/// The media size of the provider of the name, none where there is no such provider.
fn size_of(topo: &Topo<Config>, text: &[u8]) -> Result<Option<u64>, Fail> {
    let name = name(text)?;
    let Some(prov) = topo.find(&name) else {
        return Ok(None);
    };
    Ok(topo.provider(prov).map(|provider| provider.size))
}

/// What a taste made, how many sectors it read, and the size of the provider of this name after it.
fn found_in<L: Ledger>(
    alloc: Global,
    topo: &mut Topo<Config>,
    kind: Kind,
    medium: Medium,
    text: &[u8],
    blank: Blank,
) -> Result<(bool, u32, Option<u64>), Fail>
    requires built { IsBuilt topo.old }
    requires other { is_granted_kind kind ≡ false }
    requires name { blank.name ≡ L.name }
    requires parts { blank.parts ≡ L.parts }
    requires some { L.parts ≡ 1 }
{
    let (made, reads) = tasted::<L>(alloc, topo, kind, medium, blank)?;
    Ok((made, reads, size_of(topo, text)?))
}

/// The same in a new mesh.
fn found(
    alloc: Global,
    kind: Kind,
    medium: Medium,
    text: &[u8],
) -> Result<(bool, u32, Option<u64>), Fail>
    requires { is_granted_kind kind ≡ false }
{
    let mut topo = first_mesh(alloc, Config::nothing(), Config::nothing())?;
    let answer = found_in::<Brand>(alloc, &mut topo, kind, medium, text, Blank::new(1));
    drop(topo);
    answer
}

/// A disk that holds this table is tasted so.
fn table_gives(
    rt: &impl Abort,
    alloc: Global,
    entries: [(u8, u32, u32); 2],
    text: &[u8],
    want: (bool, u32, Option<u64>),
) -> Result<(), Fail> {
    let seen = found(alloc, Kind::Disk, Medium::Table(entries), text)?;
    assert_same(rt, seen, want);
    Ok(())
}

/// A slice that holds this chain is tasted so.
fn chain_gives(
    rt: &impl Abort,
    alloc: Global,
    links: u32,
    kind: u8,
    last: u32,
    text: &[u8],
    want: (bool, u32, Option<u64>),
) -> Result<(), Fail> {
    let medium = Medium::Chain { links, kind, last };
    let seen = found(alloc, Kind::Mbr, medium, text)?;
    assert_same(rt, seen, want);
    Ok(())
}

#[test]
fn a_blank_disk_is_read_once_by_each_class(rt: HostRuntime) -> Result<(), Fail> {
    let seen = found(rt.alloc(), Kind::Disk, Medium::Blank, b"md0s1")?;
    assert_same(&rt, seen, (false, 4, None));
    Ok(())
}

#[test]
fn a_table_has_its_slices(rt: HostRuntime) -> Result<(), Fail> {
    let slice = (true, 1, Some(51_200));
    table_gives(
        &rt,
        rt.alloc(),
        [(0xA5, 1, 63), (0x83, 64, 100)],
        b"md0s2",
        slice,
    )?;
    // entries that overlap
    let entries = [(0x83, 1, 100), (0x83, 50, 100)];
    table_gives(&rt, rt.alloc(), entries, b"md0s1", slice)?;
    table_gives(&rt, rt.alloc(), entries, b"md0s2", slice)
}

#[test]
fn a_protective_entry_and_entries_past_the_media_are_declined(rt: HostRuntime) -> Result<(), Fail> {
    let nothing = (false, 4, None);
    table_gives(
        &rt,
        rt.alloc(),
        [(0xEE, 1, 63), (0x83, 64, 100)],
        b"md0s2",
        nothing,
    )?;
    let entries = [(0x83, u32::MAX, u32::MAX), (0x83, 1, u32::MAX)];
    table_gives(&rt, rt.alloc(), entries, b"md0s1", nothing)
}

#[test]
fn a_chain_of_32_links_has_its_partitions_and_a_longer_one_none(
    rt: HostRuntime,
) -> Result<(), Fail> {
    chain_gives(&rt, rt.alloc(), 32, 5, 0, b"md0l32", (true, 32, Some(512)))?;
    chain_gives(&rt, rt.alloc(), 33, 5, 0, b"md0l1", (false, 35, None))
}

#[test]
fn a_chain_that_leads_back_or_has_another_type_is_declined(rt: HostRuntime) -> Result<(), Fail> {
    chain_gives(&rt, rt.alloc(), 3, 5, 2, b"md0l1", (false, 6, None))?;
    chain_gives(&rt, rt.alloc(), 2, 0x85, 0, b"md0l1", (false, 4, None))
}

/// A geom of the class stands over the provider.
fn stand_over(topo: &mut Topo<Config>, kind: Kind, prov: ProvId) -> Result<(), Fail>
    requires built { IsBuilt topo.old }
    requires other { is_granted_kind kind ≡ false }
    ensures { OnOk result (IsBuilt topo.new) }
{
    let name = name(b"md0")?;
    let geom = geom_of(topo, kind, name, Config::nothing())?;
    consumer_of(topo, geom, prov)?;
    Ok(())
}

/// A taste of a disk over which a geom of this class stands already.
fn over_one<L: Ledger>(
    alloc: Global,
    topo: &mut Topo<Config>,
    kind: Kind,
    blank: Blank,
) -> Result<(bool, u32), Fail>
    requires built { IsBuilt topo.old }
    requires other { is_granted_kind kind ≡ false }
    requires name { blank.name ≡ L.name }
    requires parts { blank.parts ≡ L.parts }
    requires some { L.parts ≡ 1 }
{
    let mut steps: Steps<L> = Steps::new(blank);
    let prov = stand(topo, Kind::Disk, b"md0", Config::nothing())?;
    stand_over(topo, kind, prov)?;
    taste_of(alloc, topo, prov, Medium::Blank, &mut steps)
}

/// The same in a new mesh.
fn passed(alloc: Global, kind: Kind) -> Result<(bool, u32), Fail>
    requires { is_granted_kind kind ≡ false }
{
    let mut topo = first_mesh(alloc, Config::nothing(), Config::nothing())?;
    let answer = over_one::<Brand>(alloc, &mut topo, kind, Blank::new(1));
    drop(topo);
    answer
}

#[test]
fn a_class_that_is_attached_is_passed_over(rt: HostRuntime) -> Result<(), Fail> {
    let table = passed(rt.alloc(), Kind::Mbr)?;
    let window = passed(rt.alloc(), Kind::Nop)?;
    assert_same(&rt, (table, window), ((false, 3), (false, 4)));
    Ok(())
}

/// As many handles read the provider as may.
fn crowd<L: Ledger>(topo: &mut Topo<Config>, prov: ProvId, steps: &mut Steps<L>) -> Result<(), Fail>
    requires { IsBuilt topo.old }
    ensures { OnOk result (IsSettled topo.new) }
{
    if open(topo, prov, MOST_READERS, steps)?.is_err() {
        return Err(Fail::from("refused"));
    }
    if is_quiet(topo) {
        Ok(())
    } else {
        Err(Fail::from("a note"))
    }
}

/// A taste of a disk that no one more may read.
fn over_crowd<L: Ledger>(
    alloc: Global,
    topo: &mut Topo<Config>,
    blank: Blank,
) -> Result<(bool, u32), Fail>
    requires built { IsBuilt topo.old }
    requires name { blank.name ≡ L.name }
    requires parts { blank.parts ≡ L.parts }
    requires some { L.parts ≡ 1 }
{
    let mut steps: Steps<L> = Steps::new(blank);
    let prov = stand(topo, Kind::Disk, b"md0", Config::nothing())?;
    crowd(topo, prov, &mut steps)?;
    taste_of(alloc, topo, prov, Medium::Blank, &mut steps)
}

/// The same in a new mesh.
fn crowded(alloc: Global) -> Result<(bool, u32), Fail> {
    let mut topo = first_mesh(alloc, Config::nothing(), Config::nothing())?;
    let answer = over_crowd::<Brand>(alloc, &mut topo, Blank::new(1));
    drop(topo);
    answer
}

#[test]
fn a_refused_read_ends_each_class(rt: HostRuntime) -> Result<(), Fail> {
    assert_same(&rt, crowded(rt.alloc())?, (false, 0));
    Ok(())
}

/// A part of a step: what is out comes back, or a step is made. Nothing is to be made.
fn half<L: Ledger>(
    alloc: Global,
    taste: &mut Taste,
    topo: &mut Topo<Config>,
    steps: &mut Steps<L>,
) -> Result<(), Fail>
    requires settled { IsSettled topo.old }
    requires tasting { IsTasteOf topo.old taste.old }
    ensures settled { OnOk result (IsSettled topo.new) }
    ensures tasting { OnOk result (IsTasteOf topo.new taste.new) }
{
    if taste.read_out() {
        let block = Block::zeros(alloc, 512)?;
        return give(
            taste,
            topo,
            BioResult::Bytes(SharedBytes::from_block(block)),
            steps,
        );
    }
    let mut queue = EventQueue::new(alloc);
    match step(alloc, taste, topo, &mut queue, steps)? {
        Judged::Read { .. } => Ok(()),
        Judged::Next => Ok(()),
        _ => Err(Fail::from("an early end")),
    }
}

/// So many of them.
fn halves<L: Ledger>(
    alloc: Global,
    taste: &mut Taste,
    topo: &mut Topo<Config>,
    parts: u32,
    steps: &mut Steps<L>,
) -> Result<(), Fail>
    requires settled { IsSettled topo.old }
    requires tasting { IsTasteOf topo.old taste.old }
    ensures settled { OnOk result (IsSettled topo.new) }
    ensures tasting { OnOk result (IsTasteOf topo.new taste.new) }
{
    for _ in 0..parts {
        half(alloc, taste, topo, steps)?;
    }
    Ok(())
}

/// The provider carries an error from now on.
fn fail_provider(taste: &Taste, topo: &mut Topo<Config>) -> Result<(), Fail>
    requires settled { IsSettled topo.old }
    requires tasting { IsTasteOf topo.old taste.now }
    ensures settled { OnOk result (IsSettled topo.new) }
    ensures tasting { OnOk result (IsTasteOf topo.new taste.now) }
{
    let prov = taste.provider();
    if topo.provider(prov).is_none() {
        return Err(Fail::from("no provider"));
    }
    topo.set_error(prov);
    Ok(())
}

/// The provider is pulled. What is out fails.
fn pull<L: Ledger>(
    taste: &mut Taste,
    topo: &mut Topo<Config>,
    steps: &mut Steps<L>,
) -> Result<(), Fail>
    requires settled { IsSettled topo.old }
    requires tasting { IsTasteOf topo.old taste.old }
    ensures settled { OnOk result (IsSettled topo.new) }
    ensures tasting { OnOk result (IsTasteOf topo.new taste.new) }
{
    fail_provider(taste, topo)?;
    if taste.read_out() {
        return give(taste, topo, BioResult::Failed(Errno::ENXIO), steps);
    }
    Ok(())
}

/// The last step of a taste, whose provider carries an error.
fn last_step<L: Ledger>(
    alloc: Global,
    taste: &mut Taste,
    topo: &mut Topo<Config>,
    steps: &mut Steps<L>,
) -> Result<(), Fail>
    requires settled { IsSettled topo.old }
    requires tasting { IsTasteOf topo.old taste.old }
    ensures settled { OnOk result (IsSettled topo.new) }
    ensures tasting { OnOk result (IsTasteOf topo.new taste.new) }
{
    let mut queue = EventQueue::new(alloc);
    match step(alloc, taste, topo, &mut queue, steps)? {
        Judged::Ended => Ok(()),
        _ => Err(Fail::from("it goes on")),
    }
}

/// The provider is pulled after so many parts of the steps of its taste, and the taste ends then.
fn pull_after<L: Ledger>(
    alloc: Global,
    taste: &mut Taste,
    topo: &mut Topo<Config>,
    parts: u32,
    steps: &mut Steps<L>,
) -> Result<(), Fail>
    requires settled { IsSettled topo.old }
    requires tasting { IsTasteOf topo.old taste.old }
    ensures settled { OnOk result (IsSettled topo.new) }
    ensures tasting { OnOk result (IsTasteOf topo.new taste.new) }
{
    halves(alloc, taste, topo, parts, steps)?;
    pull(taste, topo, steps)?;
    last_step(alloc, taste, topo, steps)
}

/// The taste is over: whether its consumer is gone.
fn over(taste: Taste, topo: &mut Topo<Config>) -> Result<bool, Fail>
    requires settled { IsSettled topo.old }
    requires tasting { IsTasteOf topo.old taste }
{
    let cons = taste.consumer();
    let quiet = match topo.consumer(cons) {
        Some(consumer) => consumer.active == 0,
        None => false,
    };
    if taste.read_out() {
        return Err(Fail::from("the read is out"));
    }
    if !quiet {
        return Err(Fail::from("a request is out"));
    }
    abort(taste, topo);
    Ok(topo.consumer(cons).is_none())
}

/// A taste of the provider, which is pulled after so many parts of its steps: whether the taste's consumer goes.
fn cut_short<L: Ledger>(
    alloc: Global,
    topo: &mut Topo<Config>,
    prov: ProvId,
    parts: u32,
    steps: &mut Steps<L>,
) -> Result<bool, Fail>
    requires { IsSettled topo.old }
{
    let mut taste = begun(topo, prov)?;
    pull_after(alloc, &mut taste, topo, parts, steps)?;
    over(taste, topo)
}

/// The same of a new disk.
fn disk_cut_short<L: Ledger>(
    alloc: Global,
    topo: &mut Topo<Config>,
    parts: u32,
    blank: Blank,
) -> Result<bool, Fail>
    requires built { IsBuilt topo.old }
    requires name { blank.name ≡ L.name }
    requires parts { blank.parts ≡ L.parts }
    requires some { L.parts ≡ 1 }
{
    let mut steps: Steps<L> = Steps::new(blank);
    let prov = stand(topo, Kind::Disk, b"md0", Config::nothing())?;
    cut_short(alloc, topo, prov, parts, &mut steps)
}

/// The same in a new mesh.
fn pulled(alloc: Global, parts: u32) -> Result<bool, Fail> {
    let mut topo = first_mesh(alloc, Config::nothing(), Config::nothing())?;
    let answer = disk_cut_short::<Brand>(alloc, &mut topo, parts, Blank::new(1));
    drop(topo);
    answer
}

#[test]
fn a_taste_ends_whenever_its_disk_is_pulled(rt: HostRuntime) -> Result<(), Fail> {
    for parts in 0..14u32 {
        assert!(rt; pulled(rt.alloc(), parts)?);
    }
    Ok(())
}
