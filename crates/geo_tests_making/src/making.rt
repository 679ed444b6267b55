//! What no clause says: that there is memory, and geoms at concrete names and sizes: a label, slices, partitions, and
//! assemblies whose places come in one order and in another.
//!
//! Each mesh is dropped by a call. At the end of a scope the drop of each part of it would be written out, and proved
//! for a minute.
ghost use Rattle.std.specs.Prelude.{◌≡◌, ◌<◌};
ghost use Rattle.geo_taste.specs.Accepts.{NamesAPlace};

use crate::same::assert_same;
use geo_base::{Kind, Name, ProvId};
use geo_class::Config;
use geo_event::EventQueue;
use geo_mesh::Topo;
use geo_model::{
    ConcatRecord, EbrPart, EbrTable, Event, LabelRecord, MbrTable, Shape, Slice, StripeRecord,
};
use geo_taste::{Accepted, NewGeom, Offer, accept, build};
use std::alloc::Global;
use std::test::Fail;

// The mesh and its events.
#[derive(Drop)]
struct Bench {
    alloc: Global,
    topo: Topo<Config>,
    queue: EventQueue,
}

// One in which nothing was made yet.
fn new_bench(alloc: Global) -> Result<Bench, Fail> {
    Ok(Bench {
        alloc,
        topo: Topo::new(alloc, Config::nothing(), Config::nothing())?,
        queue: EventQueue::new(alloc),
    })
}

// The name of these bytes.
fn name(bytes: &[u8]) -> Result<Name, Fail> {
    Ok(Name::new(bytes).ok().ok_or("not a name")?)
}

// A disk of a megabyte, and its provider; where it is coarse its sectors have 4,096 bytes, else 512.
fn disk(bench: &mut Bench, text: &[u8], coarse: bool) -> Result<ProvId, Fail> {
    let name = name(text)?;
    if bench.topo.is_name_taken(&name) {
        return Err(Fail::from("the name is taken"));
    }
    let offer = Offer {
        name,
        size: 1_048_576,
        sector: if coarse { 4096 } else { 512 },
    };
    let geom = NewGeom {
        kind: Kind::Disk,
        name,
        config: Config::disk(0),
    };
    build(&mut bench.topo, &mut bench.queue, geom, &[], &offer)?;
    Ok(bench.topo.find(&name).ok_or("no provider of the disk")?)
}

// The media size of the provider of the name, none where there is no such provider.
fn size_of(bench: &Bench, text: &[u8]) -> Result<Option<u64>, Fail> {
    let name = name(text)?;
    let Some(prov) = bench.topo.find(&name) else {
        return Ok(None);
    };
    Ok(bench.topo.provider(prov).map(|provider| provider.size))
}

// Whether a class that accepts the shape makes something of the provider.
fn makes(bench: &mut Bench, prov: ProvId, shape: &Shape) -> Result<bool, Fail>
    requires { NamesAPlace shape.now }
{
    let Some(below) = bench.topo.provider(prov) else {
        return Err(Fail::from("no provider"));
    };
    let geom = below.geom;
    if below.errored {
        return Err(Fail::from("a provider with an error"));
    }
    let rank = bench.topo.rank(geom).ok_or("no geom")?;
    if rank >= 32 {
        return Err(Fail::from("too high"));
    }
    let answer = accept(bench.alloc, &mut bench.topo, &mut bench.queue, prov, shape)?;
    Ok(answer == Accepted::Made)
}

// Whether the provider takes this place of two of the concat `big` with this identifier.
fn joins(bench: &mut Bench, prov: ProvId, id: u32, place: u16) -> Result<bool, Fail>
    requires { place < 2 }
{
    let found = ConcatRecord {
        name: name(b"big")?,
        id,
        place,
        count: 2,
    };
    makes(bench, prov, &Shape::Joined(found))
}

// Two disks take the places of a concat, the first one this place: the sizes of the whole before and after.
fn complete(bench: &mut Bench, first: u16) -> Result<[Option<u64>; 2], Fail>
    requires { first < 2 }
{
    let one = disk(bench, b"one", false)?;
    let two = disk(bench, b"two", false)?;
    joins(bench, one, 7, first)?;
    let before = size_of(bench, b"concat/big")?;
    joins(bench, two, 7, 1 - first)?;
    Ok([before, size_of(bench, b"concat/big")?])
}

// In a new mesh.
fn completed(alloc: Global, first: u16) -> Result<[Option<u64>; 2], Fail>
    requires { first < 2 }
{
    let mut bench = new_bench(alloc)?;
    let answer = complete(&mut bench, first);
    drop(bench);
    answer
}

#[test]
fn an_assembly_is_completed_place_by_place(rt: HostRuntime) -> Result<(), Fail> {
    assert_same(&rt, completed(rt.alloc(), 0)?, [None, Some(2_096_128)]);
    Ok(())
}

#[test]
fn an_assembly_is_completed_from_its_end(rt: HostRuntime) -> Result<(), Fail> {
    assert_same(&rt, completed(rt.alloc(), 1)?, [None, Some(2_096_128)]);
    Ok(())
}

// What a second provider is answered for a place that is filled, for that place of another assembly, and what one of
// other sectors is answered for the last place; and whether the whole stands then.
fn answers(bench: &mut Bench) -> Result<[bool; 4], Fail> {
    let one = disk(bench, b"one", false)?;
    let two = disk(bench, b"two", false)?;
    let coarse = disk(bench, b"coarse", true)?;
    joins(bench, one, 7, 0)?;
    let filled = joins(bench, two, 7, 0)?;
    let other = joins(bench, two, 8, 0)?;
    let sectors = joins(bench, coarse, 7, 1)?;
    Ok([
        filled,
        other,
        sectors,
        size_of(bench, b"concat/big")?.is_some(),
    ])
}

// In a new mesh.
fn answered(alloc: Global) -> Result<[bool; 4], Fail> {
    let mut bench = new_bench(alloc)?;
    let answer = answers(&mut bench);
    drop(bench);
    answer
}

#[test]
fn a_filled_place_and_other_sectors_are_declined(rt: HostRuntime) -> Result<(), Fail> {
    assert_same(&rt, answered(rt.alloc())?, [false, true, false, false]);
    Ok(())
}

// What each of four disks is answered that take the places of two concats of one name and two identifiers.
fn same_names(bench: &mut Bench) -> Result<[bool; 4], Fail> {
    let one = disk(bench, b"one", false)?;
    let two = disk(bench, b"two", false)?;
    let three = disk(bench, b"three", false)?;
    let four = disk(bench, b"four", false)?;
    Ok([
        joins(bench, one, 7, 0)?,
        joins(bench, two, 8, 0)?,
        joins(bench, three, 8, 1)?,
        joins(bench, four, 7, 1)?,
    ])
}

// In a new mesh.
fn named_alike(alloc: Global) -> Result<[bool; 4], Fail> {
    let mut bench = new_bench(alloc)?;
    let answer = same_names(&mut bench);
    drop(bench);
    answer
}

#[test]
fn the_second_whole_of_a_name_is_declined(rt: HostRuntime) -> Result<(), Fail> {
    assert_same(&rt, named_alike(rt.alloc())?, [true, true, true, false]);
    Ok(())
}

// The table of two slices, of 63 and of 100 sectors.
const TABLE: MbrTable = MbrTable {
    slices: [
        Some(Slice {
            first: 63,
            count: 63,
        }),
        None,
        Some(Slice {
            first: 200,
            count: 100,
        }),
        None,
    ],
};

// What a table is answered over a disk, and over one where another disk has the name of a slice; and the sizes of the
// slices.
fn slices(bench: &mut Bench) -> Result<(bool, bool, [Option<u64>; 4]), Fail> {
    let one = disk(bench, b"one", false)?;
    let two = disk(bench, b"two", false)?;
    disk(bench, b"twos3", false)?;
    let made = makes(bench, one, &Shape::Slices(TABLE))?;
    let taken = makes(bench, two, &Shape::Slices(TABLE))?;
    let sizes = [
        size_of(bench, b"ones1")?,
        size_of(bench, b"ones2")?,
        size_of(bench, b"ones3")?,
        size_of(bench, b"twos1")?,
    ];
    Ok((made, taken, sizes))
}

// In a new mesh.
fn sliced(alloc: Global) -> Result<(bool, bool, [Option<u64>; 4]), Fail> {
    let mut bench = new_bench(alloc)?;
    let answer = slices(&mut bench);
    drop(bench);
    answer
}

#[test]
fn a_taken_name_declines_the_whole_table(rt: HostRuntime) -> Result<(), Fail> {
    let (made, taken, sizes) = sliced(rt.alloc())?;
    assert!(rt; made);
    assert!(rt; !taken);
    assert_same(&rt, sizes, [Some(32_256), None, Some(51_200), None]);
    Ok(())
}

// A chain of three partitions, the second one of which has no link of its own.
fn chain() -> EbrTable {
    let mut parts = [None; 32];
    parts[0] = Some(EbrPart {
        first: 1,
        count: 10,
    });
    parts[1] = Some(EbrPart {
        first: 12,
        count: 20,
    });
    parts[11] = Some(EbrPart {
        first: 40,
        count: 30,
    });
    EbrTable { parts }
}

// The sizes of the partitions of a chain.
fn partitions(bench: &mut Bench) -> Result<[Option<u64>; 3], Fail> {
    let one = disk(bench, b"one", false)?;
    makes(bench, one, &Shape::Logical(chain()))?;
    Ok([
        size_of(bench, b"onel1")?,
        size_of(bench, b"onel2")?,
        size_of(bench, b"onel12")?,
    ])
}

// In a new mesh.
fn parted(alloc: Global) -> Result<[Option<u64>; 3], Fail> {
    let mut bench = new_bench(alloc)?;
    let answer = partitions(&mut bench);
    drop(bench);
    answer
}

#[test]
fn a_chain_has_its_partitions(rt: HostRuntime) -> Result<(), Fail> {
    assert_same(
        &rt,
        parted(rt.alloc())?,
        [Some(5_120), Some(10_240), Some(15_360)],
    );
    Ok(())
}

// What a table and a chain are answered over a disk whose name has 61 bytes, where only the twelfth partition would
// have one of 64, and a table over one whose name has 62.
fn long_names(bench: &mut Bench) -> Result<[bool; 3], Fail> {
    let fits = disk(bench, &[b'x'; 61], false)?;
    let long = disk(bench, &[b'y'; 62], false)?;
    Ok([
        makes(bench, fits, &Shape::Slices(TABLE))?,
        makes(bench, fits, &Shape::Logical(chain()))?,
        makes(bench, long, &Shape::Slices(TABLE))?,
    ])
}

// In a new mesh.
fn named_long(alloc: Global) -> Result<[bool; 3], Fail> {
    let mut bench = new_bench(alloc)?;
    let answer = long_names(&mut bench);
    drop(bench);
    answer
}

#[test]
fn a_name_that_is_too_long_declines_the_whole_table(rt: HostRuntime) -> Result<(), Fail> {
    assert_same(&rt, named_long(rt.alloc())?, [true, false, false]);
    Ok(())
}

// The size of a label over a disk, and what event waits beside the disk's.
fn label(bench: &mut Bench) -> Result<(Option<u64>, Option<Event>), Fail> {
    let one = disk(bench, b"one", false)?;
    if bench.queue.head().is_none() {
        return Err(Fail::from("the disk isn't offered"));
    }
    bench.queue.drop_head();
    let found = LabelRecord {
        name: name(b"vol")?,
        size: None,
    };
    makes(bench, one, &Shape::Named(found))?;
    Ok((size_of(bench, b"label/vol")?, bench.queue.head()))
}

// In a new mesh.
fn labelled(alloc: Global) -> Result<(Option<u64>, Option<Event>), Fail> {
    let mut bench = new_bench(alloc)?;
    let answer = label(&mut bench);
    drop(bench);
    answer
}

#[test]
fn a_label_is_offered_for_taste(rt: HostRuntime) -> Result<(), Fail> {
    let (size, head) = labelled(rt.alloc())?;
    assert_same(&rt, size, Some(1_048_064));
    assert!(rt; matches!(head, Some(Event::NewProvider(_))));
    Ok(())
}

// A disk of one sector, and its provider.
fn smallest(bench: &mut Bench) -> Result<ProvId, Fail> {
    let name = name(b"dot")?;
    if bench.topo.is_name_taken(&name) {
        return Err(Fail::from("the name is taken"));
    }
    let offer = Offer {
        name,
        size: 512,
        sector: 512,
    };
    let geom = NewGeom {
        kind: Kind::Disk,
        name,
        config: Config::disk(1),
    };
    build(&mut bench.topo, &mut bench.queue, geom, &[], &offer)?;
    Ok(bench.topo.find(&name).ok_or("no provider of the disk")?)
}

// What a label is answered over a disk of one sector, over another disk, and over a third one where the name
// is taken.
fn labels(bench: &mut Bench) -> Result<[bool; 3], Fail> {
    let dot = smallest(bench)?;
    let one = disk(bench, b"one", false)?;
    let two = disk(bench, b"two", true)?;
    let found = Shape::Named(LabelRecord {
        name: name(b"vol")?,
        size: None,
    });
    Ok([
        makes(bench, dot, &found)?,
        makes(bench, one, &found)?,
        makes(bench, two, &found)?,
    ])
}

// In a new mesh.
fn labels_tried(alloc: Global) -> Result<[bool; 3], Fail> {
    let mut bench = new_bench(alloc)?;
    let answer = labels(&mut bench);
    drop(bench);
    answer
}

#[test]
fn a_label_needs_a_sector_below_it_and_a_free_name(rt: HostRuntime) -> Result<(), Fail> {
    assert_same(&rt, labels_tried(rt.alloc())?, [false, true, false]);
    Ok(())
}

// The provider takes this place of two of the stripe `fast`.
fn strips(bench: &mut Bench, prov: ProvId, place: u16) -> Result<bool, Fail>
    requires { place < 2 }
{
    let found = StripeRecord {
        name: name(b"fast")?,
        id: 9,
        place,
        count: 2,
        stripe: 4096,
    };
    makes(bench, prov, &Shape::Striped(found))
}

// The size of a stripe of two disks.
fn stripe(bench: &mut Bench) -> Result<Option<u64>, Fail> {
    let one = disk(bench, b"one", false)?;
    let two = disk(bench, b"two", false)?;
    strips(bench, two, 1)?;
    strips(bench, one, 0)?;
    size_of(bench, b"stripe/fast")
}

// In a new mesh.
fn striped(alloc: Global) -> Result<Option<u64>, Fail> {
    let mut bench = new_bench(alloc)?;
    let answer = stripe(&mut bench);
    drop(bench);
    answer
}

#[test]
fn a_stripe_has_whole_strips(rt: HostRuntime) -> Result<(), Fail> {
    assert_same(&rt, striped(rt.alloc())?, Some(2_088_960));
    Ok(())
}
