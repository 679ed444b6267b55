//! What no clause says: sectors from outside are taken, and there is memory.
ghost use Rattle.std.specs.Prelude.{◌≡◌, ◌≤◌, [], ◌∷◌, None, Some, length, IfOk};
ghost use Rattle.geo_model.specs.World.{Concat};

use crate::media::table_of;
use crate::same::assert_same;
use geo_base::{Block, ConsId, DeclineCause, Kind, Name, ProvId, SharedBytes};
use geo_class::{Asked, Config, Media, Taste, judge, taste_where};
use geo_model::{BioResult, ConcatRecord, Facts, Shape, Span, Verdict};
use std::alloc::Global;
use std::process::Abort;
use std::test::Fail;

/// Of a provider of a disk, or of a slice, with so many sectors of 512 bytes.
fn facts_of(kind: Kind, sectors: u64) -> Facts {
    Facts {
        kind,
        sector: 512,
        sectors,
    }
}

/// A label of version 2 of the volume `vol`, whose media has 3,584 bytes.
fn sized_label() -> [u8; 512] {
    let mut sector = [0u8; 512];
    sector[..23].copy_from_slice(b"RGEOM::LABEL\0\0\0\0\x02\0\0\0vol");
    sector[37] = 0x0E;
    sector
}

#[test]
fn a_slice_of_a_table(rt: HostRuntime) {
    let facts = facts_of(Kind::Disk, 64);
    assert_same(&rt, taste_where(Kind::Mbr, &facts), Some(0));
    assert_same(&rt, taste_where(Kind::Ebr, &facts), None);
    let sector = table_of([(5, 1, 63), (0, 0, 0)]);
    let Verdict::Accept(Shape::Slices(table)) = judge(Kind::Mbr, &sector, &facts) else {
        panic!(rt; "no table")
    };
    assert!(rt; table.slices[1].is_none());
    let config = Config::mbr(Some(ConsId::new(7)), table.slices);
    assert_same(&rt, config.component(0), Some(ConsId::new(7)));
    assert_same(&rt, config.component(1), None);
    assert_same(&rt, config.disk_of(), None);
}

#[test]
fn a_label_of_its_media_alone(rt: HostRuntime) {
    let facts = facts_of(Kind::Disk, 7);
    assert_same(&rt, taste_where(Kind::Label, &facts), Some(6));
    let Verdict::Accept(Shape::Named(found)) = judge(Kind::Label, &sized_label(), &facts) else {
        panic!(rt; "no label")
    };
    assert_same(&rt, found.name.bytes(), b"vol".as_slice());
    let longer = facts_of(Kind::Disk, 8);
    let Verdict::Decline(cause) = judge(Kind::Label, &sized_label(), &longer) else {
        panic!(rt; "another media")
    };
    assert_same(&rt, cause, DeclineCause::Media);
}

/// What EBR finds in the sector of a link that is back.
fn with_link(rt: &impl Abort, taste: &mut Taste, bytes: Block, facts: &Facts) -> Option<Shape>
    requires { 512 ≤ length bytes }
{
    assert!(rt; taste.reads() < 33);
    taste.note_read(Kind::Ebr);
    assert!(rt; taste.read_out());
    taste.take_back(BioResult::Bytes(SharedBytes::from_block(bytes)));
    taste.weigh_back(facts)
}

#[test]
fn a_chain_of_two_links(rt: HostRuntime) -> Result<(), Fail> {
    let facts = facts_of(Kind::Mbr, 63);
    let mut taste = Taste::new(ProvId::new(2), ConsId::new(5));
    assert_same(
        &rt,
        (taste.provider(), taste.consumer()),
        (ProvId::new(2), ConsId::new(5)),
    );
    assert_same(&rt, taste.next_class(), Some(Kind::Mbr));
    assert_same(&rt, taste.next_class(), Some(Kind::Ebr));
    let first = Block::from_slice(rt.alloc(), &table_of([(0xA5, 1, 4), (5, 10, 5)]))?;
    assert!(rt; with_link(&rt, &mut taste, first, &facts).is_none());
    assert_same(&rt, taste.reads(), 1);
    assert!(rt; matches!(taste.asked(), Asked::NextSector { sector: 10, .. }));
    let last = Block::from_slice(rt.alloc(), &table_of([(0xA5, 1, 3), (0, 0, 0)]))?;
    let Some(Shape::Logical(table)) = with_link(&rt, &mut taste, last, &facts) else {
        panic!(rt; "no chain")
    };
    let Some(part) = table.parts[1] else {
        panic!(rt; "no partition")
    };
    assert_same(&rt, (part.first, part.count), (11, 3));
    let config = Config::ebr(rt.alloc(), Some(ConsId::new(5)), &table.parts)?;
    assert_same(&rt, config.component(0), Some(ConsId::new(5)));
    assert_same(&rt, taste.next_class(), Some(Kind::Label));
    Ok(())
}

#[test]
fn the_first_place_of_two(rt: HostRuntime) -> Result<(), Fail> {
    let found = ConcatRecord {
        name: Name::new(b"v")?,
        id: 7,
        place: 0,
        count: 2,
    };
    let empty = Config::empty_concat(rt.alloc(), &found)?;
    assert!(rt; empty.is_free(0));
    let Some(half) = empty.filled(rt.alloc(), 0, ConsId::new(3), 1536, 512)? else {
        panic!(rt; "no place")
    };
    assert!(rt; half.is_same_assembly(&empty));
    assert!(rt; !half.is_whole());
    assert_same(&rt, half.component(0), Some(ConsId::new(3)));
    assert_same(&rt, half.components(rt.alloc())?.len(), 1);
    Ok(())
}

/// A concat of 1,536 and 2,560 bytes, as a command makes it.
fn concat_of(rt: &HostRuntime) -> Result<Config, Fail>
    ensures { IfOk result (λ config. config ≡ Concat None (Some 3 ∷ Some 4 ∷ []) (1536 ∷ 2560 ∷ [])) }
{
    let consumers = vec![in rt.alloc(); Some(ConsId::new(3)), Some(ConsId::new(4))]?;
    let sizes = vec![in rt.alloc(); 1536, 2560]?;
    Ok(Config::concat(None, consumers, sizes, 512))
}

/// A range over both components of that concat has two pieces, each for a component of its own.
fn assert_split(rt: &impl Abort, alloc: Global, config: &Config) -> Result<(), Fail>
    requires { config.now ≡ Concat None (Some 3 ∷ Some 4 ∷ []) (1536 ∷ 2560 ∷ []) }
{
    let media = Media {
        name: Name::new(b"concat/v")?,
        size: 4096,
        sector: 512,
    };
    let span = Span {
        offset: 1024,
        len: 2048,
    };
    let list = config.split(alloc, &media, span)?;
    let items = list.items();
    assert_same(rt, items.len(), 2);
    let Some(second) = items.get(1) else {
        panic!(rt; "one piece")
    };
    assert_same(rt, (second.child, second.span.len), (1, 1536));
    let consumers = config.consumers(alloc, items)?;
    assert_same(
        rt,
        consumers.as_slice().get(1).copied(),
        Some(ConsId::new(4)),
    );
    Ok(())
}

#[test]
fn a_range_over_both_components(rt: HostRuntime) -> Result<(), Fail> {
    let config = concat_of(&rt)?;
    assert_same(&rt, config.joined_size(), Some(4096));
    assert_split(&rt, rt.alloc(), &config)?;
    assert_same(&rt, config.flush(rt.alloc())?.items().len(), 2);
    let grown = config.with_place(rt.alloc(), ConsId::new(5), 512, 512)?;
    assert_same(&rt, grown.joined_size(), Some(4608));
    Ok(())
}

#[test]
fn a_range_of_a_window(rt: HostRuntime) -> Result<(), Fail> {
    let config = Config::nop(Some(ConsId::new(3)), 1024, 3);
    assert_same(&rt, config.fail(), Some(3));
    let media = Media {
        name: Name::new(b"md0.nop")?,
        size: 2048,
        sector: 512,
    };
    let span = Span {
        offset: 512,
        len: 512,
    };
    let list = config.split(rt.alloc(), &media, span)?;
    let Some(piece) = list.items().first() else {
        panic!(rt; "no piece")
    };
    assert_same(&rt, piece.span.offset, 1536);
    Ok(())
}
