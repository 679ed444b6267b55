ghost use Rattle.std.specs.Prelude.{◌<◌, ◌≤◌, length};

use crate::same::assert_same;
use geo_base::DeclineCause;
use geo_class::AddressMap;
use geo_class::ebr::{Chain, EbrMap, Link};
use geo_model::{EbrTable, Span};
use std::process::Abort;

/// Writes an entry of this type, first sector and number of sectors.
fn put_entry(sector: &mut [u8; 512], place: usize, kind: u8, first: u32, count: u32)
    requires { place < 4 }
{
    let start = 446 + 16 * place;
    sector[start + 4] = kind;
    sector[start + 8..start + 12].copy_from_slice(&first.to_le_bytes());
    sector[start + 12..start + 16].copy_from_slice(&count.to_le_bytes());
}

/// A link whose first entry names a partition of type 0xA5, and whose second entry is of type 0x05 and leads to `next`.
fn leading(first: u32, count: u32, next: u32) -> [u8; 512] {
    let mut sector = last(first, count);
    put_entry(&mut sector, 1, 0x05, next, 5);
    sector
}

/// A link whose first entry names a partition of type 0xA5, and whose second entry is empty.
fn last(first: u32, count: u32) -> [u8; 512] {
    let mut sector = [0u8; 512];
    put_entry(&mut sector, 0, 0xA5, first, count);
    sector[510] = 0x55;
    sector[511] = 0xAA;
    sector
}

/// The cause by which a chain is declined at a link.
fn cause_of(rt: &impl Abort, chain: &mut Chain, sector: &[u8]) -> DeclineCause
    requires { 512 ≤ length sector.now }
{
    let Link::Declined(cause) = chain.feed(sector) else {
        panic!(rt; "a link")
    };
    cause
}

/// The sector of the link that a chain wants after a link.
fn wanted(rt: &impl Abort, chain: &mut Chain, sector: &[u8]) -> u64
    requires { 512 ≤ length sector.now }
{
    let Link::More(next) = chain.feed(sector) else {
        panic!(rt; "no link")
    };
    next
}

/// The partitions of a chain that ends with a link.
fn ended(rt: &impl Abort, chain: &mut Chain, sector: &[u8]) -> EbrTable
    requires { 512 ≤ length sector.now }
{
    let Link::Whole(table) = chain.feed(sector) else {
        panic!(rt; "no end")
    };
    table
}

/// The partition of a link, counted from 0: its first sector and its number of sectors.
fn part_of(rt: &impl Abort, table: &EbrTable, link: usize) -> (u64, u32)
    requires { link < 32 }
{
    let Some(part) = table.parts[link] else {
        panic!(rt; "no partition")
    };
    (part.first, part.count)
}

#[test]
fn a_chain_of_two_links(rt: HostRuntime) {
    let mut chain = Chain::new(63);
    assert_same(&rt, wanted(&rt, &mut chain, &leading(1, 4, 10)), 10);
    let table = ended(&rt, &mut chain, &last(1, 3));
    assert_same(&rt, part_of(&rt, &table, 0), (1, 4));
    assert_same(&rt, part_of(&rt, &table, 1), (11, 3));
    assert!(rt; table.parts[2].is_none());
    assert!(rt; table.parts[31].is_none());
}

#[test]
fn a_way_back(rt: HostRuntime) {
    let mut chain = Chain::new(63);
    assert_same(
        &rt,
        cause_of(&rt, &mut chain, &leading(1, 4, 0)),
        DeclineCause::Loop,
    );
    assert_same(&rt, wanted(&rt, &mut chain, &leading(1, 4, 10)), 10);
    assert_same(
        &rt,
        cause_of(&rt, &mut chain, &leading(1, 3, 0)),
        DeclineCause::Loop,
    );
    assert_same(
        &rt,
        cause_of(&rt, &mut chain, &leading(1, 3, 10)),
        DeclineCause::Loop,
    );
    assert_same(&rt, wanted(&rt, &mut chain, &leading(1, 3, 20)), 20);
    assert_same(
        &rt,
        cause_of(&rt, &mut chain, &leading(1, 3, 10)),
        DeclineCause::Loop,
    );
}

#[test]
fn a_way_past_the_media(rt: HostRuntime) {
    let mut chain = Chain::new(63);
    assert_same(
        &rt,
        cause_of(&rt, &mut chain, &leading(1, 4, 63)),
        DeclineCause::Far,
    );
    assert_same(
        &rt,
        cause_of(&rt, &mut chain, &leading(1, 4, u32::MAX)),
        DeclineCause::Far,
    );
    assert_same(&rt, wanted(&rt, &mut chain, &leading(1, 4, 62)), 62);
}

#[test]
fn a_second_entry_of_another_type(rt: HostRuntime) {
    let mut chain = Chain::new(63);
    let mut sector = leading(1, 4, 0);
    put_entry(&mut sector, 1, 0x85, 0, 5);
    assert_same(
        &rt,
        cause_of(&rt, &mut chain, &sector),
        DeclineCause::Second,
    );
    put_entry(&mut sector, 1, 0x0F, 10, 5);
    assert_same(&rt, wanted(&rt, &mut chain, &sector), 10);
    sector[511] = 0;
    assert_same(
        &rt,
        cause_of(&rt, &mut chain, &sector),
        DeclineCause::Signature,
    );
}

#[test]
fn a_link_too_many(rt: HostRuntime) {
    let mut chain = Chain::new(63);
    for next in 1..32 {
        assert_same(
            &rt,
            wanted(&rt, &mut chain, &leading(1, 1, next)),
            u64::from(next),
        );
    }
    assert_same(
        &rt,
        cause_of(&rt, &mut chain, &leading(1, 1, 32)),
        DeclineCause::Long,
    );
    let table = ended(&rt, &mut chain, &last(1, 2));
    assert_same(&rt, part_of(&rt, &table, 31), (32, 2));
}

#[test]
fn partitions_that_are_none(rt: HostRuntime) {
    let mut chain = Chain::new(0x1_0000_0000);
    assert_same(
        &rt,
        cause_of(&rt, &mut chain, &last(0, 4)),
        DeclineCause::Nothing,
    );
    assert_same(
        &rt,
        cause_of(&rt, &mut chain, &last(1, 0)),
        DeclineCause::Nothing,
    );
    assert_same(
        &rt,
        cause_of(&rt, &mut chain, &last(u32::MAX, 2)),
        DeclineCause::Nothing,
    );
    let table = ended(&rt, &mut chain, &last(u32::MAX, 1));
    assert_same(&rt, part_of(&rt, &table, 0), (0xFFFF_FFFF, 1));
}

#[test]
fn a_partition_of_the_second_link_alone(rt: HostRuntime) {
    let mut chain = Chain::new(63);
    assert_same(&rt, wanted(&rt, &mut chain, &leading(0, 0, 10)), 10);
    let table = ended(&rt, &mut chain, &last(1, 52));
    assert!(rt; table.parts[0].is_none());
    assert_same(&rt, part_of(&rt, &table, 1), (11, 52));
}

#[test]
fn a_partition_lies_behind_its_first_sector(rt: HostRuntime) {
    let map = EbrMap::new(11, 3);
    assert_same(&rt, (map.size(), map.sector()), (1536, 512));
    assert_same(&rt, (map.place(0), map.place(1535)), ((0, 5632), (0, 7167)));
    let list = map
        .split(
            rt.alloc(),
            Span {
                offset: 512,
                len: 1024,
            },
        )
        .expect(&rt, "memory");
    assert_eq!(rt; list.items().len(), 1);
    assert_same(&rt, list.items()[0].span.offset, 6144);
}
