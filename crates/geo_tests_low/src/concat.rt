use crate::same::assert_same;
use geo_base::{DeclineCause, Name};
use geo_class::AddressMap;
use geo_class::concat::{ConcatMap, decode, encode};
use geo_model::{ConcatRecord, Span};
use std::process::Abort;

/// The sector of a record with this place and count.
fn sector_of(rt: &impl Abort, place: u16, count: u16) -> [u8; 512] {
    let Ok(name) = Name::new(b"v") else {
        panic!(rt; "a name")
    };
    let mut sector = [3u8; 512];
    assert!(rt; name.is_short());
    let part = ConcatRecord {
        name,
        id: 7,
        place,
        count,
    };
    encode(&part, &mut sector);
    sector
}

#[test]
fn the_record_of_a_second_place(rt: HostRuntime) {
    let sector = sector_of(&rt, 1, 2);
    assert_same(
        &rt,
        &sector[..22],
        b"RGEOM::CONCAT\0\0\0\x01\0\0\0v\0".as_slice(),
    );
    assert_same(
        &rt,
        &sector[36..46],
        b"\x07\0\0\0\x01\0\x02\0\0\0".as_slice(),
    );
    let part = decode(&sector).expect(&rt, "a record");
    assert_same(&rt, (part.id, part.place, part.count), (7, 1, 2));
}

#[test]
fn places_that_are_none(rt: HostRuntime) {
    for (place, count) in [(0, 0), (0, 17), (2, 2), (16, 16)] {
        let Err(declined) = decode(&sector_of(&rt, place, count)) else {
            panic!(rt; "a place")
        };
        assert_same(&rt, declined.cause, DeclineCause::Place);
    }
}

#[test]
fn a_range_over_both_components(rt: HostRuntime) {
    let map = ConcatMap::new(&[1536, 2560], 512);
    assert_same(&rt, (map.size(), map.sector()), (4096, 512));
    assert_same(&rt, (map.place(1535), map.place(1536)), ((0, 1535), (1, 0)));
    let list = map
        .split(
            rt.alloc(),
            Span {
                offset: 1024,
                len: 2048,
            },
        )
        .expect(&rt, "memory");
    let items = list.items();
    assert_eq!(rt; items.len(), 2);
    assert_same(
        &rt,
        (
            items[0].child,
            items[0].span.offset,
            items[0].span.len,
            items[0].at,
        ),
        (0, 1024, 512, 0),
    );
    assert_same(
        &rt,
        (
            items[1].child,
            items[1].span.offset,
            items[1].span.len,
            items[1].at,
        ),
        (1, 0, 1536, 512),
    );
}

#[test]
fn a_component_behind_the_others(rt: HostRuntime) {
    let mut map = ConcatMap::new(&[1536, 2560], 512);
    map.add(1024);
    assert_same(&rt, (map.size(), map.sector()), (5120, 512));
    assert_same(&rt, (map.place(1535), map.place(1536)), ((0, 1535), (1, 0)));
    assert_same(&rt, (map.place(4095), map.place(4096)), ((1, 2559), (2, 0)));
    assert_same(&rt, map.place(5119), (2, 1023));
    assert_same(&rt, map.sizes(), [1536, 2560, 1024].as_slice());
}
