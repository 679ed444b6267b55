use crate::same::assert_same;
use geo_base::{DeclineCause, Name};
use geo_class::AddressMap;
use geo_class::stripe::{StripeMap, decode, encode};
use geo_model::{Span, StripeRecord};
use std::process::Abort;

/// The sector of a record with this place, count and stripe size.
fn sector_of(rt: &impl Abort, place: u16, count: u16, stripe: u32) -> [u8; 512] {
    let Ok(name) = Name::new(b"fast") else {
        panic!(rt; "a name")
    };
    let mut sector = [3u8; 512];
    assert!(rt; name.is_short());
    let part = StripeRecord {
        name,
        id: 7,
        place,
        count,
        stripe,
    };
    encode(&part, &mut sector);
    sector
}

/// The cause by which a sector is declined.
fn cause_of(rt: &impl Abort, sector: &[u8; 512]) -> DeclineCause {
    let Err(declined) = decode(sector) else {
        panic!(rt; "a record")
    };
    declined.cause
}

#[test]
fn the_fields_of_a_second_place(rt: HostRuntime) {
    let sector = sector_of(&rt, 1, 2, 4096);
    assert_same(
        &rt,
        &sector[36..50],
        b"\x07\0\0\0\x01\0\x02\0\0\x10\0\0\0\0".as_slice(),
    );
}

#[test]
fn the_record_of_a_second_place(rt: HostRuntime) {
    let part = decode(&sector_of(&rt, 1, 2, 4096)).expect(&rt, "a record");
    assert_same(&rt, part.name.bytes(), b"fast".as_slice());
    assert_same(
        &rt,
        (part.id, part.place, part.count, part.stripe),
        (7, 1, 2, 4096),
    );
}

#[test]
fn places_and_stripe_sizes_that_are_none(rt: HostRuntime) {
    assert_same(
        &rt,
        cause_of(&rt, &sector_of(&rt, 0, 0, 512)),
        DeclineCause::Place,
    );
    assert_same(
        &rt,
        cause_of(&rt, &sector_of(&rt, 0, 17, 0)),
        DeclineCause::Place,
    );
    assert_same(
        &rt,
        cause_of(&rt, &sector_of(&rt, 2, 2, 512)),
        DeclineCause::Place,
    );
    for stripe in [0, 513, 33280] {
        assert_same(
            &rt,
            cause_of(&rt, &sector_of(&rt, 0, 1, stripe)),
            DeclineCause::Size,
        );
    }
}

#[test]
fn seven_pieces_over_three_components(rt: HostRuntime) {
    let map = StripeMap::new(3, 512, 2048, 512);
    assert_same(&rt, (map.size(), map.sector()), (6144, 512));
    assert_same(&rt, map.place(6143), (2, 2047));
    let list = map
        .split(
            rt.alloc(),
            Span {
                offset: 0,
                len: 3584,
            },
        )
        .expect(&rt, "memory");
    let mut seen = Vec::new(rt.alloc());
    for piece in list.items() {
        seen.push((piece.child, piece.span.offset, piece.span.len, piece.at))
            .expect(&rt, "memory");
    }
    let wanted = [
        (0, 0, 512, 0),
        (1, 0, 512, 512),
        (2, 0, 512, 1024),
        (0, 512, 512, 1536),
        (1, 512, 512, 2048),
        (2, 512, 512, 2560),
        (0, 1024, 512, 3072),
    ];
    assert_same(&rt, seen.as_slice(), wanted.as_slice());
}
