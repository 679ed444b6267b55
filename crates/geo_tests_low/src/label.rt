ghost use Rattle.std.specs.Prelude.{◌≤◌, length};

use crate::same::assert_same;
use geo_base::{DeclineCause, Name};
use geo_class::AddressMap;
use geo_class::label::{LabelMap, decode, encode};
use geo_model::{LabelRecord, Span};
use std::process::Abort;

/// The cause by which a sector is declined.
fn cause_of(rt: &impl Abort, sector: &[u8]) -> DeclineCause
    requires { 44 ≤ length sector.now }
{
    let Err(declined) = decode(sector) else {
        panic!(rt; "a record")
    };
    declined.cause
}

/// The sector of 512 bytes that is written for a volume of this name.
fn sector_of(rt: &impl Abort, name: Name, size: Option<u64>) -> [u8; 512] {
    assert!(rt; name.is_short());
    let mut sector = [9u8; 512];
    encode(&LabelRecord { name, size }, &mut sector);
    sector
}

#[test]
fn a_record_of_version_1(rt: HostRuntime) {
    let sector = sector_of(&rt, Name::new(b"vol").expect(&rt, "a name"), None);
    assert_same(
        &rt,
        &sector[..24],
        b"RGEOM::LABEL\0\0\0\0\x01\0\0\0vol\0".as_slice(),
    );
    assert!(rt; sector[24..].iter().all(|b| *b == 0));
    let found = decode(&sector).expect(&rt, "a record");
    assert_same(&rt, found.name.bytes(), b"vol".as_slice());
    assert!(rt; found.size.is_none());
}

#[test]
fn a_record_of_version_2(rt: HostRuntime) {
    let sector = sector_of(&rt, Name::new(b"vol").expect(&rt, "a name"), Some(3584));
    let head = [
        0x52, 0x47, 0x45, 0x4f, 0x4d, 0x3a, 0x3a, 0x4c, 0x41, 0x42, 0x45, 0x4c, 0, 0, 0, 0,
    ];
    assert_same(&rt, &sector[..16], head.as_slice());
    assert_same(&rt, &sector[16..20], [2, 0, 0, 0].as_slice());
    assert_same(
        &rt,
        &sector[20..36],
        b"vol\0\0\0\0\0\0\0\0\0\0\0\0\0".as_slice(),
    );
    assert_same(
        &rt,
        &sector[36..44],
        [0x00, 0x0e, 0, 0, 0, 0, 0, 0].as_slice(),
    );
    assert!(rt; sector[44..].iter().all(|b| *b == 0));
    let found = decode(&sector).expect(&rt, "a record");
    assert_same(&rt, found.name.bytes(), b"vol".as_slice());
    assert_same(&rt, found.size, Some(3584));
}

#[test]
fn a_version_that_is_none(rt: HostRuntime) {
    let mut sector = sector_of(&rt, Name::new(b"vol").expect(&rt, "a name"), Some(3584));
    sector[16] = 0;
    assert_same(&rt, cause_of(&rt, &sector), DeclineCause::Version);
    sector[16] = 3;
    assert_same(&rt, cause_of(&rt, &sector), DeclineCause::Version);
    sector[16] = 2;
    sector[20] = 0;
    assert_same(&rt, cause_of(&rt, &sector), DeclineCause::BadName);
}

#[test]
fn a_label_is_one_sector_shorter(rt: HostRuntime) {
    let map = LabelMap::new(1536, 512);
    assert_same(&rt, map.place(1535), (0, 1535));
    let list = map
        .split(
            rt.alloc(),
            Span {
                offset: 0,
                len: map.size(),
            },
        )
        .expect(&rt, "memory");
    assert_same(&rt, list.items().len(), 1);
}
