ghost use Rattle.std.specs.Prelude.{◌<◌, ◌≤◌, length};

use crate::same::assert_same;
use geo_base::DeclineCause;
use geo_class::AddressMap;
use geo_class::mbr::{MbrMap, decode};
use geo_model::{Slice, Span};
use std::process::Abort;

/// Gives an entry of a sector this type, first sector and number of sectors.
fn set_entry(sector: &mut [u8; 512], place: usize, kind: u8, first: [u8; 4], count: [u8; 4])
    requires { place < 4 }
{
    let start = 446 + 16 * place;
    sector[start + 4] = kind;
    for i in 0..4 {
        sector[start + 8 + i] = first[i];
        sector[start + 12 + i] = count[i];
    }
}

/// A sector with a signature, and one such entry.
fn with_entry(place: usize, kind: u8, first: [u8; 4], count: [u8; 4]) -> [u8; 512]
    requires { place < 4 }
{
    let mut sector = [0u8; 512];
    set_entry(&mut sector, place, kind, first, count);
    sector[510] = 0x55;
    sector[511] = 0xAA;
    sector
}

/// The cause by which a sector is declined.
fn cause_of(rt: &impl Abort, sector: &[u8], sectors: u64) -> DeclineCause
    requires { 512 ≤ length sector.now }
{
    let Err(declined) = decode(sector, sectors) else {
        panic!(rt; "a table")
    };
    declined.cause
}

#[test]
fn one_slice_behind_the_table(rt: HostRuntime) {
    let table = decode(&with_entry(0, 0xA5, [1, 0, 0, 0], [7, 0, 0, 0]), 8).expect(&rt, "a table");
    let Some(slice) = table.slices[0] else {
        panic!(rt; "a slice")
    };
    assert_same(&rt, (slice.first, slice.count), (1, 7));
    assert!(rt; table.slices[1].is_none());
}

#[test]
fn a_slice_lies_behind_its_first_sector(rt: HostRuntime) {
    let map = MbrMap::new(&Slice { first: 1, count: 7 });
    assert_same(&rt, (map.size(), map.sector()), (3584, 512));
    assert_same(&rt, map.place(3583), (0, 4095));
    let list = map
        .split(
            rt.alloc(),
            Span {
                offset: 0,
                len: 3584,
            },
        )
        .expect(&rt, "memory");
    assert_same(&rt, list.items().len(), 1);
}

#[test]
fn hostile_entries(rt: HostRuntime) {
    for place in 0..4 {
        let far = with_entry(place, 0xA5, [255; 4], [255; 4]);
        assert_same(
            &rt,
            cause_of(&rt, &far, 8_589_934_589),
            DeclineCause::Nothing,
        );
        let past = with_entry(place, 0xA5, [8, 0, 0, 0], [57, 0, 0, 0]);
        assert_same(&rt, cause_of(&rt, &past, 64), DeclineCause::Nothing);
        let at_zero = with_entry(place, 0xA5, [0; 4], [4, 0, 0, 0]);
        assert_same(&rt, cause_of(&rt, &at_zero, 64), DeclineCause::Nothing);
    }
    let mut protected = with_entry(3, 0xEE, [1, 0, 0, 0], [7, 0, 0, 0]);
    assert_same(&rt, cause_of(&rt, &protected, 64), DeclineCause::Protective);
    protected[510] = 0x54;
    assert_same(&rt, cause_of(&rt, &protected, 64), DeclineCause::Signature);
}

#[test]
fn no_sum_of_a_hostile_entry_wraps(rt: HostRuntime) {
    let mut each = with_entry(0, 0xA5, [255; 4], [255; 4]);
    for place in 1..4 {
        set_entry(&mut each, place, 0xA5, [255; 4], [255; 4]);
    }
    assert_same(&rt, cause_of(&rt, &each, 64), DeclineCause::Nothing);
    assert_same(
        &rt,
        cause_of(&rt, &each, 8_589_934_589),
        DeclineCause::Nothing,
    );
    // With one sector more all four end at the media's end.
    let table = decode(&each, 8_589_934_590).expect(&rt, "a table");
    assert!(rt; table.slices[3].is_some());
}

#[test]
fn a_protective_entry_behind_a_good_one_declines_the_table(rt: HostRuntime) {
    let mut sector = with_entry(0, 0xA5, [1, 0, 0, 0], [7, 0, 0, 0]);
    set_entry(&mut sector, 3, 0xEE, [1, 0, 0, 0], [7, 0, 0, 0]);
    assert_same(&rt, cause_of(&rt, &sector, 64), DeclineCause::Protective);
}

#[test]
fn a_slice_ends_at_the_media_end(rt: HostRuntime) {
    let table = decode(&with_entry(2, 0xA5, [8, 0, 0, 0], [56, 0, 0, 0]), 64).expect(
        &rt, "a table",
    );
    assert!(rt; table.slices[2].is_some());
}
