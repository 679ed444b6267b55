use crate::same::assert_same;
use geo_class::AddressMap;
use geo_class::nop::{NopMap, hits};
use geo_model::{Piece, Span};

#[test]
fn a_window_of_two_sectors(rt: HostRuntime) {
    let map = NopMap::new(512, 1024, 512);
    assert_same(&rt, (map.size(), map.sector()), (1024, 512));
    assert_same(&rt, map.place(1023), (0, 1535));
    let list = map
        .split(
            rt.alloc(),
            Span {
                offset: 512,
                len: 512,
            },
        )
        .expect(&rt, "memory");
    let piece = Piece {
        child: 0,
        span: Span {
            offset: 1024,
            len: 512,
        },
        at: 0,
    };
    assert_same(&rt, list.items(), [piece].as_slice());
}

#[test]
fn each_second_request_fails(rt: HostRuntime) {
    assert!(rt; !hits(5, 2) && hits(6, 2) && !hits(7, 2) && hits(8, 2) && !hits(6, 0));
}
