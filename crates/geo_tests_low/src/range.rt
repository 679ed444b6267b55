ghost use Rattle.std.specs.Prelude.{◌<◌};

use crate::same::assert_same;
use geo_base::NoMemory;
use geo_class::{AddressMap, PieceList, Window};
use geo_model::{Piece, Span, Stretch};
use std::alloc::Global;

/// The pieces of all of a provider.
fn pieces_of<M: AddressMap>(alloc: Global, map: &M) -> Result<PieceList, NoMemory>
    requires { 0 < M.media map.now }
{
    let len = map.size();
    map.split(alloc, Span { offset: 0, len })
}

#[test]
fn a_window_is_one_piece(rt: HostRuntime) {
    let window = Window::new(1024, 2048, 512);
    let list = window
        .split(
            rt.alloc(),
            Span {
                offset: 512,
                len: 1536,
            },
        )
        .expect(&rt, "memory");
    let piece = Piece {
        child: 0,
        span: Span {
            offset: 1536,
            len: 1536,
        },
        at: 0,
    };
    assert_same(&rt, list.items(), [piece].as_slice());
    assert_same(&rt, window.place(2047), (0, 3071));
    assert_same(
        &rt,
        pieces_of(rt.alloc(), &window)
            .expect(&rt, "memory")
            .items()
            .len(),
        1,
    );
    assert_same(&rt, window.sector(), 512);
}

#[test]
fn a_part_outside_the_range_is_no_piece(rt: HostRuntime) {
    let mut list = PieceList::new(rt.alloc());
    list.reserve(2).expect(&rt, "memory");
    let span = Span {
        offset: 512,
        len: 512,
    };
    list.push_part(
        span,
        Stretch {
            start: 1024,
            len: 512,
            component: 1,
            offset: 0,
        },
    );
    assert!(rt; list.items().is_empty());
}
