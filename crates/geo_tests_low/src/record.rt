use crate::same::assert_same;
use geo_base::{DeclineCause, Name};
use geo_class::{decode_head, encode_head};

const MAGIC: [u8; 16] = *b"RGEOM::LABEL\0\0\0\0";

#[test]
fn a_name_of_16_bytes_is_whole(rt: HostRuntime) {
    let name = Name::new(b"abcdefgh-_012345").expect(&rt, "a name");
    assert!(rt; name.is_short());
    let mut sector = [7u8; 512];
    encode_head(&mut sector, &MAGIC, 1, &name);
    assert_same(
        &rt,
        &sector[..20],
        b"RGEOM::LABEL\0\0\0\0\x01\0\0\0".as_slice(),
    );
    assert_same(&rt, &sector[20..37], b"abcdefgh-_012345\0".as_slice());
    assert_same(
        &rt,
        decode_head(&sector, &MAGIC, 1)
            .expect(&rt, "a name")
            .bytes(),
        name.bytes(),
    );
}

#[test]
fn a_zero_inside_a_name_declines_it(rt: HostRuntime) {
    let mut sector = [0u8; 512];
    encode_head(
        &mut sector,
        &MAGIC,
        1,
        &Name::new(b"vol").expect(&rt, "a name"),
    );
    sector[25] = b'x';
    let Err(declined) = decode_head(&sector, &MAGIC, 1) else {
        panic!(rt; "a byte behind the zero")
    };
    assert_same(&rt, declined.cause, DeclineCause::BadName);
}
