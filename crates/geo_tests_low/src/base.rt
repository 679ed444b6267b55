ghost use Rattle.std.specs.Prelude.{◌<◌, ◌^◌, length};

use crate::same::assert_same;
use geo_base::{Block, Calls, Kind, Name, RunsRefusal, SharedBytes, read_runs, runs_text};
use std::alloc::Global;
use std::test::Fail;

#[test]
fn blocks_are_made(rt: HostRuntime) {
    let alloc = rt.alloc();
    let block = Block::from_slice(alloc, b"ab").expect(&rt, "memory");
    assert_same(&rt, block.bytes(), b"ab".as_slice());
    let mut again = block.copy(alloc).expect(&rt, "memory");
    again.cut(1);
    assert_same(&rt, again.bytes(), b"a".as_slice());
    let zeros = Block::zeros(alloc, 3).expect(&rt, "memory");
    assert_same(&rt, zeros.bytes(), b"\0\0\0".as_slice());
    let calls = Calls::of(alloc, &[2, 5]).expect(&rt, "memory");
    assert!(rt; calls.has(5) && !calls.has(3));
}

// A block of a vector of two bytes.
fn block_of_two(alloc: Global) -> Result<Block, Fail> {
    let mut bytes = Vec::new(alloc);
    bytes.push(b'a')?;
    bytes.push(b'b')?;
    Ok(Block::from_vec(bytes))
}

#[test]
fn a_vector_becomes_a_block(rt: HostRuntime) -> Result<(), Fail> {
    let block = block_of_two(rt.alloc())?;
    assert_same(&rt, block.bytes() == b"ab".as_slice(), true);
    Ok(())
}

/// The classes, with what is printed of each, and whether its consumers add an exclusive count.
const CLASSES: [(Kind, &[u8], bool); 9] = [
    (Kind::Disk, b"DISK", false),
    (Kind::Dev, b"DEV", false),
    (Kind::Taste, b"TASTE", false),
    (Kind::Mbr, b"MBR", true),
    (Kind::Ebr, b"EBR", true),
    (Kind::Label, b"LABEL", true),
    (Kind::Concat, b"CONCAT", true),
    (Kind::Stripe, b"STRIPE", true),
    (Kind::Nop, b"NOP", false),
];

#[test]
fn each_class_has_its_name_and_its_exclusive_count(rt: HostRuntime) {
    for (kind, text, adds) in CLASSES {
        assert_same(&rt, kind.text() == text, true);
        assert_same(&rt, kind.adds_exclusive(), adds);
    }
}

#[test]
fn shared_bytes_are_copied(rt: HostRuntime) {
    let alloc = rt.alloc();
    let own = SharedBytes::from_block(Block::from_slice(alloc, b"ab").expect(&rt, "memory"));
    let apart = own.copy(alloc).expect(&rt, "memory");
    let shared = own.share(alloc);
    let again = shared.copy(alloc).expect(&rt, "memory");
    drop(shared);
    assert_same(&rt, again.bytes(), apart.bytes());
    assert_same(&rt, again.len(), 2);
}

#[test]
fn names_end_at_63_bytes(rt: HostRuntime) {
    let long = [b'a'; 63];
    let Ok(name) = Name::new(&long) else {
        panic!(rt; "63 bytes are a name")
    };
    assert!(rt;
        name.with_tail(b"b").is_err() && Name::new(b"").is_err() && Name::new(b"a b").is_err()
    );
    let Ok(name) = Name::new(b"label/vol.1") else {
        panic!(rt; "a name")
    };
    assert!(rt; !name.is_short() && name.with_tail(b"s1").is_ok());
}

/// Where the text has its fault, and none where it is one of runs.
fn fault(alloc: Global, text: &[u8]) -> Option<u32>
    requires { length text.now < 2 ^ 32 }
{
    match read_runs(alloc, text) {
        Err(RunsRefusal::At { at }) => Some(at),
        _ => None,
    }
}

#[test]
fn texts_of_runs_both_ways(rt: HostRuntime) {
    let alloc = rt.alloc();
    let zeros = Block::zeros(alloc, 65_536).expect(&rt, "memory");
    let Ok(again) = read_runs(alloc, b"00*65536") else {
        panic!(rt; "the longest run")
    };
    assert!(rt; again.bytes() == zeros.bytes());
    let Ok(sector) = read_runs(alloc, b"00*450 a5*1 00*3 01*1 00*3 07*1 00*51 55*1 aa*1") else {
        panic!(rt; "a sector")
    };
    assert_same(&rt, sector.len(), 512);
    let text = runs_text(alloc, sector.bytes()).expect(&rt, "memory");
    assert_same(
        &rt,
        text.bytes(),
        b"00*450 a5*1 00*3 01*1 00*3 07*1 00*51 55*1 aa*1".as_slice(),
    );
    let text = runs_text(alloc, b"\x00\x0f\xff\xff").expect(&rt, "memory");
    assert_same(&rt, text.bytes(), b"00*1 0f*1 ff*2".as_slice());
}

#[test]
fn faults_of_runs_have_their_places(rt: HostRuntime) {
    let alloc = rt.alloc();
    assert_same(&rt, fault(alloc, b""), Some(0));
    assert_same(&rt, fault(alloc, b"00*65537"), Some(7));
    assert_same(&rt, fault(alloc, b"00*65536 01*1"), Some(8));
    assert_same(&rt, fault(alloc, b"00*01"), Some(3));
    assert_same(&rt, fault(alloc, b"0A*1"), Some(1));
    assert_same(&rt, fault(alloc, b"00*1 "), Some(5));
    assert_same(&rt, fault(alloc, b"00*1 00*1"), Some(6));
    assert_same(&rt, fault(alloc, b"00*1  01*1"), Some(5));
    assert_same(&rt, fault(alloc, b"00*1\n"), Some(4));
    assert_same(&rt, fault(alloc, b"00*1 01*2"), None);
}
