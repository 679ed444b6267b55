use crate::same::assert_same;
use geo_base::{Block, Name};
use geo_nbd::{
    Agreed, Answer, Chunk, Export, GREETING, OptionHead, OptionReply, Phase, Request, SimpleReply,
    after_flags, answer, data_chunk, done_chunk, error_chunk, next_option,
};
use std::alloc::Global;
use std::process::Abort;

/// An export of this name, over sectors of 512 bytes.
fn export_of(rt: &impl Abort, name: &[u8], size: u64) -> Export {
    Export {
        name: Name::new(name).expect(rt, "a name"),
        size,
        sector: 512,
        flags: 109,
    }
}

/// What is answered to an option of a client that wants no zeros, by a server of `ada0` and `stripe/s`.
fn answer_to(rt: &impl Abort, alloc: Global, option: u32, data: &[u8]) -> Answer {
    let exports = [
        export_of(rt, b"ada0", 65_536),
        export_of(rt, b"stripe/s", 1_048_576),
    ];
    let agreed = Agreed {
        no_zeroes: true,
        structured: false,
    };
    answer(alloc, &exports, agreed, option, data).expect(rt, "memory")
}

/// The option is answered by exactly these bytes; says what comes next.
fn assert_sent(rt: &impl Abort, found: Answer, wanted: &[u8]) -> Phase {
    let Answer { sent, next } = found;
    let block: Block = sent.into_block();
    assert_same(rt, block.bytes(), wanted);
    next
}

#[test]
fn the_greeting_and_flags(rt: HostRuntime) {
    assert_same(
        &rt,
        GREETING.as_slice(),
        b"NBDMAGICIHAVEOPT\0\x03".as_slice(),
    );
    let agreed = Agreed {
        no_zeroes: true,
        structured: false,
    };
    assert_same(&rt, after_flags(b"\0\0\0\x03"), Phase::Options(agreed));
    assert_same(&rt, after_flags(b"\0\0\x01\x03"), Phase::Ended);
}

#[test]
fn heads_of_options(rt: HostRuntime) {
    let head = OptionHead { option: 7, len: 6 };
    assert_same(
        &rt,
        head.bytes().as_slice(),
        b"IHAVEOPT\0\0\0\x07\0\0\0\x06".as_slice(),
    );
    assert_same(
        &rt,
        next_option(b"IHAVEOPT\0\0\0\x07\0\0\0\x06"),
        Some(head),
    );
    assert_same(
        &rt,
        next_option(b"IHAVEOPT\0\0\0\x07\xff\xff\xff\xff"),
        None,
    );
    assert_same(&rt, next_option(b"NBDMAGIC\0\0\0\x07\0\0\0\x06"), None);
}

#[test]
fn a_name_is_gone_to(rt: HostRuntime) {
    let found = answer_to(&rt, rt.alloc(), 7, b"\0\0\0\x04ada0\0\x01\0\x03");
    let next = assert_sent(
        &rt,
        found,
        b"\0\x03\xe8\x89\x04\x55\x65\xa9\0\0\0\x07\0\0\0\x03\0\0\0\x0c\0\0\0\0\0\0\0\x01\0\0\0\x6d\
          \0\x03\xe8\x89\x04\x55\x65\xa9\0\0\0\x07\0\0\0\x03\0\0\0\x0e\0\x03\0\0\x02\0\0\0\x10\0\0\0\x80\0\
          \0\x03\xe8\x89\x04\x55\x65\xa9\0\0\0\x07\0\0\0\x01\0\0\0\0"
            .as_slice(),
    );
    let export = export_of(&rt, b"ada0", 65_536);
    assert_same(
        &rt,
        next,
        Phase::Serving {
            export,
            structured: false,
        },
    );
}

#[test]
fn names_are_listed(rt: HostRuntime) {
    let found = answer_to(&rt, rt.alloc(), 3, b"");
    let next = assert_sent(
        &rt,
        found,
        b"\0\x03\xe8\x89\x04\x55\x65\xa9\0\0\0\x03\0\0\0\x02\0\0\0\x08\0\0\0\x04ada0\
          \0\x03\xe8\x89\x04\x55\x65\xa9\0\0\0\x03\0\0\0\x02\0\0\0\x0c\0\0\0\x08stripe/s\
          \0\x03\xe8\x89\x04\x55\x65\xa9\0\0\0\x03\0\0\0\x01\0\0\0\0"
            .as_slice(),
    );
    assert!(rt; matches!(next, Phase::Options(_)));
}

#[test]
fn options_that_are_refused(rt: HostRuntime) {
    // STARTTLS, and INFO of a name that isn't there.
    let found = answer_to(&rt, rt.alloc(), 5, b"");
    let next = assert_sent(
        &rt,
        found,
        b"\0\x03\xe8\x89\x04\x55\x65\xa9\0\0\0\x05\x80\0\0\x01\0\0\0\0".as_slice(),
    );
    assert!(rt; matches!(next, Phase::Options(_)));
    let found = answer_to(&rt, rt.alloc(), 6, b"\0\0\0\x04ada1\0\0");
    let next = assert_sent(
        &rt,
        found,
        b"\0\x03\xe8\x89\x04\x55\x65\xa9\0\0\0\x06\x80\0\0\x06\0\0\0\0".as_slice(),
    );
    assert!(rt; matches!(next, Phase::Options(_)));
}

#[test]
fn an_old_client_names_its_export(rt: HostRuntime) {
    let found = answer_to(&rt, rt.alloc(), 1, b"");
    let next = assert_sent(&rt, found, b"\0\0\0\0\0\x01\0\0\0\x6d".as_slice());
    assert!(rt; matches!(next, Phase::Serving { .. }));
    let found = answer_to(&rt, rt.alloc(), 1, b"ada1");
    let next = assert_sent(&rt, found, b"".as_slice());
    assert_same(&rt, next, Phase::Ended);
    let exports = [export_of(&rt, b"ada0", 512)];
    let agreed = Agreed {
        no_zeroes: false,
        structured: false,
    };
    let found = answer(rt.alloc(), &exports, agreed, 1, b"ada0").expect(&rt, "memory");
    assert_same(&rt, found.sent.len(), 134);
}

#[test]
fn requests_and_replies(rt: HostRuntime) {
    let bytes =
        b"\x25\x60\x95\x13\0\x01\0\x01\x01\x02\x03\x04\x05\x06\x07\x08\0\0\0\0\0\0\x10\0\0\0\x02\0";
    let request = Request {
        flags: 1,
        kind: 1,
        cookie: 0x0102_0304_0506_0708,
        offset: 4096,
        len: 512,
    };
    assert_same(&rt, Request::read(bytes), Some(request));
    assert_same(&rt, request.bytes().as_slice(), bytes.as_slice());
    let reply = SimpleReply {
        error: 22,
        cookie: 258,
    };
    let bytes = b"\x67\x44\x66\x98\0\0\0\x16\0\0\0\0\0\0\x01\x02";
    assert_same(&rt, reply.bytes().as_slice(), bytes.as_slice());
    assert_same(&rt, SimpleReply::read(bytes), Some(reply));
    assert_same(&rt, OptionReply::read(b"IHAVEOPTIHAVEOPTIHAV"), None);
}

#[test]
fn structured_replies(rt: HostRuntime) {
    let bytes = b"\x66\x8e\x33\xef\0\x01\0\0\0\0\0\0\0\0\x01\x02\0\0\0\0";
    assert_same(&rt, done_chunk(258).as_slice(), bytes.as_slice());
    let chunk = Chunk {
        flags: 1,
        kind: 0,
        cookie: 258,
        len: 0,
    };
    assert_same(&rt, Chunk::read(bytes), Some(chunk));
    assert_same(
        &rt,
        data_chunk(258, 4096, 512).as_slice(),
        b"\x66\x8e\x33\xef\0\x01\0\x01\0\0\0\0\0\0\x01\x02\0\0\x02\x08\0\0\0\0\0\0\x10\0".as_slice(),
    );
    assert_same(
        &rt,
        error_chunk(258, 22).as_slice(),
        b"\x66\x8e\x33\xef\0\x01\x80\x01\0\0\0\0\0\0\x01\x02\0\0\0\x06\0\0\0\x16\0\0".as_slice(),
    );
}
