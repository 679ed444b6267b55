use crate::same::assert_same;
use geo_base::{BioCmd, Block, Counts, Errno, Kind, Name, NoMemory, SharedBytes};
use geo_model::{
    BioResult, ConsLine, ConsLines, GeomLine, MeshList, NameList, Outcome, ProvLine, ProvLines,
    Reply, Request,
};
use std::alloc::Global;
use std::process::Abort;

/// The name of everything here.
fn md0(rt: &impl Abort) -> Name {
    let Ok(name) = Name::new(b"md0") else {
        panic!(rt; "a name")
    };
    name
}

/// A line of one provider.
fn providers(alloc: Global, name: Name) -> Result<ProvLines, NoMemory> {
    let mut lines = ProvLines::new(alloc);
    lines.push(ProvLine {
        name,
        size: 2048,
        sector: 512,
        counts: Counts { r: 1, w: 0, e: 0 },
        errored: false,
    })?;
    Ok(lines)
}

/// A line of one consumer.
fn consumers(alloc: Global, name: Name) -> Result<ConsLines, NoMemory> {
    let mut lines = ConsLines::new(alloc);
    lines.push(ConsLine {
        prov: name,
        counts: Counts { r: 0, w: 1, e: 0 },
    })?;
    Ok(lines)
}

/// A listing of one geom with a provider and a consumer.
fn listing(alloc: Global, name: Name) -> Result<MeshList, NoMemory> {
    let providers = providers(alloc, name)?;
    let consumers = consumers(alloc, name)?;
    let mut mesh = MeshList::new(alloc);
    mesh.push(GeomLine {
        kind: Kind::Nop,
        name,
        rank: 2,
        withering: true,
        providers,
        consumers,
    })?;
    Ok(mesh)
}

/// A listing is of that geom.
fn assert_listed(rt: &impl Abort, mesh: &MeshList) {
    let [line] = mesh.items() else {
        panic!(rt; "one geom")
    };
    assert_same(rt, line.name.bytes(), b"md0".as_slice());
    let [provider] = line.providers.items() else {
        panic!(rt; "one provider")
    };
    assert_same(rt, provider.size, 2048);
    let [consumer] = line.consumers.items() else {
        panic!(rt; "one consumer")
    };
    assert_same(rt, consumer.counts.w, 1);
}

#[test]
fn lists_of_lines_are_kept_and_copied(rt: HostRuntime) {
    let mesh = listing(rt.alloc(), md0(&rt)).expect(&rt, "memory");
    let again = mesh.copy(rt.alloc()).expect(&rt, "memory");
    assert_listed(&rt, &again);
}

#[test]
fn names_are_copied(rt: HostRuntime) {
    let mut names = Vec::new(rt.alloc());
    names.push(md0(&rt)).expect(&rt, "memory");
    let names = NameList::from_vec(names)
        .copy(rt.alloc())
        .expect(&rt, "memory");
    assert_eq!(rt; names.items().len(), 1);
    assert_same(&rt, names.into_vec()[0].bytes(), b"md0".as_slice());
}

/// The copy of the outcome that asks a disk to write these bytes.
fn asked(alloc: Global, bytes: SharedBytes) -> Result<Outcome, NoMemory> {
    let request = Request {
        disk: 1,
        cmd: BioCmd::Write,
        first: 2,
        count: 1,
        bytes,
    };
    Outcome::Asked(request).copy(alloc)
}

/// The outcome asks for these bytes.
fn assert_asked(rt: &impl Abort, outcome: &Outcome, bytes: &[u8]) {
    let Outcome::Asked(request) = outcome else {
        panic!(rt; "the same outcome")
    };
    assert_same(rt, request.bytes.bytes(), bytes);
}

#[test]
fn a_request_is_copied(rt: HostRuntime) {
    let outcome = asked(rt.alloc(), shared(rt.alloc(), b"ab").expect(&rt, "memory")).expect(
        &rt, "memory",
    );
    assert_asked(&rt, &outcome, b"ab");
}

/// Bytes that are shared, if there is memory for it.
fn shared(alloc: Global, bytes: &[u8]) -> Result<SharedBytes, NoMemory> {
    let block = Block::from_slice(alloc, bytes)?;
    Ok(SharedBytes::from_block(block).share(alloc))
}

/// The reply is of these bytes.
fn assert_replied(rt: &impl Abort, reply: &Reply, bytes: &[u8]) {
    let Reply::Bytes(block) = reply else {
        panic!(rt; "the same reply")
    };
    assert_same(rt, block.bytes(), bytes);
}

#[test]
fn a_reply_is_copied(rt: HostRuntime) {
    let reply = Reply::Bytes(shared(rt.alloc(), b"ab").expect(&rt, "memory"));
    let again = reply.copy(rt.alloc()).expect(&rt, "memory");
    assert_replied(&rt, &again, b"ab");
}

/// A bio ended with these bytes.
fn assert_ended(rt: &impl Abort, ended: &BioResult, bytes: &[u8]) {
    let BioResult::Bytes(block) = ended else {
        panic!(rt; "the same result")
    };
    assert_same(rt, block.bytes(), bytes);
}

#[test]
fn results_are_copied(rt: HostRuntime) {
    let result = BioResult::Bytes(shared(rt.alloc(), b"ab").expect(&rt, "memory"));
    let again = result.copy(rt.alloc()).expect(&rt, "memory");
    assert_ended(&rt, &again, b"ab");
    let failed = BioResult::Failed(Errno::EIO)
        .copy(rt.alloc())
        .expect(&rt, "memory");
    assert!(rt; matches!(failed, BioResult::Failed(Errno::EIO)));
}
