//! What no clause says: that there is memory, and the table with a log of its own.
ghost use Rattle.std.specs.Prelude.{◌≡◌, ◌^◌, ◌<◌, length, IfOk};
ghost use Rattle.geo_model.specs.World.{is_down, is_busy, is_up};
ghost use Rattle.geo_bio.specs.BioTable.{has_phase, is_going};

use crate::same::assert_same;
use geo_base::{BioCmd, BioId, Block, ConsId, Errno, HandleId, NoMemory, ProvId, SharedBytes};
use geo_bio::{BioTable, LogBytes, Risen, Targets};
use geo_class::PieceList;
use geo_model::{BioResult, Owner, Phase, Piece, Span};
use std::alloc::Global;
use std::process::Abort;
use std::test::Fail;

// A log whose place p has the p-th page.
#[derive(Drop)]
struct Pages {
    pages: Vec<SharedBytes>,
}

impl LogBytes for Pages {
    ghost use Rattle.std.specs.Prelude.{slice_get};

    ghost place_bytes = { λ log place. slice_get log.pages.items place };

    fn bytes_at(&self, place: u64) -> Option<&SharedBytes> {
        self.pages.get(place as usize)
    }
}

// A log of this many pages of 512 bytes, each filled with its number.
fn numbered_pages(alloc: Global, count: u8) -> Result<Pages, NoMemory> {
    let mut pages = Vec::new(alloc);
    for number in 0..count {
        let page = [number; 512];
        let block = Block::from_slice(alloc, &page)?;
        pages.push(SharedBytes::from_block(block))?;
    }
    Ok(Pages { pages })
}

// A READ of a line, of this many bytes.
fn submit_read(alloc: Global, table: &mut BioTable, len: u64) -> Result<BioId, NoMemory> {
    let span = Span { offset: 0, len };
    let owner = Owner::Line {
        handle: HandleId::new(1),
        line: 1,
    };
    let bytes = SharedBytes::none(alloc);
    table.submit(
        BioCmd::Read,
        span,
        bytes,
        ConsId::new(1),
        ProvId::new(1),
        owner,
    )
}

// A READ of a line that was split into this many pieces of 512 bytes.
fn split_read(alloc: Global, table: &mut BioTable, count: u32) -> Result<BioId, Fail> {
    let pieces = pages_as_pieces(alloc, count)?;
    let targets = same_target(alloc, count)?;
    let root = submit_read(alloc, table, count as u64 * 512)?;
    if count == 0 || !is_down(table, root) {
        return Err("nothing to split".into());
    }
    table.start(alloc, root, &pieces, &targets)?;
    Ok(root)
}

// So many pieces of 512 bytes, one after the other.
fn pages_as_pieces(alloc: Global, count: u32) -> Result<PieceList, NoMemory>
    ensures { IfOk result (λ pieces. length pieces.items ≡ count) }
{
    let mut pieces = PieceList::new(alloc);
    for child in 0..count {
        let at = child as u64 * 512;
        pieces.reserve(1)?;
        pieces.push(Piece {
            child: 0,
            span: Span {
                offset: at,
                len: 512,
            },
            at,
        });
    }
    Ok(pieces)
}

// The same target so many times.
fn same_target(alloc: Global, count: u32) -> Result<Targets, NoMemory>
    ensures { IfOk result (λ targets. length targets.items ≡ count) }
{
    let mut targets = Targets::new(alloc);
    for _child in 0..count {
        targets.reserve(1)?;
        targets.push((ConsId::new(1), ProvId::new(1)));
    }
    Ok(targets)
}

fn is_down(table: &BioTable, bio: BioId) -> bool
    ensures { result ≡ has_phase is_down table.now.bios bio }
{
    match table.get(bio) {
        Some(found) => matches!(found.phase, Phase::Down),
        None => false,
    }
}

// Whether the bio is on its way to its disk: it waits for no children, and isn't Done.
fn is_going(table: &BioTable, bio: BioId) -> bool
    ensures { result ≡ has_phase is_going table.now.bios bio }
{
    match table.get(bio) {
        Some(found) => !matches!(found.phase, Phase::Waiting | Phase::Done),
        None => false,
    }
}

fn is_busy(table: &BioTable, bio: BioId) -> bool
    ensures { result ≡ has_phase is_busy table.now.bios bio }
{
    match table.get(bio) {
        Some(found) => matches!(found.phase, Phase::Busy(_)),
        None => false,
    }
}

fn is_up(table: &BioTable, bio: BioId) -> bool
    ensures { result ≡ has_phase is_up table.now.bios bio }
{
    match table.get(bio) {
        Some(found) => matches!(found.phase, Phase::Up),
        None => false,
    }
}

// The bio's disk answers with the page of this place.
fn answer(table: &mut BioTable, bio: BioId, place: u64) -> Result<(), Fail> {
    if !is_going(table, bio) {
        return Err("not on its way".into());
    }
    table.set_phase(bio, Phase::Sent);
    if !is_going(table, bio) {
        return Err("not on its way to its disk".into());
    }
    table.set_phase(bio, Phase::Busy(0));
    if !is_busy(table, bio) {
        return Err("not busy".into());
    }
    table.deliver(bio, place, None);
    Ok(())
}

// The bio isn't let down.
fn bounce(table: &mut BioTable, bio: BioId, errno: Errno) -> Result<(), Fail> {
    if !is_down(table, bio) {
        return Err("not down".into());
    }
    table.bounce(bio, errno);
    Ok(())
}

fn up(alloc: Global, table: &mut BioTable, bio: BioId, log: &Pages) -> Result<Risen, Fail> {
    if !is_up(table, bio) {
        return Err("not up".into());
    }
    Ok(table.up(alloc, bio, log)?)
}

// The pieces of a READ of 64 come back, the last one first, and the last to come completes it.
fn come_back(
    rt: &impl Abort,
    alloc: Global,
    table: &mut BioTable,
    log: &Pages,
    root: BioId,
) -> Result<(), Fail> {
    let mut child = root.number().saturating_add(64);
    for place in (0..64u64).rev() {
        answer(table, BioId::new(child), place)?;
        let risen = up(alloc, table, BioId::new(child), log)?;
        assert!(rt; matches!(risen, Risen::InParent { complete, .. } if complete == (place == 0)));
        child = child.saturating_sub(1);
    }
    assert!(rt; matches!(table.next_from(root.number().saturating_add(1)), None));
    Ok(())
}

// These are 64 pages, each of which begins with its number.
fn assert_numbered(rt: &impl Abort, bytes: &[u8]) {
    assert_same(rt, bytes.len(), 64 * 512);
    for place in 0..64usize {
        assert_same(rt, bytes.get(place * 512).copied(), Some(place as u8));
    }
}

// A READ is split into 64 pieces, which come back, and goes up with the bytes of all.
fn join_reversed(
    rt: &impl Abort,
    alloc: Global,
    table: &mut BioTable,
    log: &Pages,
) -> Result<(), Fail> {
    let root = split_read(alloc, table, 64)?;
    come_back(rt, alloc, table, log, root)?;
    let Risen::Root(BioResult::Bytes(bytes)) = up(alloc, table, root, log)? else {
        return Err("no bytes".into());
    };
    assert_numbered(rt, bytes.bytes());
    Ok(())
}

#[test]
fn pieces_delivered_in_reverse_are_joined_in_order(rt: HostRuntime) -> Result<(), Fail> {
    let log = numbered_pages(rt.alloc(), 64)?;
    let mut table = BioTable::new(rt.alloc());
    let joined = join_reversed(&rt, rt.alloc(), &mut table, &log);
    drop(table);
    drop(log);
    joined
}

// Both pieces of a READ fail, the second one first. What becomes of the READ.
fn fail_both(alloc: Global, table: &mut BioTable, log: &Pages) -> Result<Risen, Fail> {
    let root = split_read(alloc, table, 2)?;
    for (after, errno) in [(2u64, Errno::ENXIO), (1, Errno::EIO)] {
        let child = BioId::new(root.number().saturating_add(after));
        bounce(table, child, errno)?;
        let _ = up(alloc, table, child, log)?;
    }
    up(alloc, table, root, log)
}

#[test]
fn the_first_failed_piece_gives_the_error(rt: HostRuntime) -> Result<(), Fail> {
    let log = numbered_pages(rt.alloc(), 2)?;
    let mut table = BioTable::new(rt.alloc());
    let risen = fail_both(rt.alloc(), &mut table, &log);
    drop(table);
    drop(log);
    assert!(rt; matches!(risen?, Risen::Root(BioResult::Failed(Errno::EIO))));
    Ok(())
}

#[test]
fn room_is_made_for_bios(rt: HostRuntime) -> Result<(), Fail> {
    let mut table = BioTable::new(rt.alloc());
    table.reserve(2)?;
    for number in 1..3u64 {
        let root = submit_read(rt.alloc(), &mut table, 512)?;
        assert_same(&rt, root.number(), number);
    }
    assert!(rt; matches!(table.next_from(2), Some(last) if last.number() == 2));
    assert!(rt; matches!(table.next_from(3), None));
    Ok(())
}
