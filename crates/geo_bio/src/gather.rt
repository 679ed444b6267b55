//! A bio goes up, and its parent gathers what its children hold.
ghost use Rattle.std.specs.Prelude.{◌≡◌, ◌≢◌, ◌+◌, ◌<◌, ◌^◌, ◌++◌, [], IfOk, IfSome, OnOk, OnErr, MatchOption, unwrap_or};
ghost use Rattle.geo_slots.specs.Slots.{value_at, with_value, without};
ghost use Rattle.std.specs.Option.{option_and_then, option_map_or};
ghost use Rattle.geo_model.specs.Bios.{bytes_of_result};
ghost use Rattle.geo_bio.specs.Up.{resolved};
ghost use Rattle.geo_bio.specs.Gather.{held_error, error_from, bytes_from, without_all, counted, held_from, is_last, rows_up};

use crate::bio::{Bio, Held, Risen};
use crate::log_bytes::LogBytes;
use crate::rows::{end_with, set_phase};
use geo_base::{BioCmd, BioId, Block, Errno, NoMemory, SharedBytes};
use geo_model::{BioResult, Phase};
use geo_slots::Slots;
use std::alloc::Global;

/// The bytes of a place of the log, once more; none where the place has none.
pub fn copied_at<B: LogBytes>(alloc: Global, place: u64, log: &B) -> Result<SharedBytes, NoMemory>
    ensures { IfOk result (λ copied. copied ≡ unwrap_or (B.place_bytes log.now place) []) }
{
    match log.bytes_at(place) {
        Some(bytes) => bytes.copy(alloc),
        None => Ok(SharedBytes::none(alloc)),
    }
}

// A root is taken out, and its result handed on.
pub fn take_root<B: LogBytes>(
    bios: &mut Slots<Bio>,
    alloc: Global,
    number: u64,
    log: &B,
) -> Result<Risen, NoMemory>
    ensures told { IfSome (value_at bios.old.rows number) (λ x.
        IfOk result (λ risen. risen ≡ Risen.Root (resolved (B.place_bytes log.now) x.held))) }
    ensures gone { OnOk result (bios.new ≡ record bios.old { rows = without bios.old.rows number }) }
    ensures stays { OnErr result (bios.new ≡ bios.old) }
{
    // What may want memory comes first: where it is wanting, the root stays.
    let copied = match bios.get(number) {
        Some(bio) => match &bio.held {
            Some(Held::AtPlace(place)) => Some(copied_at(alloc, *place, log)?),
            _ => None,
        },
        None => None,
    };
    let held = match bios.remove(number) {
        Some(mut bio) => bio.held.take(),
        None => None,
    };
    Ok(Risen::Root(match (held, copied) {
        (Some(Held::Failed(errno)), _) => BioResult::Failed(errno),
        (Some(Held::Bytes(bytes)), _) => BioResult::Bytes(bytes),
        (Some(Held::AtPlace(_)), Some(bytes)) => BioResult::Bytes(bytes),
        _ => BioResult::Done,
    }))
}

// The error that the bio of a number holds.
fn error_of(bios: &Slots<Bio>, number: u64) -> Option<Errno>
    ensures { result ≡ option_and_then (λ x. held_error x.held) (value_at bios.now.rows number) }
{
    match bios.get(number) {
        Some(bio) => match &bio.held {
            Some(Held::Failed(errno)) => Some(*errno),
            _ => None,
        },
        None => None,
    }
}

// The first error among children whose numbers follow each other, in their order.
fn first_failure(bios: &Slots<Bio>, first: u64, count: u32) -> Option<Errno>
    requires { first + count < 2 ^ 64 }
    ensures { result ≡ error_from bios.now.rows first count }
{
    for place in 0..count as u64 {
        if let Some(errno) = error_of(bios, first + place) {
            return Some(errno);
        }
    }
    None
}

// The bytes of a place of the log; none where the place has none.
fn bytes_of<B: LogBytes>(place: u64, log: &B) -> &[u8]
    ensures { result.now ≡ unwrap_or (B.place_bytes log.now place) [] }
{
    match log.bytes_at(place) {
        Some(bytes) => bytes.bytes(),
        None => &[],
    }
}

// Adds the bytes that a bio holds, if it holds some.
fn push_bytes<B: LogBytes>(bytes: &mut Vec<u8>, bio: &Bio, log: &B) -> Result<(), NoMemory>
    ensures { OnOk result (bytes.new.items ≡ bytes.old.items
        ++ bytes_of_result (resolved (B.place_bytes log.now) bio.now.held)) }
{
    match &bio.held {
        Some(Held::Bytes(part)) => bytes.extend_from_slice(part.bytes())?,
        Some(Held::AtPlace(at)) => bytes.extend_from_slice(bytes_of(*at, log))?,
        _ => {}
    }
    Ok(())
}

// Adds the bytes that the bio of a number holds, if it is there and holds some.
fn push_bytes_at<B: LogBytes>(
    bytes: &mut Vec<u8>,
    bios: &Slots<Bio>,
    number: u64,
    log: &B,
) -> Result<(), NoMemory>
    ensures { OnOk result (bytes.new.items ≡ bytes.old.items
        ++ option_map_or (λ x. bytes_of_result (resolved (B.place_bytes log.now) x.held))
        (value_at bios.now.rows number) []) }
{
    match bios.get(number) {
        Some(bio) => push_bytes(bytes, bio, log),
        None => Ok(()),
    }
}

// The bytes of children whose numbers follow each other, joined in their order.
fn joined<B: LogBytes>(
    alloc: Global,
    bios: &Slots<Bio>,
    first: u64,
    count: u32,
    len: u64,
    log: &B,
) -> Result<SharedBytes, NoMemory>
    requires { first + count < 2 ^ 64 }
    ensures { IfOk result (λ block. block ≡ bytes_from (B.place_bytes log.now) bios.now.rows first count) }
{
    let mut bytes = Vec::with_capacity(alloc, len as usize)?;
    for place in 0..count as u64 {
        push_bytes_at(&mut bytes, bios, first + place, log)?;
    }
    Ok(SharedBytes::from_block(Block::from_vec(bytes)))
}

// The bytes that a bio holds, once more; none where it holds none.
fn bytes_again<B: LogBytes>(alloc: Global, bio: &Bio, log: &B) -> Result<SharedBytes, NoMemory>
    ensures { IfOk result (λ bytes. bytes ≡ bytes_of_result (resolved (B.place_bytes log.now) bio.now.held)) }
{
    match &bio.held {
        Some(Held::Bytes(bytes)) => bytes.copy(alloc),
        Some(Held::AtPlace(place)) => copied_at(alloc, *place, log),
        _ => Ok(SharedBytes::none(alloc)),
    }
}

// The bytes that the bio of a number holds, once more; none where it isn't there or holds none.
fn bytes_again_at<B: LogBytes>(
    alloc: Global,
    bios: &Slots<Bio>,
    number: u64,
    log: &B,
) -> Result<SharedBytes, NoMemory>
    ensures { IfOk result (λ bytes. bytes ≡ option_map_or
        (λ x. bytes_of_result (resolved (B.place_bytes log.now) x.held)) (value_at bios.now.rows number) []) }
{
    match bios.get(number) {
        Some(bio) => bytes_again(alloc, bio, log),
        None => Ok(SharedBytes::none(alloc)),
    }
}

// The bytes of the children of a bio, in the order of its pieces: it shares those of an only child, and those of
// several are joined.
fn gathered_bytes<B: LogBytes>(
    alloc: Global,
    bios: &Slots<Bio>,
    parent: &Bio,
    log: &B,
) -> Result<SharedBytes, NoMemory>
    requires { parent.now.first_child + parent.now.children < 2 ^ 64 }
    ensures { IfOk result (λ bytes. bytes
        ≡ bytes_from (B.place_bytes log.now) bios.now.rows parent.now.first_child parent.now.children) }
{
    let (first, count) = (parent.first_child, parent.children);
    if count == 1 {
        bytes_again_at(alloc, bios, first, log)
    } else {
        joined(alloc, bios, first, count, parent.span.len, log)
    }
}

// What a parent holds once its children are in: the first error in the order of its pieces, else the bytes joined.
fn gathered<B: LogBytes>(
    alloc: Global,
    bios: &Slots<Bio>,
    parent: &Bio,
    log: &B,
) -> Result<Held, NoMemory>
    requires { parent.now.first_child + parent.now.children < 2 ^ 64 }
    ensures { IfOk result (λ h. h ≡ held_from (B.place_bytes log.now) bios.now.rows parent.now) }
{
    match (
        first_failure(bios, parent.first_child, parent.children),
        parent.cmd,
    ) {
        (Some(errno), _) => Ok(Held::Failed(errno)),
        (None, BioCmd::Read) => Ok(Held::Bytes(gathered_bytes(alloc, bios, parent, log)?)),
        (None, _) => Ok(Held::Done),
    }
}

// Takes out the children whose numbers follow each other.
fn remove_all(bios: &mut Slots<Bio>, first: u64, count: u32)
    requires { first + count < 2 ^ 64 }
    ensures { bios.new ≡ record bios.old { rows = without_all bios.old.rows first count } }
{
    for place in 0..count as u64 {
        let _ = bios.remove(first + place);
    }
}

// One more child of a parent is in.
fn count_child(bios: &mut Slots<Bio>, parent: u64)
    requires { IfSome (value_at bios.old.rows parent) (λ x. x.finished + 1 < 2 ^ 32) }
    ensures { MatchOption (value_at bios.old.rows parent) (bios.new ≡ bios.old) (λ x.
        bios.new ≡ record bios.old { rows = with_value bios.old.rows parent (counted x) }) }
{
    if let Some(bio) = bios.get_mut(parent) {
        bio.finished += 1;
    }
}

// A child goes up: it is Done and counts in its parent, which goes up with what it gathers where all are in.
pub fn rise_in<B: LogBytes>(
    bios: &mut Slots<Bio>,
    alloc: Global,
    number: u64,
    parent: BioId,
    log: &B,
) -> Result<Risen, NoMemory>
    requires apart { parent ≢ number }
    requires counts { IfSome (value_at bios.old.rows parent) (λ y. y.finished + 1 < 2 ^ 32) }
    requires follow { IfSome (value_at bios.old.rows parent) (λ y. y.first_child + y.children < 2 ^ 64) }
    ensures told { IfSome (value_at bios.old.rows parent) (λ y. IfOk result (λ risen.
        risen ≡ Risen.InParent parent (is_last y))) }
    ensures rises { IfSome (value_at bios.old.rows parent) (λ y. OnOk result
        (bios.new ≡ record bios.old { rows = rows_up (B.place_bytes log.now) bios.old.rows number parent y })) }
    ensures stays { OnErr result (bios.new ≡ bios.old) }
{
    let Some(waiting) = bios.get(parent.number()) else {
        return Ok(Risen::InParent {
            parent,
            complete: false,
        });
    };
    let (first, count) = (waiting.first_child, waiting.children);
    let complete = waiting.finished + 1 == count;
    if complete {
        let held = gathered(alloc, bios, waiting, log)?;
        remove_all(bios, first, count);
        end_with(bios, parent.number(), held);
    } else {
        set_phase(bios, number, Phase::Done);
        count_child(bios, parent.number());
    }
    Ok(Risen::InParent { parent, complete })
}
