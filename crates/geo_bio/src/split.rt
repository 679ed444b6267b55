//! A bio is split into its children.
ghost use Rattle.std.specs.Prelude.{◌≡◌, ◌+◌, ◌-◌, ◌<◌, ◌≤◌, ◌^◌, ◌++◌, length, IfOk, IfSome, MatchOption, Some, vec_len};
ghost use Rattle.geo_slots.specs.Slots.{value_at, with_value};
ghost use Rattle.geo_bio.specs.Split.{child_for, children_for, waiting, with_all, numbered};

use crate::bio::Bio;
use geo_base::{BioId, ConsId, NoMemory, ProvId};
use geo_model::{Owner, Phase, Piece};
use geo_slots::Slots;
use std::alloc::Global;

// The child of a bio for a piece, with the piece's bytes.
fn child_of(
    alloc: Global,
    parent: BioId,
    bio: &Bio,
    index: u32,
    piece: Piece,
    target: (ConsId, ProvId),
) -> Result<Bio, NoMemory>
    ensures { IfOk result (λ child. child ≡ child_for parent bio.now index piece target) }
{
    Ok(Bio {
        cmd: bio.cmd,
        span: piece.span,
        bytes: bio.bytes.part(alloc, piece.at, piece.span.len)?,
        from: target.0,
        to: target.1,
        owner: Owner::Child { parent, index },
        phase: Phase::Down,
        children: 0,
        finished: 0,
        first_child: 0,
        held: None,
    })
}

// The children of a bio, one for each piece, in piece order.
pub fn make_children(
    alloc: Global,
    parent: BioId,
    bio: &Bio,
    pieces: &[Piece],
    targets: &[(ConsId, ProvId)],
) -> Result<Vec<Bio>, NoMemory>
    requires few { length pieces.now < 2 ^ 32 }
    requires same_number { length targets.now ≡ length pieces.now }
    ensures { IfOk result (λ children. children.items ≡ children_for parent bio.now 0 pieces.now targets.now) }
{
    let mut children = Vec::with_capacity(alloc, pieces.len())?;
    for index in 0..pieces.len() {
        children.push(child_of(
            alloc,
            parent,
            bio,
            index as u32,
            pieces[index],
            targets[index],
        )?)?;
    }
    Ok(children)
}

// Puts children under the next numbers, in order, and tells the number of the last.
pub fn insert_all(bios: &mut Slots<Bio>, children: Vec<Bio>) -> u64
    requires { vec_len children ≤ bios.old.spare }
    ensures inserted { bios.new ≡ with_all bios.old children.items }
    ensures last { 1 ≤ vec_len children → result + 1 ≡ bios.old.next + vec_len children }
{
    let mut last = 0u64;
    for child in children {
        last = bios.insert(child);
    }
    last
}

// The bio of a number, if there is one, waits for its children.
pub fn wait_for(bios: &mut Slots<Bio>, number: u64, children: u32, first_child: u64)
    ensures waits { MatchOption (value_at bios.old.rows number) (bios.new ≡ bios.old) (λ x.
        bios.new ≡ record bios.old { rows = with_value bios.old.rows number (waiting children first_child x) }) }
    ensures bound { bios.new.next < 2 ^ 64 }
{
    if let Some(bio) = bios.get_mut(number) {
        bio.phase = Phase::Waiting;
        bio.children = children;
        bio.finished = 0;
        bio.first_child = first_child;
    }
}

// Puts the children of the bio of a number at the end of the table; the bio waits for them. The first one's number
// is told.
pub fn split_bio(bios: &mut Slots<Bio>, number: u64, children: Vec<Bio>) -> u64
    requires some { 1 ≤ vec_len children }
    requires few { vec_len children < 2 ^ 32 }
    requires room { vec_len children ≤ bios.old.spare }
    ensures first { result ≡ bios.old.next }
    ensures rows { let rows = bios.old.rows ++ numbered bios.old.next children.items in
        IfSome (value_at rows number) (λ x. bios.new.rows
        ≡ with_value rows number (waiting (length children.items) bios.old.next x)) }
    ensures next { bios.new.next ≡ bios.old.next + length children.items }
    ensures room { bios.new.spare ≡ bios.old.spare - length children.items }
    ensures bound { bios.new.next < 2 ^ 64 }
{
    let count = children.len();
    let last = insert_all(bios, children);
    let first = last - (count as u64 - 1);
    wait_for(bios, number, count as u32, first);
    first
}
