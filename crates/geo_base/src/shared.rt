//! Bytes that have several holders.
ghost use Rattle.std.specs.Prelude.{◌≡◌, ℕ, ◌≤◌, List, [], length, take, drop, slice_range, IfOk};
ghost use Rattle.std.specs.Arc.{arc_value};
ghost use Rattle.geo_base.specs.Shared.{IsWithin};

use crate::block::{Block, NoMemory};
use std::alloc::Global;
use std::marker::Model;
use std::sync::Arc;

/// Bytes that are written no more, which contracts see as their list. What was shared once has its bytes once, however
/// many copies and parts of it there are.
#[derive(Debug, Drop)]
pub struct SharedBytes {
    cells: Cells,
}

// Where bytes are: with one holder, or those of all that share them from a start on, and before an end.
#[derive(Debug, Drop)]
enum Cells {
    Own(Block),
    Shared {
        all: Arc<Block>,
        start: usize,
        end: usize,
    },
}

impl Model for SharedBytes {
    ghost use Rattle.std.specs.Prelude.{ℕ, List};
    ghost use Rattle.geo_base.specs.Shared.{bytes_in, AreWithin};

    ghost Value = { List ℕ };

    ghost view = { λ shared. bytes_in shared.cells };

    ghost invariant = { λ shared. AreWithin shared.cells };
}

impl SharedBytes {
    /// The bytes of a block, which are moved and not copied. They have one holder.
    pub fn from_block(block: Block) -> SharedBytes
        ensures { result ≡ block }
    {
        SharedBytes {
            cells: Cells::Own(block),
        }
    }

    /// No bytes. It takes no memory.
    pub fn none(alloc: Global) -> SharedBytes
        ensures { result ≡ [] }
    {
        SharedBytes::from_block(Block::from_vec(Vec::new(alloc)))
    }

    /// The same bytes, so that a copy or a part of them needs no bytes of its own. Where memory is wanting they have
    /// one holder still.
    pub fn share(self, alloc: Global) -> SharedBytes
        ensures { result ≡ self }
    {
        match self.cells {
            Cells::Own(block) => {
                let end = block.len();
                match Arc::new(alloc, block) {
                    Ok(all) => SharedBytes {
                        cells: Cells::Shared { all, start: 0, end },
                    },
                    Err(failed) => SharedBytes::from_block(failed.value),
                }
            }
            cells => SharedBytes { cells },
        }
    }

    /// The same bytes once more: another holder of what is shared, else a copy.
    pub fn copy(&self, alloc: Global) -> Result<SharedBytes, NoMemory>
        ensures { IfOk result (λ copied. copied ≡ self.now) }
    {
        match &self.cells {
            Cells::Own(block) => Ok(SharedBytes::from_block(block.copy(alloc)?)),
            Cells::Shared { all, start, end } => another(all, *start, *end),
        }
    }

    /// So many of the bytes from a place on, or as many as there are: another holder of what is shared, else a copy.
    pub fn part(&self, alloc: Global, from: u64, len: u64) -> Result<SharedBytes, NoMemory>
        ensures { IfOk result (λ part. part ≡ take len (drop from self.now)) }
    {
        match &self.cells {
            Cells::Own(block) => {
                let (first, last) = places(0, block.len(), from, len);
                let part = Block::from_slice(alloc, &block.bytes()[first..last])?;
                Ok(SharedBytes::from_block(part))
            }
            Cells::Shared { all, start, end } => {
                let (first, last) = places(*start, *end, from, len);
                another(all, first, last)
            }
        }
    }

    /// The bytes.
    pub fn bytes(&self) -> &[u8]
        ensures { result.now ≡ self.now }
    {
        match &self.cells {
            Cells::Own(block) => block.bytes(),
            Cells::Shared { all, start, end } => &all.bytes()[*start..*end],
        }
    }

    /// The number of bytes.
    pub fn len(&self) -> usize
        ensures { result ≡ length self.now }
    {
        match &self.cells {
            Cells::Own(block) => block.len(),
            Cells::Shared { start, end, .. } => *end - *start,
        }
    }
}

// Another holder of a block, for its bytes from a start on and before an end.
fn another(all: &Arc<Block>, start: usize, end: usize) -> Result<SharedBytes, NoMemory>
    requires { IsWithin (arc_value all.now) start end }
    ensures { IfOk result (λ shared. shared ≡ slice_range (arc_value all.now) start end) }
{
    Ok(SharedBytes {
        cells: Cells::Shared {
            all: Arc::try_clone(all)?,
            start,
            end,
        },
    })
}

// Where so many bytes from a place on begin and end, or as many as there are, among those from a start on and before an
// end.
#[tactic(auto, using(crate::proofs::Parts::part_within))]
fn places(start: usize, end: usize, from: u64, len: u64) -> (usize, usize)
    requires { start ≤ end }
    ensures rising { result.0 ≤ result.1 }
    ensures inside { result.1 ≤ end }
    ensures part { (bytes : List ℕ) → end ≤ length bytes
        → slice_range bytes result.0 result.1 ≡ take len (drop from (slice_range bytes start end)) }
{
    let first = start + (end - start).min(from as usize);
    (first, first + (end - first).min(len as usize))
}
