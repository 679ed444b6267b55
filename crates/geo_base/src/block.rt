//! Bytes that are owned.
ghost use Rattle.std.specs.Prelude.{◌≡◌, ℕ, ◌≤◌, length, IfOk, take, replicate};

use std::alloc::{AllocError, AllocFailed, Global};
use std::marker::Model;
use thiserror::Error;

/// Memory ran out. It may come from each call that allocates, and from no other.
#[derive(Clone, Copy, Debug, PartialEq, Eq, Error)]
#[error("out of memory")]
pub struct NoMemory;

impl From<AllocError> for NoMemory {
    fn from(_error: AllocError) -> NoMemory {
        NoMemory
    }
}

impl<T: Drop> From<AllocFailed<T>> for NoMemory {
    fn from(_error: AllocFailed<T>) -> NoMemory {
        NoMemory
    }
}

/// A block of bytes, which contracts see as their list.
#[derive(Debug, Drop)]
pub struct Block {
    cells: Vec<u8>,
}

impl Model for Block {
    ghost use Rattle.std.specs.Prelude.{ℕ, List};

    ghost Value = { List ℕ };

    ghost view = { λ block. block.cells.items };
}

impl Block {
    ghost use Rattle.std.specs.Borrow.{Lends, sem, u8, Array};
    ghost use Rattle.geo_base.specs.Written.{written_over};
    ghost use Rattle.geo_base.specs.contracts.block.Block.{the_row};

    /// A block with a copy of these bytes.
    pub fn from_slice(alloc: Global, bytes: &[u8]) -> Result<Block, NoMemory>
        ensures { IfOk result (λ block. block ≡ bytes.now) }
    {
        Ok(Block {
            cells: bytes.to_vec(alloc)?,
        })
    }

    /// A block with the same bytes.
    pub fn copy(&self, alloc: Global) -> Result<Block, NoMemory>
        ensures { IfOk result (λ block. block ≡ self.now) }
    {
        Block::from_slice(alloc, self.bytes())
    }

    /// A block of `len` zero bytes.
    pub fn zeros(alloc: Global, len: u32) -> Result<Block, NoMemory>
        ensures { IfOk result (λ block. block ≡ replicate len 0) }
    {
        Ok(Block {
            cells: vec![in alloc; 0u8; len as usize]?,
        })
    }

    /// The block of these bytes, which are moved and not copied.
    pub fn from_vec(bytes: Vec<u8>) -> Block
        ensures { result ≡ bytes.items }
    {
        Block { cells: bytes }
    }

    /// The bytes.
    pub fn bytes(&self) -> &[u8]
        ensures { result.now ≡ self.now }
    {
        self.cells.as_slice()
    }

    /// The bytes, to be written. Their number stays.
    pub fn bytes_mut(&mut self) -> &mut [u8]
        ensures* writes_back { sem 𝓛 (Lends the_row (Array u8 0) self.entry result (written_over self.old)) }
        ensures value { result.now ≡ self.old }
    {
        self.cells.as_mut_slice()
    }

    /// The number of bytes.
    pub fn len(&self) -> usize
        ensures { result ≡ length self.now }
    {
        self.cells.len()
    }

    /// The first `len` bytes stay.
    pub fn cut(&mut self, len: u32)
        requires { len ≤ length self.old }
        ensures { self.new ≡ take len self.old }
    {
        self.cells.truncate(len as usize);
    }
}
