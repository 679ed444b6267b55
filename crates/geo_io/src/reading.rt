//! Reading a source to its end.
ghost use Rattle.std.specs.Prelude.{◌≡◌, ◌+◌, ◌≤◌, ◌<◌, ◌^◌, [], length, vec_len, IfOk, OnOk, IsErrOf};
ghost use Rattle.geo_base.specs.Faults.{Rose};
ghost use Rattle.geo_io.specs.Counts.{FailedAtLast};
ghost use Rattle.geo_io.specs.Source.{Gives, GivesAtMost, GivesMany, GivesNothing, IsAtEnd, SourceView};

use crate::source::Source;
use geo_base::Block;
use std::alloc::Global;
use thiserror::Error;

/// Why a source wasn't read whole.
#[derive(Clone, Copy, Debug, PartialEq, Eq, Error)]
pub enum ReadRefusal {
    /// A read failed.
    #[error("read fault")]
    ReadFault,
    /// The source gave more bytes than the limit.
    #[error("too long")]
    TooLong,
    /// Memory ran out.
    #[error("out of memory")]
    NoMemory,
}

/// How many bytes a read asks for at most.
const PIECE: usize = 4096;

/// Reads once, and puts what comes behind `bytes`.
fn read_piece<S: Source>(
    source: &mut S,
    piece: &mut [u8],
    bytes: &mut Vec<u8>,
) -> Result<usize, ReadRefusal>
    requires { 0 < length piece.old }
    ensures taken { IfOk result (λ _. (first : SourceView) → Gives first bytes.old.items (S.view source.old)
        → Gives first bytes.new.items (S.view source.new)) }
    ensures grown { IfOk result (λ n. vec_len bytes.new ≡ vec_len bytes.old + n) }
    ensures bound { IfOk result (λ n. n ≤ length piece.old) }
    ensures end { IfOk result (λ n. n ≡ 0 → IsAtEnd (S.view source.new)) }
    ensures not_long { IsErrOf result ReadRefusal.TooLong → ⊥ }
    ensures fault { IsErrOf result ReadRefusal.ReadFault → Rose (S.view source.old).faults (S.view source.new).faults }
    ensures one { IsErrOf result ReadRefusal.ReadFault
        → FailedAtLast (S.view source.old).faults (S.view source.new).faults (S.view source.new).failed }
    ensures fault_left { IsErrOf result ReadRefusal.ReadFault → GivesNothing (S.view source.old) (S.view source.new) }
    ensures lost { IsErrOf result ReadRefusal.NoMemory → GivesAtMost (S.view source.old) (length piece.old)
        (S.view source.new) }
    ensures later { (S.view source.old).faults ≤ (S.view source.new).faults }
    ensures told { (IsErrOf result ReadRefusal.ReadFault → ⊥)
        → (S.view source.new).faults ≡ (S.view source.old).faults }
    ensures once { (S.view source.new).reads ≤ (S.view source.old).reads + 1 }
{
    match source.read(piece) {
        Ok(count) => match bytes.extend_from_slice(&piece[..count]) {
            Ok(()) => Ok(count),
            Err(_) => Err(ReadRefusal::NoMemory),
        },
        Err(_) => Err(ReadRefusal::ReadFault),
    }
}

/// Reads to the end, through `piece`.
fn read_through<S: Source>(
    source: &mut S,
    piece: &mut [u8],
    bytes: &mut Vec<u8>,
    limit: usize,
) -> Result<(), ReadRefusal>
    requires whole { length piece.old ≡ PIECE }
    requires empty { bytes.old.items ≡ [] }
    requires small { limit < 2 ^ 32 }
    ensures all { OnOk result (Gives (S.view source.old) bytes.new.items (S.view source.new)) }
    ensures end { OnOk result (IsAtEnd (S.view source.new)) }
    ensures within { OnOk result (vec_len bytes.new ≤ limit) }
    ensures too_long { IsErrOf result ReadRefusal.TooLong → GivesMany (S.view source.old) (limit + 1)
        (S.view source.new) }
    ensures fault { IsErrOf result ReadRefusal.ReadFault → Rose (S.view source.old).faults (S.view source.new).faults }
    ensures one { IsErrOf result ReadRefusal.ReadFault
        → FailedAtLast (S.view source.old).faults (S.view source.new).faults (S.view source.new).failed }
    ensures fault_taken { IsErrOf result ReadRefusal.ReadFault
        → GivesAtMost (S.view source.old) limit (S.view source.new) }
    ensures lost { IsErrOf result ReadRefusal.NoMemory → GivesAtMost (S.view source.old) (limit + 1)
        (S.view source.new) }
    ensures later { (S.view source.old).faults ≤ (S.view source.new).faults }
    ensures told { (IsErrOf result ReadRefusal.ReadFault → ⊥)
        → (S.view source.new).faults ≡ (S.view source.old).faults }
    ensures reads { (S.view source.new).reads ≤ (S.view source.old).reads + (limit + 2) }
{
    for turn in 0..limit + 2 {
        let room = PIECE.min(limit + 1 - bytes.len());
        let count = read_piece(source, &mut piece[..room], bytes)?;
        if count == 0 {
            return Ok(());
        }
        if bytes.len() > limit {
            return Err(ReadRefusal::TooLong);
        }
    }
    unreachable!()
}

/// All the bytes that are left, if they are at most `limit`. It reads at most `limit + 2` times, and takes at most
/// `limit + 1` bytes; so many after `TooLong`.
pub fn read_all<S: Source>(alloc: Global, source: &mut S, limit: u32) -> Result<Block, ReadRefusal>
    ensures all { IfOk result (λ block. Gives (S.view source.old) block (S.view source.new)) }
    ensures end { OnOk result (IsAtEnd (S.view source.new)) }
    ensures within { IfOk result (λ block. length block ≤ limit) }
    ensures too_long { IsErrOf result ReadRefusal.TooLong → GivesMany (S.view source.old) (limit + 1)
        (S.view source.new) }
    ensures fault { IsErrOf result ReadRefusal.ReadFault → Rose (S.view source.old).faults (S.view source.new).faults }
    ensures one { IsErrOf result ReadRefusal.ReadFault
        → FailedAtLast (S.view source.old).faults (S.view source.new).faults (S.view source.new).failed }

    // What was taken is lost.
    ensures fault_taken { IsErrOf result ReadRefusal.ReadFault
        → GivesAtMost (S.view source.old) limit (S.view source.new) }
    ensures lost { IsErrOf result ReadRefusal.NoMemory → GivesAtMost (S.view source.old) (limit + 1)
        (S.view source.new) }

    ensures later { (S.view source.old).faults ≤ (S.view source.new).faults }
    ensures told { (IsErrOf result ReadRefusal.ReadFault → ⊥)
        → (S.view source.new).faults ≡ (S.view source.old).faults }
    ensures reads { (S.view source.new).reads ≤ (S.view source.old).reads + (limit + 2) }
{
    let Ok(mut piece) = vec![in alloc; 0u8; PIECE] else {
        return Err(ReadRefusal::NoMemory);
    };
    let mut bytes: Vec<u8> = Vec::new(alloc);
    read_through(source, &mut piece, &mut bytes, limit as usize)?;
    Ok(Block::from_vec(bytes))
}
