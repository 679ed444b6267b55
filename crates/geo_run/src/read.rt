//! What the source gives, read to its end.
ghost use Rattle.std.specs.Prelude.{IfErr, IfOk};
ghost use Rattle.geo_run.specs.Calls.{ReadsPart, ReadsWhole};

use crate::stop::Stop;
use geo_base::Block;
use geo_io::{ReadRefusal, Source, read_all};
use std::alloc::Global;

/// All that the source gives, if that is at most so many bytes; else why it wasn't read to its end.
pub fn read_source<S: Source>(alloc: Global, source: &mut S, limit: u32) -> Result<Block, Stop>
    ensures whole { IfOk result (λ text. ReadsWhole limit (S.view source.old) (S.view source.new) text) }
    ensures part { IfErr result (λ stop. ReadsPart limit (S.view source.old) (S.view source.new) stop) }
{
    match read_all(alloc, source, limit) {
        Ok(text) => Ok(text),
        Err(ReadRefusal::ReadFault) => Err(Stop::ReadFault),
        Err(ReadRefusal::TooLong) => Err(Stop::TooLong),
        Err(ReadRefusal::NoMemory) => Err(Stop::NoMemory),
    }
}
