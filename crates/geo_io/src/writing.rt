//! Writing all bytes to a sink.
ghost use Rattle.std.specs.Prelude.{◌≡◌, ◌≤◌, ◌<◌, IfErr, IfOk, OnErr, OnOk, length, take};
ghost use Rattle.geo_base.specs.Faults.{HasCause};
ghost use Rattle.geo_io.specs.Counts.{FailedAtLast};
ghost use Rattle.geo_io.specs.Sink.{SinkView, Takes, TakesNothing};

use crate::sink::Sink;
use thiserror::Error;

/// A write failed, after so many bytes.
#[derive(Clone, Copy, Debug, PartialEq, Eq, Error)]
#[error("write fault after {written} bytes")]
pub struct WriteFault {
    pub written: u64,
}

/// Writes once, from the place `done` on, and says up to where the bytes are written then.
fn write_on<K: Sink>(sink: &mut K, bytes: &[u8], done: usize) -> Result<usize, WriteFault>
    requires { done < length bytes.now }
    ensures on { IfOk result (λ now. done < now) }
    ensures inside { IfOk result (λ now. now ≤ length bytes.now) }
    ensures grown { IfOk result (λ now. (first : SinkView) → Takes first (take done bytes.now) (K.view sink.old)
        → Takes first (take now bytes.now) (K.view sink.new)) }
    ensures err { OnErr result (TakesNothing (K.view sink.old) (K.view sink.new)) }
    ensures written { IfErr result (λ fault. fault.written ≡ done) }
    ensures cause { HasCause (K.view sink.old).faults (K.view sink.new).faults result }
    ensures told { OnOk result ((K.view sink.new).faults ≡ (K.view sink.old).faults) }
    ensures one { OnErr result (FailedAtLast (K.view sink.old).faults (K.view sink.new).faults (K.view sink.new).failed) }
{
    match sink.write(&bytes[done..]) {
        Ok(count) => Ok(done + count),
        Err(_) => Err(WriteFault {
            written: done as u64,
        }),
    }
}

/// Appends all the bytes. Where a write fails, exactly the first `written` bytes were appended, and no write comes
/// after it.
pub fn write_out<K: Sink>(sink: &mut K, bytes: &[u8]) -> Result<(), WriteFault>
    ensures ok { OnOk result (Takes (K.view sink.old) bytes.now (K.view sink.new)) }
    ensures some_left { IfErr result (λ fault. fault.written < length bytes.now) }
    ensures err { IfErr result (λ fault. Takes (K.view sink.old) (take fault.written bytes.now) (K.view sink.new)) }
    ensures cause { HasCause (K.view sink.old).faults (K.view sink.new).faults result }
    ensures told { OnOk result ((K.view sink.new).faults ≡ (K.view sink.old).faults) }
    ensures one { OnErr result (FailedAtLast (K.view sink.old).faults (K.view sink.new).faults (K.view sink.new).failed) }
{
    let mut done = 0;
    while done < bytes.len() {
        match write_on(sink, bytes, done) {
            Ok(now) => done = now,
            Err(fault) => return Err(fault),
        }
    }
    Ok(())
}
