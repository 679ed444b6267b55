//! What is done for a request when it comes.
ghost use Rattle.std.specs.Prelude.{◌≡◌, Some, length, IfOk};
ghost use Rattle.geo_server.specs.declared.judging.Judged.TheVariants as judgements;
ghost use Rattle.geo_server.specs.Judging.{data_len, judge};
ghost use Rattle.geo_server.specs.Service.{asked_by};
ghost use Rattle.geo_server.specs.Serving.{failed};
ghost use Rattle.geo_server.specs.Whole.{IsAsked};
ghost use Rattle.geo_connection.specs.Turns.{IsMet, MeetsAs};

use geo_base::{BioCmd, NoMemory, SharedBytes};
use geo_nbd::Request;
use geo_server::{Begun, Judged, Service, add_failed, judge};
use geo_text::Text;
use std::alloc::Global;

/// What is done for a request.
#[derive(Drop)]
pub enum Met {
    /// The session ends.
    Ends,
    /// These bytes are sent, which are its reply.
    Says(Text),
    /// It is out, and its first command is to be given to the mesh.
    Begins(Begun),
}

/// A request that stands has what its commands need.
fn stands(size: u64, request: &Request, cmd: BioCmd, bytes: &SharedBytes)
    requires stands { judge size request.now ≡ judgements.Stands cmd }
    requires whole { data_len request.now ≡ Some (length bytes.now) }
    ensures { IsAsked (asked_by request.now cmd bytes.now) }
{
    let _offset = request.offset;
}

/// The reply to a request that fails.
fn refuse(alloc: Global, service: &Service, request: &Request, error: u32) -> Result<Text, NoMemory>
    ensures { IfOk result (λ sent. sent ≡ failed service.now.structured request.now.cookie error) }
{
    let mut sent = Text::new(alloc);
    add_failed(&mut sent, service.structured(), request.cookie, error)?;
    Ok(sent)
}

/// What is done for a request to an export of so many bytes, with the bytes that came behind its head.
pub fn meet(
    alloc: Global,
    service: &mut Service,
    size: u64,
    request: &Request,
    bytes: SharedBytes,
) -> Result<Met, NoMemory>
    requires { data_len request.now ≡ Some (length bytes) }
    ensures meets { IfOk result (λ met. MeetsAs met (judge size request.now) service.old service.new request.now bytes) }
    ensures is_met { IfOk result IsMet }
{
    match judge(size, request) {
        Judged::Ends => Ok(Met::Ends),
        Judged::Fails(error) => Ok(Met::Says(refuse(alloc, service, request, error)?)),
        Judged::Stands(cmd) => {
            stands(size, request, cmd, &bytes);
            Ok(Met::Begins(service.begin(alloc, request, cmd, bytes)?))
        }
    }
}
