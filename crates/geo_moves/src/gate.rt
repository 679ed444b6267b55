//! Which requests handles let through (g_bio(9)).
ghost use Rattle.std.specs.Prelude.{◌≡◌, ◌+◌, ◌<◌, nat_lt, [], IfSome, IsSome};
ghost use Rattle.geo_model.specs.Commands.{asking};
ghost use Rattle.geo_model.specs.Requests.{is_allowed};
ghost use Rattle.geo_model.specs.Topology.{consumer_at};
ghost use Rattle.geo_mesh.specs.Cells.{provider_seen};
ghost use Rattle.geo_handles.specs.Handles.{handle_seen, named_handle};
ghost use Rattle.geo_moves.specs.Asked.{IsGatesAnswer, IsHandlesAnswer, attached, not_whole, refusal_by_grant};

use geo_base::{BioCmd, ConsId, Counts, Errno, HandleId, MAX_REQUEST_BYTES, Name, ProvId};
use geo_class::Config;
use geo_handles::{HandleRec, Handles};
use geo_mesh::{ProvRec, Topo};
use geo_model::Span;

/// A handle that lets a request through: its consumer, and the provider to which this is attached.
#[derive(Clone, Copy, Debug)]
pub struct Gate {
    pub handle: HandleId,
    pub source: ConsId,
    pub target: ProvId,
}

/// What the actor's handle of the name says to a request.
pub fn look(
    topo: &Topo<Config>,
    handles: &Handles,
    actor: u32,
    name: &Name,
    cmd: BioCmd,
    span: Span,
) -> Result<Gate, Errno>
    ensures { IsGatesAnswer topo.now.topology (named_handle handles.now.handles actor name.now)
        (asking cmd span.offset span.len []) result }
{
    let Some(id) = handles.by_name(actor, name) else {
        return Err(Errno::EBADF);
    };
    match handles.get(id) {
        Some(handle) => look_through(topo, id, handle, cmd, span),
        None => Err(Errno::EBADF),
    }
}

// What a handle says to a request.
fn look_through(
    topo: &Topo<Config>,
    id: HandleId,
    handle: &HandleRec,
    cmd: BioCmd,
    span: Span,
) -> Result<Gate, Errno>
    ensures { IsHandlesAnswer topo.now.topology (handle_seen id handle.now)
        (asking cmd span.offset span.len []) result }
{
    if handle.dead {
        return Err(Errno::ENXIO);
    }
    let Some((source, target)) = attached(topo, handle.consumer) else {
        return Err(Errno::ENXIO);
    };
    let Some(prov) = topo.provider(target) else {
        return Err(Errno::ENXIO);
    };
    match refusal(handle.grant, prov, cmd, span) {
        Some(errno) => Err(errno),
        None => Ok(Gate {
            handle: id,
            source,
            target,
        }),
    }
}

// A consumer, and the provider to which it is attached.
fn attached(topo: &Topo<Config>, consumer: Option<ConsId>) -> Option<(ConsId, ProvId)>
    ensures pair { result ≡ attached topo.now.topology consumer }
    ensures lives { IfSome result (λ pair. IsSome (consumer_at topo.now.topology pair.0)) }
{
    let source = consumer?;
    let target = topo.consumer(source)?.prov?;
    Some((source, target))
}

// What refuses a request to a provider: the grant, the provider's error, a range that isn't one, the provider's end.
fn refusal(grant: Counts, prov: &ProvRec, cmd: BioCmd, span: Span) -> Option<Errno>
    requires { 0 < prov.now.sector }
    ensures { result ≡ refusal_by_grant grant (provider_seen 0 prov.now) (asking cmd span.offset span.len []) }
{
    if !is_allowed(grant, cmd) {
        return Some(Errno::EPERM);
    }
    if prov.errored {
        return Some(Errno::ENXIO);
    }
    match cmd {
        BioCmd::Flush => None,
        _ => {
            if is_invalid_range(u64::from(prov.sector), span) {
                return Some(Errno::EINVAL);
            }
            if is_past_end(prov.size, span) {
                return Some(Errno::EIO);
            }
            None
        }
    }
}

// Whether a grant allows a command.
fn is_allowed(grant: Counts, cmd: BioCmd) -> bool
    ensures { result ≡ is_allowed grant cmd }
{
    match cmd {
        BioCmd::Read => grant.r != 0,
        _ => grant.w != 0,
    }
}

// Whether a range isn't one or more whole sectors of at most the longest request.
fn is_invalid_range(sector: u64, span: Span) -> bool
    requires { 0 < sector }
    ensures { result ≡ not_whole sector span.offset span.len }
{
    span.offset % sector != 0
        || span.len % sector != 0
        || span.len == 0
        || span.len > MAX_REQUEST_BYTES
}

// Whether a range ends behind so many bytes.
fn is_past_end(size: u64, span: Span) -> bool
    ensures { result ≡ nat_lt size (span.offset + span.len) }
{
    span.len > size || size - span.len < span.offset
}
