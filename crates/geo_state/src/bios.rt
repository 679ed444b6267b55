//! What becomes of requests (g_bio(9)), with what is kept of them.
ghost use Rattle.std.specs.Prelude.{◌≡◌, ◌+◌, ◌-◌, ◌<◌, ◌≤◌, ◌^◌, true, None, [], ◌∷◌, ◌++◌, length, IsOk, IsSome, IfSome, IfOk, OnOk, OnErr, IsTrue};
ghost use Rattle.geo_model.specs.declared.step.Owner.TheVariants as owners;
ghost use Rattle.geo_model.specs.Words.{is_write};
ghost use Rattle.geo_model.specs.Topology.{consumer_at};
ghost use Rattle.geo_model.specs.World.{change_number, is_down, is_root, bio_among};
ghost use Rattle.geo_model.specs.Bios.{new_bio, up_with};
ghost use Rattle.geo_bio.specs.declared.bio.Held.TheVariants as held;
ghost use Rattle.geo_bio.specs.BioTable.{has_phase};
ghost use Rattle.geo_slots.specs.Slots.{value_at};
ghost use Rattle.geo_mesh.specs.Topo.{with_active};
ghost use Rattle.geo_state.specs.Holds.{Holds};
ghost use Rattle.geo_state.specs.Bios.{OnlyBios, IsAsking, IsNoHandles};

use crate::own::enter;
use crate::state::State;
use geo_base::{BioCmd, BioId, ConsId, Errno, HandleId, NoMemory, ProvId, SharedBytes};
use geo_class::Config;
use geo_mesh::Topo;
use geo_model::{Owner, Span};

/// More requests than so many can't be counted.
pub const MOST_OUT: u64 = 0x4000_0000_0000_0000;

/// A request to be made: from a consumer to its provider. The offset and the length of its span are in bytes.
#[derive(Debug, Drop)]
pub struct NewBio {
    pub cmd: BioCmd,
    pub span: Span,
    pub bytes: SharedBytes,
    pub from: ConsId,
    pub to: ProvId,
}

/// A request of a line goes through the actor's handle. Where it can't be counted, and where no number is left for it,
/// the answer is want of memory.
pub fn submit_line(
    state: &mut State,
    handle: HandleId,
    line: u32,
    bio: NewBio,
) -> Result<BioId, NoMemory>
    requires kept { Holds state.old }
    requires asking { IsAsking state.old handle bio.from }
    requires bytes_fit { IsTrue (is_write bio.cmd) → length bio.bytes ≡ bio.span.len }
    ensures number { IfOk result (λ number. number ≡ state.old.traffic.next) }
    ensures submitted { OnOk result (state.new.traffic.bios ≡ state.old.traffic.bios
        ++ new_bio state.old.traffic.next bio.cmd bio.span.offset bio.span.len bio.bytes bio.from bio.to
        (owners.Line handle line) ∷ []) }
    ensures next { OnOk result (state.new.traffic.next ≡ state.old.traffic.next + 1) }
    ensures bios_stay { OnErr result (state.new.traffic.bios ≡ state.old.traffic.bios) }
    ensures next_stays { OnErr result (state.new.traffic.next ≡ state.old.traffic.next) }
    ensures only { OnlyBios state.old state.new }
    ensures kept { Holds state.new }
{
    let Some(found) = state.handles.get(handle) else {
        return Err(NoMemory);
    };
    let actor = found.actor;
    if !has_count(&state.topo, bio.from) {
        return Err(NoMemory);
    }
    let Some(own) = state.own.get(actor as usize) else {
        return Err(NoMemory);
    };
    if own.count >= MOST_OUT {
        return Err(NoMemory);
    }
    let number = submit(state, bio, Owner::Line { handle, line })?;
    enter(&mut state.own, actor, number.number());
    Ok(number)
}

/// The taste's read goes through its consumer; none is out. It takes memory only where no room is spare, so where
/// there is room for one more request, and fewer than 2^62 are out through the consumer, it isn't refused. Where it
/// can't be counted, and where no number is left for it, the answer is want of memory.
pub fn submit_read(state: &mut State, bio: NewBio) -> Result<BioId, NoMemory>
    requires kept { Holds state.old }
    requires none_out { state.old.read ≡ None }
    requires through { IsNoHandles state.old bio.from }
    requires bytes_fit { IsTrue (is_write bio.cmd) → length bio.bytes ≡ bio.span.len }
    ensures number { IfOk result (λ number. number ≡ state.old.traffic.next) }
    ensures submitted { OnOk result (state.new.traffic.bios ≡ state.old.traffic.bios
        ++ new_bio state.old.traffic.next bio.cmd bio.span.offset bio.span.len bio.bytes bio.from bio.to
        owners.Taste ∷ []) }
    ensures next { OnOk result (state.new.traffic.next ≡ state.old.traffic.next + 1) }
    ensures bios_stay { OnErr result (state.new.traffic.bios ≡ state.old.traffic.bios) }
    ensures next_stays { OnErr result (state.new.traffic.next ≡ state.old.traffic.next) }
    ensures room { OnOk result (state.new.traffic.spare ≡ state.old.traffic.spare - 1) }
    ensures had_room { 1 ≤ state.old.traffic.spare → IfSome (value_at state.old.topo.active bio.from) (λ n. n < 2 ^ 62)
        → IsOk result }
    ensures only { OnlyBios state.old state.new }
    ensures kept { Holds state.new }
{
    if !has_count(&state.topo, bio.from) {
        return Err(NoMemory);
    }
    let number = submit(state, bio, Owner::Taste)?;
    state.read = Some(number);
    Ok(number)
}

/// A bio that isn't let down goes up with an error.
pub fn bounce(state: &mut State, bio: BioId, errno: Errno)
    requires kept { Holds state.old }
    requires down { IsTrue (has_phase is_down state.old.traffic.bios bio) }
    ensures bounced { state.new ≡ record state.old {
      traffic = record state.old.traffic {
        bios = change_number bio (up_with (held.Failed errno)) state.old.traffic.bios;
      };
    } }
    ensures kept { Holds state.new }
{
    state.traffic.bounce(bio, errno);
}

// A new request, which is out through its consumer.
fn submit(state: &mut State, bio: NewBio, owner: Owner) -> Result<BioId, NoMemory>
    requires root { IsTrue (is_root owner) }
    requires lives { IsSome (consumer_at state.old.topo.topology bio.from) }
    requires few { IfSome (value_at state.old.topo.active bio.from) (λ n. n < 2 ^ 62) }
    requires bytes_fit { IsTrue (is_write bio.cmd) → length bio.bytes ≡ bio.span.len }
    ensures number { IfOk result (λ number. number ≡ state.old.traffic.next) }
    ensures submitted { OnOk result (state.new.traffic.bios ≡ state.old.traffic.bios
        ++ new_bio state.old.traffic.next bio.cmd bio.span.offset bio.span.len bio.bytes bio.from bio.to owner ∷ []) }
    ensures next { OnOk result (state.new.traffic.next ≡ state.old.traffic.next + 1) }
    ensures bios_stay { OnErr result (state.new.traffic.bios ≡ state.old.traffic.bios) }
    ensures next_stays { OnErr result (state.new.traffic.next ≡ state.old.traffic.next) }
    ensures room { OnOk result (state.new.traffic.spare ≡ state.old.traffic.spare - 1) }
    ensures had_room { 1 ≤ state.old.traffic.spare → IsOk result }
    ensures one { OnOk result (state.new ≡ record state.old {
      traffic = state.new.traffic;
      topo = with_active state.old.topo bio.from (λ n. n + 1);
    }) }
    ensures same { OnErr result (state.new ≡ record state.old { traffic = state.new.traffic }) }
{
    let from = bio.from;
    let number = state
        .traffic
        .submit(bio.cmd, bio.span, bio.bytes, from, bio.to, owner)?;
    state.topo.note_active(from);
    Ok(number)
}

/// Whether one more request through the consumer can be counted.
pub fn has_count(topo: &Topo<Config>, cons: ConsId) -> bool
    ensures few { result ≡ true → IfSome (value_at topo.now.active cons) (λ n. n < 2 ^ 62) }
    ensures always { IfSome (value_at topo.now.active cons) (λ n. n < 2 ^ 62) → result ≡ true }
{
    match topo.consumer(cons) {
        Some(consumer) => consumer.active < MOST_OUT,
        None => true,
    }
}
