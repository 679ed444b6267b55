//! Commands that are given to a live mesh, with a token.
ghost use Rattle.std.specs.Prelude.{◌≡◌, ◌<◌, ◌≤◌, true, false, MatchOption, length, None};
ghost use Rattle.geo_base.specs.Name.{is_short_name, is_name};
ghost use Rattle.geo_base.specs.declared.limits.TheConstants.{MAX_RUNS_BYTES};
ghost use Rattle.geo_model.specs.declared.command.Command.TheVariants as commands;
ghost use Rattle.geo_model.specs.Plans.{IsCommand, IsProviderName, IsShortName};
ghost use Rattle.geo_exports.specs.Calls.{Commanded, Gives, Given, Refused, Written};
ghost use Rattle.geo_exports.specs.Forms.{is_grant};
ghost use Rattle.geo_exports.specs.Held.{mesh_in};

use crate::codes::{CLOSED, NO_MEMORY, WRONG};
use crate::held::TzbCore;
use crate::numbers::{given_code, given_error};
use crate::refusal::refusal_code;
use crate::texts::command_of;
use geo_base::{Block, Counts, MAX_RUNS_BYTES, Name, SharedBytes};
use geo_model::{Command, LineCommand};
use geo_tags::TaggedSession;
use std::alloc::Global;

// The short name of these bytes.
#[tactic(auto, using(crate::proofs::Names::unnamed))]
fn short_name(bytes: &[u8]) -> Option<Name>
    ensures { MatchOption result (is_short_name bytes.now ≡ false) (λ name. (name ≡ bytes.now) × IsShortName name) }
{
    match Name::new(bytes) {
        Ok(name) if name.is_short() => Some(name),
        _ => None,
    }
}

// The name of these bytes.
fn provider_name(bytes: &[u8]) -> Option<Name>
    ensures { MatchOption result (is_name bytes.now ≡ false) (λ name. (name ≡ bytes.now) × IsProviderName name) }
{
    Name::new(bytes).ok()
}

// Whether the counts are of one digit each, and not all zero.
fn is_grant(r: u32, w: u32, e: u32) -> bool
    ensures { result ≡ is_grant r w e }
{
    r <= 9 && w <= 9 && e <= 9 && 1 <= r + w + e
}

// Gives a command to a live mesh.
fn give(
    session: &mut TaggedSession,
    actor: u32,
    command: Command,
    token: u64,
    error: &mut u32,
) -> i32
    requires { IsCommand command }
    ensures { Gives result error.new session.old session.new actor command token }
{
    let given = session.submit(actor, command, token);
    *error = given_error(&given);
    let code = given_code(&given);
    drop(given);
    code
}

// Gives a command to what a handle holds.
fn submit(
    alloc: Global,
    core: &mut TzbCore,
    actor: u32,
    command: Command,
    token: u64,
    error: &mut u32,
) -> i32
    requires { IsCommand command }
    ensures { Given result error.new (mesh_in core.old) (mesh_in core.new) actor command token }
{
    let Some(mut session) = core.take(alloc) else {
        drop(command);
        *error = 0;
        return CLOSED;
    };
    let code = give(&mut session, actor, command, token, error);
    core.put(alloc, session);
    code
}

/// Opens a provider with these counts, as a handle of an actor.
#[tactic(auto, using(crate::proofs::Names::tested_grant))]
#[unsafe(no_mangle)]
pub extern "C" fn tzb_core_open_handle(
    alloc: Global,
    core: &mut TzbCore,
    actor: u32,
    handle: &[u8],
    provider: &[u8],
    r: u32,
    w: u32,
    e: u32,
    token: u64,
    error: &mut u32,
) -> i32
    ensures given { IsShortName handle.now → IsProviderName provider.now → is_grant r w e ≡ true
        → Given result error.new (mesh_in core.old) (mesh_in core.new) actor
        (commands.Open handle.now provider.now (record { r = r; w = w; e = e })) token }
    ensures wrong_handle { is_short_name handle.now ≡ false
        → Refused result error.new (mesh_in core.old) (mesh_in core.new) }
    ensures wrong_provider { is_name provider.now ≡ false
        → Refused result error.new (mesh_in core.old) (mesh_in core.new) }
    ensures wrong_counts { is_grant r w e ≡ false → Refused result error.new (mesh_in core.old) (mesh_in core.new) }
{
    *error = 0;
    let Some(handle) = short_name(handle) else {
        return WRONG;
    };
    let Some(provider) = provider_name(provider) else {
        return WRONG;
    };
    if !is_grant(r, w, e) {
        return WRONG;
    }
    let grant = Counts { r, w, e };
    let command = Command::Open {
        handle,
        provider,
        grant,
    };
    submit(alloc, core, actor, command, token, error)
}

/// Closes a handle of an actor.
#[unsafe(no_mangle)]
pub extern "C" fn tzb_core_close_handle(
    alloc: Global,
    core: &mut TzbCore,
    actor: u32,
    handle: &[u8],
    token: u64,
    error: &mut u32,
) -> i32
    ensures given { IsShortName handle.now
        → Given result error.new (mesh_in core.old) (mesh_in core.new) actor (commands.Close handle.now) token }
    ensures wrong { is_short_name handle.now ≡ false → Refused result error.new (mesh_in core.old) (mesh_in core.new) }
{
    *error = 0;
    match short_name(handle) {
        Some(handle) => submit(alloc, core, actor, Command::Close(handle), token, error),
        None => WRONG,
    }
}

/// A READ of `len` bytes through a handle of an actor, from `offset` on.
#[unsafe(no_mangle)]
pub extern "C" fn tzb_core_submit_read(
    alloc: Global,
    core: &mut TzbCore,
    actor: u32,
    handle: &[u8],
    offset: u64,
    len: u64,
    token: u64,
    error: &mut u32,
) -> i32
    ensures given { IsShortName handle.now
        → Given result error.new (mesh_in core.old) (mesh_in core.new) actor
        (commands.Read handle.now offset len) token }
    ensures wrong { is_short_name handle.now ≡ false → Refused result error.new (mesh_in core.old) (mesh_in core.new) }
{
    *error = 0;
    let Some(handle) = short_name(handle) else {
        return WRONG;
    };
    let command = Command::Read {
        handle,
        offset,
        len,
    };
    submit(alloc, core, actor, command, token, error)
}

/// A WRITE of 1 to 65,536 bytes through a handle of an actor, from `offset` on.
#[unsafe(no_mangle)]
pub extern "C" fn tzb_core_submit_write(
    alloc: Global,
    core: &mut TzbCore,
    actor: u32,
    handle: &[u8],
    offset: u64,
    bytes: &[u8],
    token: u64,
    error: &mut u32,
) -> i32
    ensures given { IsShortName handle.now → 1 ≤ length bytes.now → length bytes.now ≤ MAX_RUNS_BYTES
        → Written result error.new (mesh_in core.old) (mesh_in core.new) actor
        (commands.Write handle.now offset bytes.now) token }
    ensures wrong { is_short_name handle.now ≡ false → Refused result error.new (mesh_in core.old) (mesh_in core.new) }
    ensures none { length bytes.now ≡ 0 → Refused result error.new (mesh_in core.old) (mesh_in core.new) }
    ensures long { MAX_RUNS_BYTES < length bytes.now → Refused result error.new (mesh_in core.old) (mesh_in core.new) }
{
    *error = 0;
    let Some(handle) = short_name(handle) else {
        return WRONG;
    };
    if bytes.is_empty() || bytes.len() > MAX_RUNS_BYTES {
        return WRONG;
    }
    let Ok(block) = Block::from_slice(alloc, bytes) else {
        return NO_MEMORY;
    };
    let bytes = SharedBytes::from_block(block).share(alloc);
    let command = Command::Write {
        handle,
        offset,
        bytes,
    };
    submit(alloc, core, actor, command, token, error)
}

/// A DELETE of `len` bytes through a handle of an actor, from `offset` on: they read as zeros then.
#[unsafe(no_mangle)]
pub extern "C" fn tzb_core_submit_delete(
    alloc: Global,
    core: &mut TzbCore,
    actor: u32,
    handle: &[u8],
    offset: u64,
    len: u64,
    token: u64,
    error: &mut u32,
) -> i32
    ensures given { IsShortName handle.now
        → Given result error.new (mesh_in core.old) (mesh_in core.new) actor
        (commands.Delete handle.now offset len) token }
    ensures wrong { is_short_name handle.now ≡ false → Refused result error.new (mesh_in core.old) (mesh_in core.new) }
{
    *error = 0;
    let Some(handle) = short_name(handle) else {
        return WRONG;
    };
    let command = Command::Delete {
        handle,
        offset,
        len,
    };
    submit(alloc, core, actor, command, token, error)
}

/// A FLUSH through a handle of an actor.
#[unsafe(no_mangle)]
pub extern "C" fn tzb_core_submit_flush(
    alloc: Global,
    core: &mut TzbCore,
    actor: u32,
    handle: &[u8],
    token: u64,
    error: &mut u32,
) -> i32
    ensures given { IsShortName handle.now
        → Given result error.new (mesh_in core.old) (mesh_in core.new) actor (commands.Flush handle.now) token }
    ensures wrong { is_short_name handle.now ≡ false → Refused result error.new (mesh_in core.old) (mesh_in core.new) }
{
    *error = 0;
    match short_name(handle) {
        Some(handle) => submit(alloc, core, actor, Command::Flush(handle), token, error),
        None => WRONG,
    }
}

/// Lets a disk of the header stand that comes later.
#[unsafe(no_mangle)]
pub extern "C" fn tzb_core_insert(
    alloc: Global,
    core: &mut TzbCore,
    actor: u32,
    disk: &[u8],
    token: u64,
    error: &mut u32,
) -> i32
    ensures given { IsShortName disk.now
        → Given result error.new (mesh_in core.old) (mesh_in core.new) actor (commands.Insert disk.now) token }
    ensures wrong { is_short_name disk.now ≡ false → Refused result error.new (mesh_in core.old) (mesh_in core.new) }
{
    *error = 0;
    match short_name(disk) {
        Some(disk) => submit(alloc, core, actor, Command::Insert(disk), token, error),
        None => WRONG,
    }
}

/// Takes a disk that stands away.
#[unsafe(no_mangle)]
pub extern "C" fn tzb_core_pull(
    alloc: Global,
    core: &mut TzbCore,
    actor: u32,
    disk: &[u8],
    token: u64,
    error: &mut u32,
) -> i32
    ensures given { IsShortName disk.now
        → Given result error.new (mesh_in core.old) (mesh_in core.new) actor (commands.Pull disk.now) token }
    ensures wrong { is_short_name disk.now ≡ false → Refused result error.new (mesh_in core.old) (mesh_in core.new) }
{
    *error = 0;
    match short_name(disk) {
        Some(disk) => submit(alloc, core, actor, Command::Pull(disk), token, error),
        None => WRONG,
    }
}

/// Any command, as a script that has no other. It is given as of the line's actor.
#[unsafe(no_mangle)]
pub extern "C" fn tzb_core_command(
    alloc: Global,
    core: &mut TzbCore,
    script: &[u8],
    token: u64,
    error: &mut u32,
) -> i32
    ensures { Commanded result error.new (mesh_in core.old) (mesh_in core.new) script.now token }
{
    *error = 0;
    match command_of(alloc, script) {
        Ok(line) => {
            let LineCommand { actor, command, .. } = line;
            submit(alloc, core, actor, command, token, error)
        }
        Err(refusal) => refusal_code(refusal),
    }
}
