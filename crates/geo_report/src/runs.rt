//! The text of some bytes.
ghost use Rattle.std.specs.Prelude.{◌≡◌, ◌<◌, ◌≤◌, ◌++◌, ◌∷◌, [], length, replicate, bytes_eq, get_or, OnOk};
ghost use Rattle.geo_base.specs.Runs.{run_text, runs_text};

use geo_base::NoMemory;
use geo_text::{Text, hex_digit};

/// A byte, and how many times it stands.
fn add_run(text: &mut Text, byte: u8, times: u64) -> Result<(), NoMemory>
    ensures { OnOk result (text.new ≡ text.old ++ run_text (record { byte = byte; times = times })) }
{
    text.add_hex(byte)?;
    text.add_labelled(b"*", times)
}

/// A run that others follow. One of fewer than ten bytes, of which noise is made, is written at once.
fn add_run_before(text: &mut Text, byte: u8, times: u64) -> Result<(), NoMemory>
    ensures { OnOk result (text.new ≡ text.old ++ run_text (record { byte = byte; times = times }) ++ 32 ∷ []) }
{
    if times < 10 {
        return add_short_run_before(text, byte, times as u8);
    }
    add_run(text, byte, times)?;
    text.add(b" ")
}

/// A run of fewer than ten bytes that others follow.
fn add_short_run_before(text: &mut Text, byte: u8, times: u8) -> Result<(), NoMemory>
    requires { times < 10 }
    ensures { OnOk result (text.new ≡ text.old ++ run_text (record { byte = byte; times = times }) ++ 32 ∷ []) }
{
    let high = hex_digit(byte / 16);
    let low = hex_digit(byte % 16);
    text.add(&[high, low, b'*', b'0' + times, b' '])
}

fn add_some_runs(text: &mut Text, bytes: &[u8]) -> Result<(), NoMemory>
    requires { 1 ≤ length bytes.now }
    ensures { OnOk result (text.new ≡ text.old ++ runs_text bytes.now) }
{
    let mut byte = bytes[0];
    let mut times = 0u64;
    for next in bytes {
        if *next == byte {
            times += 1;
        } else {
            add_run_before(text, byte, times)?;
            byte = *next;
            times = 1;
        }
    }
    add_run(text, byte, times)
}

// Whether the bytes are their first, so many times: each is the one before it. Slices are compared many bytes at a
// time.
fn is_one_run(bytes: &[u8]) -> bool
    requires { 1 ≤ length bytes.now }
    ensures { result ≡ bytes_eq bytes.now (replicate (length bytes.now) (get_or bytes.now 0 0)) }
{
    let behind = &bytes[1..];
    behind == &bytes[..behind.len()]
}

/// The runs of the bytes, behind the text.
#[tactic(auto, using(crate::proofs::RunTexts::no_runs, crate::proofs::RunTexts::one_run))]
pub fn add_runs(text: &mut Text, bytes: &[u8]) -> Result<(), NoMemory>
    ensures { OnOk result (text.new ≡ text.old ++ runs_text bytes.now) }
{
    if bytes.is_empty() {
        Ok(())
    } else if is_one_run(bytes) {
        add_run(text, bytes[0], bytes.len() as u64)
    } else {
        add_some_runs(text, bytes)
    }
}
