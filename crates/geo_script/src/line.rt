//! The lines of a text.
ghost use Rattle.std.specs.Prelude.{◌≡◌, ◌==◌, ◌<◌, ◌^◌, ◌∷◌, length, nat_le, ◌&&◌, Ok, position};
ghost use Rattle.std.specs.List.{list_all, list_any};
ghost use Rattle.geo_model.specs.Words.{first_error, same_name};
ghost use Rattle.geo_model.specs.Script.{words_of, is_long, is_skipped, line_tests, before_commands, actor_line, words_line, plan_with_line, next_line};
ghost use Rattle.geo_script.specs.Draft.{LineLeaves, LinesLeave};
ghost use Rattle.geo_script.specs.Line.{is_write_line, plan_with_ram, plan_with_disk, plan_with_actor};

use crate::command::command;
use crate::draft::Draft;
use crate::header;
use crate::refusal::{LineRefusal, ParseRefusal};
use crate::words::{Words, next_word};
use geo_base::{MAX_LINE_BYTES, MAX_SCRIPT_LINES, MAX_WRITE_LINE_BYTES};
use geo_model::Cause;
use std::alloc::Global;

/// Whether the second word of a line is `write`.
fn is_write(line: &[u8]) -> bool
    requires { length line.now < 2 ^ 32 }
    ensures { result ≡ is_write_line line.now }
{
    let Ok((_, words)) = next_word(Words::of(line)) else {
        return false;
    };
    match next_word(words) {
        Ok((word, _)) => b"write".as_slice() == word,
        Err(_) => false,
    }
}

/// Whether a line is longer than it may be.
fn is_long(line: &[u8]) -> bool
    requires { length line.now < 2 ^ 32 }
    ensures { result ≡ is_long line.now }
{
    line.len() > MAX_WRITE_LINE_BYTES || (line.len() > MAX_LINE_BYTES && !is_write(line))
}

/// Whether each byte is from 0x20 to 0x7E.
fn is_plain(line: &[u8]) -> bool
    ensures { result ≡ list_all (λ b. nat_le 32 b && nat_le b 126) line.now }
{
    line.iter().all(|b| b' ' <= *b && *b <= b'~')
}

/// Whether a word of a line is empty.
fn has_empty_word(line: &[u8]) -> bool
    ensures { result ≡ list_any (λ word. length word == 0) (words_of line.now) }
{
    line.split(|b| *b == b' ').any(|word| word.is_empty())
}

/// What is against a line before its words are read.
fn line_fault(number: u32, line: &[u8]) -> Option<Cause>
    requires { length line.now < 2 ^ 32 }
    ensures { result ≡ first_error (line_tests number line.now) }
{
    if number > MAX_SCRIPT_LINES {
        Some(Cause::Lines)
    } else if is_long(line) {
        Some(Cause::Long)
    } else if !is_plain(line) {
        Some(Cause::Byte)
    } else if has_empty_word(line) {
        Some(Cause::Space)
    } else {
        None
    }
}

/// Refuses a header line behind a command line.
fn before_commands(draft: &Draft) -> Result<(), Cause>
    ensures { result ≡ before_commands draft.now (Ok tt) }
{
    if draft.has_commands() {
        Err(Cause::Header)
    } else {
        Ok(())
    }
}

/// A line `ram ..`, from the words behind its first.
fn add_ram(draft: &mut Draft, words: Words<'_>) -> Result<(), LineRefusal>
    ensures { LineLeaves result draft.new (plan_with_ram draft.old words.entry) }
{
    before_commands(draft)?;
    let disk = header::ram(words)?;
    draft.add_disk(disk)
}

/// A line `disk ..`, from the words behind its first.
fn add_shelf_disk(draft: &mut Draft, words: Words<'_>) -> Result<(), LineRefusal>
    ensures { LineLeaves result draft.new (plan_with_disk draft.old words.entry) }
{
    before_commands(draft)?;
    let disk = header::disk(words)?;
    draft.add_disk(disk)
}

/// A line `actor ..`, from the words behind its first.
fn add_actor(draft: &mut Draft, words: Words<'_>) -> Result<(), LineRefusal>
    ensures { LineLeaves result draft.new (plan_with_actor draft.old words.entry) }
{
    before_commands(draft)?;
    let name = header::actor(words)?;
    draft.add_actor(name)
}

/// A line of an actor, from the actor's name and the words behind it.
fn add_command(
    alloc: Global,
    draft: &mut Draft,
    number: u32,
    name: &[u8],
    words: Words<'_>,
) -> Result<(), LineRefusal>
    ensures { LineLeaves result draft.new (actor_line draft.old number (position (same_name name.now) draft.old.actors)
        words.entry) }
{
    let Some(actor) = draft.actor_number(name) else {
        return Err(LineRefusal::Fault(Cause::Actor));
    };
    let (command_name, words) = next_word(words)?;
    let command = command(alloc, command_name, words)?;
    draft.add_command(number, actor, command)
}

/// A line that isn't skipped, by its first word.
fn add_plan_line(
    alloc: Global,
    draft: &mut Draft,
    number: u32,
    line: &[u8],
) -> Result<(), LineRefusal>
    requires { length line.now < 2 ^ 32 }
    ensures { LineLeaves result draft.new (plan_with_line draft.old number line.now) }
{
    if let Some(cause) = line_fault(number, line) {
        return Err(LineRefusal::Fault(cause));
    }
    let (word, words) = next_word(Words::of(line))?;
    if b"ram".as_slice() == word {
        add_ram(draft, words)
    } else if b"disk".as_slice() == word {
        add_shelf_disk(draft, words)
    } else if b"actor".as_slice() == word {
        add_actor(draft, words)
    } else {
        add_command(alloc, draft, number, word, words)
    }
}

/// Whether a line is empty or begins with `#`.
fn is_skipped(line: &[u8]) -> bool
    ensures { result ≡ is_skipped line.now }
{
    match line {
        [] => true,
        [first, ..] => *first == b'#',
    }
}

/// The line of a number, behind those before it.
pub fn add_line(
    alloc: Global,
    draft: &mut Draft,
    number: u32,
    line: &[u8],
) -> Result<(), ParseRefusal>
    requires { length line.now < 2 ^ 32 }
    ensures { LinesLeave result draft.new (next_line (Ok draft.old) (number, line.now)) }
{
    if is_skipped(line) {
        return Ok(());
    }
    match add_plan_line(alloc, draft, number, line) {
        Ok(()) => Ok(()),
        Err(LineRefusal::Fault(cause)) => Err(ParseRefusal::Fault {
            line: number,
            cause,
        }),
        Err(LineRefusal::NoMemory) => Err(ParseRefusal::NoMemory),
    }
}
