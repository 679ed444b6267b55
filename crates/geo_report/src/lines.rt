//! The lines of the commands, with their replies.
ghost use Rattle.std.specs.Prelude.{◌≡◌, ◌≤◌, ◌++◌, OnOk, All, flat_map};
ghost use Rattle.std.specs.Option.{option_copied};
ghost use Rattle.geo_model.specs.Report.{line_text, reply_text};
ghost use Rattle.geo_report.specs.Places.{ArePlaces};
ghost use Rattle.geo_report.specs.Texts.{reply_or_end};

use crate::mesh::add_mesh;
use crate::places::find_reply;
use crate::runs::add_runs;
use geo_base::{MAX_SCRIPT_LINES, NoMemory};
use geo_model::{Entry, LineCommand, Reply};
use geo_text::Text;

/// A reply behind the number of its line, and the mesh lines of a `mesh` command.
fn add_reply(text: &mut Text, reply: &Reply) -> Result<(), NoMemory>
    ensures { OnOk result (text.new ≡ text.old ++ reply_text reply.now) }
{
    match reply {
        Reply::Ok => text.add(b" ok\n"),
        Reply::Bytes(bytes) => {
            text.add(b" ok ")?;
            add_runs(text, bytes.bytes())?;
            text.add(b"\n")
        }
        Reply::Refused(errno) => {
            text.add(b" ")?;
            text.add(errno.text())?;
            text.add(b"\n")
        }
        Reply::Listing(lines) => {
            text.add(b" ok\n")?;
            add_mesh(text, lines.items())
        }
    }
}

/// The reply to a line; without one the line ends.
fn add_answer(text: &mut Text, reply: Option<&Reply>) -> Result<(), NoMemory>
    ensures { OnOk result (text.new ≡ text.old ++ reply_or_end (option_copied reply.entry)) }
{
    match reply {
        Some(reply) => add_reply(text, reply),
        None => text.add(b"\n"),
    }
}

/// A command's line.
fn add_line(
    text: &mut Text,
    log: &[Entry],
    places: &[Option<usize>],
    command: &LineCommand,
) -> Result<(), NoMemory>
    requires places { ArePlaces log.now places.now }
    requires line { command.now.line ≤ MAX_SCRIPT_LINES }
    ensures { OnOk result (text.new ≡ text.old ++ line_text log.now command.now) }
{
    text.add_number(u64::from(command.line))?;
    add_answer(text, find_reply(log, places, command.line))
}

/// The lines of all commands.
pub fn add_lines(
    text: &mut Text,
    log: &[Entry],
    places: &[Option<usize>],
    commands: &[LineCommand],
) -> Result<(), NoMemory>
    requires places { ArePlaces log.now places.now }
    requires lines { All (λ c. c.line ≤ MAX_SCRIPT_LINES) commands.now }
    ensures { OnOk result (text.new ≡ text.old ++ flat_map (line_text log.now) commands.now) }
{
    for command in commands {
        add_line(text, log, places, command)?;
    }
    Ok(())
}
