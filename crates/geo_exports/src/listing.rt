//! The mesh as text.
ghost use Rattle.std.specs.Prelude.{◌≡◌, IfOk};
ghost use Rattle.geo_model.specs.Listing.{listing};
ghost use Rattle.geo_model.specs.Report.{mesh_text};
ghost use Rattle.geo_exports.specs.Calls.{Lists, TellsMade, TellsText};
ghost use Rattle.geo_exports.specs.Held.{mesh_in};

use crate::codes::{CLOSED, NO_MEMORY, OK, ROOM};
use crate::event::copy_to;
use crate::held::TzbCore;
use geo_base::{Block, NoMemory};
use geo_model::GeomLine;
use geo_report::add_mesh;
use geo_tags::TaggedSession;
use geo_text::Text;
use std::alloc::Global;

// The lines of a mesh as text.
fn text_of_lines(alloc: Global, lines: &[GeomLine]) -> Result<Block, NoMemory>
    ensures { IfOk result (λ text. text ≡ mesh_text lines.now) }
{
    let mut text = Text::new(alloc);
    add_mesh(&mut text, lines)?;
    Ok(text.into_block())
}

// A live mesh as text.
fn text_of(alloc: Global, session: &TaggedSession) -> Result<Block, NoMemory>
    ensures { IfOk result (λ text. text ≡ mesh_text (listing session.now.session.world)) }
{
    let lines = session.session().listing(alloc)?;
    text_of_lines(alloc, lines.items())
}

// Puts a text in front of a buffer, if there is room for it.
fn tell_text(text: &[u8], bytes: &mut [u8], need: &mut u64) -> i32
    ensures { TellsText result need.new bytes.old bytes.new text.now }
{
    *need = text.len() as u64;
    if text.len() > bytes.len() {
        return ROOM;
    }
    copy_to(text, bytes);
    OK
}

// The same of a text that was made, unless memory was wanting.
fn tell(made: Result<Block, NoMemory>, bytes: &mut [u8], need: &mut u64) -> i32
    ensures { TellsMade result need.new bytes.old bytes.new made }
{
    match made {
        Ok(text) => tell_text(text.bytes(), bytes, need),
        Err(_) => {
            *need = 0;
            NO_MEMORY
        }
    }
}

/// The mesh as text, line by line.
#[unsafe(no_mangle)]
pub extern "C" fn tzb_core_list(
    alloc: Global,
    core: &mut TzbCore,
    bytes: &mut [u8],
    need: &mut u64,
) -> i32
    ensures lists { Lists result need.new bytes.old bytes.new (mesh_in core.old) }
    ensures same { mesh_in core.new ≡ mesh_in core.old }
{
    *need = 0;
    let Some(session) = core.take(alloc) else {
        return CLOSED;
    };
    let made = text_of(alloc, &session);
    core.put(alloc, session);
    tell(made, bytes, need)
}
