//! The script.
ghost use Rattle.std.specs.Prelude.{◌≡◌, ◌<◌, ◌≤◌, ◌++◌, ◌*◌, ◌^◌, length, IsOk, IfOk, OnOk};
ghost use Rattle.geo_model.specs.Generator.{generated, draws, drawn_lines};
ghost use Rattle.geo_model.specs.Script.{script};
ghost use Rattle.geo_gen.specs.Lines.{header_text, drawn_text, next_text, third_draw};

use crate::commands::add_chosen;
use crate::draws::{draw_value, next_draw};
use geo_base::{Block, MAX_DRAWN_LINES, MAX_START, NoMemory};
use geo_text::Text;
use std::alloc::Global;

/// The disks, the actors, and the commands that come first.
#[tactic(auto, using(crate::proofs::Drawn::header_is))]
fn header() -> &'static [u8]
    ensures { result.now ≡ header_text }
{
    b"ram md0 512 1024\n\
      ram md1 512 1024\n\
      ram md2 512 1024\n\
      ram md3 512 1024\n\
      actor a0\n\
      actor a1\n\
      actor a2\n\
      actor a3\n\
      a0 stripe s 4096 md0 md1\n\
      a0 concat c md2 md3\n\
      a0 open h0 stripe/s r1w1e0\n\
      a1 open h0 concat/c r1w1e0\n\
      a2 open h0 stripe/s r1w0e0\n\
      a3 open h0 concat/c r1w0e0\n"
}

/// A line of the actor whose turn it is.
#[tactic(auto, unfolding(crate::specs::Lines::drawn_text))]
fn add_line(text: &mut Text, i: u64, d1: u64, d2: u64, d3: u64) -> Result<(), NoMemory>
    ensures { OnOk result (text.new ≡ text.old ++ drawn_text i d1 d2 d3) }
{
    text.add_labelled(b"a", i % 4)?;
    text.add(b" ")?;
    add_chosen(text, d1 % 8, d2, d3)?;
    text.add(b"\n")
}

/// A line, from the three draws after this one; what is answered is the last of them.
#[tactic(auto, unfolding(crate::specs::Lines::next_text))]
fn add_drawn(text: &mut Text, i: u64, x: u64) -> Result<u64, NoMemory>
    requires { x < 2147483648 }
    ensures line { OnOk result (text.new ≡ text.old ++ next_text i x) }
    ensures draw { IfOk result (λ last. last ≡ third_draw x) }
    ensures below { IfOk result (λ last. last < 2147483648) }
{
    let first = next_draw(x);
    let second = next_draw(first);
    let third = next_draw(second);
    add_line(
        text,
        i,
        draw_value(first),
        draw_value(second),
        draw_value(third),
    )?;
    Ok(third)
}

/// All lines that are drawn.
fn add_drawn_lines(text: &mut Text, start: u64, count: u64) -> Result<(), NoMemory>
    requires { start < 2147483648 }
    ensures { OnOk result (text.new ≡ text.old ++ drawn_lines 0 (draws (3 * count) start)) }
{
    let mut x = start;
    for i in 0..count {
        x = add_drawn(text, i, x)?;
    }
    Ok(())
}

#[tactic(auto, using(crate::proofs::Drawn::whole))]
fn script_text(alloc: Global, start: u64, count: u64) -> Result<Block, NoMemory>
    requires { start < 2147483648 }
    ensures { IfOk result (λ block. block ≡ generated start count) }
{
    let mut text = Text::new(alloc);
    text.add(header())?;
    add_drawn_lines(&mut text, start, count)?;
    Ok(text.into_block())
}

/// The script of four disks, four actors, the six commands that come first, and `count` that are drawn, from the number
/// `start` on. `parse` accepts it.
#[tactic(auto, using(crate::proofs::Short::generated_short, crate::proofs::Short::generated_accepted))]
pub fn make_script(alloc: Global, start: u32, count: u32) -> Result<Block, NoMemory>
    requires start_range { start ≤ MAX_START }
    requires count_range { count ≤ MAX_DRAWN_LINES }
    ensures text { IfOk result (λ block. block ≡ generated start count) }
    ensures short { IfOk result (λ block. length block < 2 ^ 32) }
    ensures accepted { IfOk result (λ block. IsOk (script block)) }
{
    script_text(alloc, u64::from(start), u64::from(count))
}
