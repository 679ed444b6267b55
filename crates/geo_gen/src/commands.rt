//! The command of a line, from the three numbers that were drawn for it.
ghost use Rattle.std.specs.Prelude.{◌≡◌, ◌<◌, ◌+◌, ◌++◌, ◌*◌, ◌/◌, ◌%◌, OnOk};
ghost use Rattle.geo_model.specs.Generator.{open_provider, open_counts, handle_text};
ghost use Rattle.geo_gen.specs.Lines.{target_text, range_text, fill_text, open_text, close_text, read_text, write_text, delete_text, flush_text, chosen_text};

use geo_base::NoMemory;
use geo_text::Text;

/// The provider that is opened.
fn open_provider(k: u64) -> &'static [u8]
    requires { k < 6 }
    ensures { result.now ≡ open_provider k }
{
    match k {
        0 => b"md0",
        1 => b"md1",
        2 => b"md2",
        3 => b"md3",
        4 => b"stripe/s",
        _ => b"concat/c",
    }
}

/// How it is opened.
fn open_counts(k: u64) -> &'static [u8]
    requires { k < 5 }
    ensures { result.now ≡ open_counts k }
{
    match k {
        0 => b"r1w0e0",
        1 => b"r0w1e0",
        2 => b"r1w1e0",
        3 => b"r1w0e1",
        _ => b"r1w1e1",
    }
}

/// The offset of a request.
fn offset(d3: u64) -> u64
    ensures { result ≡ 512 * (d3 % 1024) }
{
    512 * (d3 % 1024)
}

/// How many bytes it is of.
fn len(d2: u64) -> u64
    ensures { result ≡ 512 * (1 + (d2 / 2) % 8) }
{
    512 * (1 + (d2 / 2) % 8)
}

fn add_handle(text: &mut Text, d2: u64) -> Result<(), NoMemory>
    ensures { OnOk result (text.new ≡ text.old ++ handle_text d2) }
{
    text.add_labelled(b"h", d2 % 2)
}

/// What is opened, and how.
#[tactic(auto, unfolding(crate::specs::Lines::target_text))]
fn add_target(text: &mut Text, d2: u64, d3: u64) -> Result<(), NoMemory>
    ensures { OnOk result (text.new ≡ text.old ++ target_text d2 d3) }
{
    text.add(b" ")?;
    text.add(open_provider((d2 / 2) % 6))?;
    text.add(b" ")?;
    text.add(open_counts(d3 % 5))
}

/// A handle, an offset and a length.
#[tactic(auto, unfolding(crate::specs::Lines::range_text))]
fn add_range(text: &mut Text, d2: u64, d3: u64) -> Result<(), NoMemory>
    ensures { OnOk result (text.new ≡ text.old ++ range_text d2 d3) }
{
    add_handle(text, d2)?;
    text.add_labelled(b" ", offset(d3))?;
    text.add_labelled(b" ", len(d2))
}

/// An offset, and one byte over and over.
#[tactic(auto, unfolding(crate::specs::Lines::fill_text))]
fn add_fill(text: &mut Text, d2: u64, d3: u64) -> Result<(), NoMemory>
    ensures { OnOk result (text.new ≡ text.old ++ fill_text d2 d3) }
{
    text.add_labelled(b" ", offset(d3))?;
    text.add(b" ")?;
    text.add_hex((d3 % 256) as u8)?;
    text.add_labelled(b"*", len(d2))
}

#[tactic(auto, unfolding(crate::specs::Lines::open_text))]
fn add_open(text: &mut Text, d2: u64, d3: u64) -> Result<(), NoMemory>
    ensures { OnOk result (text.new ≡ text.old ++ open_text d2 d3) }
{
    text.add(b"open ")?;
    add_handle(text, d2)?;
    add_target(text, d2, d3)
}

#[tactic(auto, unfolding(crate::specs::Lines::close_text))]
fn add_close(text: &mut Text, d2: u64) -> Result<(), NoMemory>
    ensures { OnOk result (text.new ≡ text.old ++ close_text d2) }
{
    text.add(b"close ")?;
    add_handle(text, d2)
}

#[tactic(auto, unfolding(crate::specs::Lines::read_text))]
fn add_read(text: &mut Text, d2: u64, d3: u64) -> Result<(), NoMemory>
    ensures { OnOk result (text.new ≡ text.old ++ read_text d2 d3) }
{
    text.add(b"read ")?;
    add_range(text, d2, d3)
}

#[tactic(auto, unfolding(crate::specs::Lines::write_text))]
fn add_write(text: &mut Text, d2: u64, d3: u64) -> Result<(), NoMemory>
    ensures { OnOk result (text.new ≡ text.old ++ write_text d2 d3) }
{
    text.add(b"write ")?;
    add_handle(text, d2)?;
    add_fill(text, d2, d3)
}

#[tactic(auto, unfolding(crate::specs::Lines::delete_text))]
fn add_delete(text: &mut Text, d2: u64, d3: u64) -> Result<(), NoMemory>
    ensures { OnOk result (text.new ≡ text.old ++ delete_text d2 d3) }
{
    text.add(b"delete ")?;
    add_range(text, d2, d3)
}

#[tactic(auto, unfolding(crate::specs::Lines::flush_text))]
fn add_flush(text: &mut Text, d2: u64) -> Result<(), NoMemory>
    ensures { OnOk result (text.new ≡ text.old ++ flush_text d2) }
{
    text.add(b"flush ")?;
    add_handle(text, d2)
}

/// The command of this choice.
#[tactic(auto, unfolding(crate::specs::Lines::chosen_text))]
pub fn add_chosen(text: &mut Text, choice: u64, d2: u64, d3: u64) -> Result<(), NoMemory>
    ensures { OnOk result (text.new ≡ text.old ++ chosen_text choice d2 d3) }
{
    if choice < 2 {
        add_open(text, d2, d3)
    } else if choice == 2 {
        add_close(text, d2)
    } else if choice < 5 {
        add_read(text, d2, d3)
    } else if choice == 5 {
        add_write(text, d2, d3)
    } else if choice == 6 {
        add_delete(text, d2, d3)
    } else {
        add_flush(text, d2)
    }
}
