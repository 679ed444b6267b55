//! The forms of command lines: one function for each command, from the words behind its name.
ghost use Rattle.std.specs.Prelude.{◌≡◌, ◌∷◌, [], codes};
ghost use Rattle.geo_script.specs.Reads.{Reads};
ghost use Rattle.geo_model.specs.Script.{by_word, write_words, concat_words, stripe_words, open_words, close_words, read_words, delete_words, flush_words, insert_words, pull_words, nop_words, append_words, destroy_words, label_words, relabel_words, mark_concat_words, mark_stripe_words, mark_words, counts_of, counts_word, class_names, class_word, beside};

use crate::number::{any_number, is_digit, record_count, record_id, record_place, stripe_size};
use crate::refusal::LineRefusal;
use crate::words::{Words, at_end, long_name, long_names, next_word, runs, short_name};
use geo_base::{Counts, Kind, Name};
use geo_model::{Cause, Command};
use std::alloc::Global;

/// The counts of a word `rNwNeN`, of one digit each and not all zero.
fn counts_of(word: &[u8]) -> Option<Counts>
    ensures { result ≡ counts_of word.now }
{
    match word {
        [b'r', r, b'w', w, b'e', e] if is_digit(*r) && is_digit(*w) && is_digit(*e) => {
            let counts = Counts {
                r: u32::from(*r - b'0'),
                w: u32::from(*w - b'0'),
                e: u32::from(*e - b'0'),
            };
            if counts.r + counts.w + counts.e == 0 {
                None
            } else {
                Some(counts)
            }
        }
        _ => None,
    }
}

fn counts_word<'a>(words: Words<'a>) -> Result<(Counts, Words<'a>), Cause>
    ensures { result ≡ counts_word words.entry }
{
    let (word, words) = next_word(words)?;
    match counts_of(word) {
        Some(counts) => Ok((counts, words)),
        None => Err(Cause::Counts),
    }
}

/// The class of a word, if it is one that a command can name.
fn class_of(word: &[u8]) -> Option<Kind>
    ensures { result ≡ beside class_names word.now }
{
    if b"mbr".as_slice() == word {
        Some(Kind::Mbr)
    } else if b"ebr".as_slice() == word {
        Some(Kind::Ebr)
    } else if b"label".as_slice() == word {
        Some(Kind::Label)
    } else if b"concat".as_slice() == word {
        Some(Kind::Concat)
    } else if b"stripe".as_slice() == word {
        Some(Kind::Stripe)
    } else if b"nop".as_slice() == word {
        Some(Kind::Nop)
    } else {
        None
    }
}

fn class_word<'a>(words: Words<'a>) -> Result<(Kind, Words<'a>), Cause>
    ensures { result ≡ class_word words.entry }
{
    let (word, words) = next_word(words)?;
    match class_of(word) {
        Some(class) => Ok((class, words)),
        None => Err(Cause::Word),
    }
}

/// `open H PROV rNwNeN`.
pub fn open(words: Words<'_>) -> Result<Command, Cause>
    ensures { result ≡ open_words words.entry }
{
    let (handle, words) = short_name(words)?;
    let (provider, words) = long_name(words)?;
    let (grant, words) = counts_word(words)?;
    at_end(
        Command::Open {
            handle,
            provider,
            grant,
        },
        words,
    )
}

/// `close H`.
pub fn close(words: Words<'_>) -> Result<Command, Cause>
    ensures { result ≡ close_words words.entry }
{
    let (handle, words) = short_name(words)?;
    at_end(Command::Close(handle), words)
}

/// `read H OFFSET LEN`.
pub fn read(words: Words<'_>) -> Result<Command, Cause>
    ensures { result ≡ read_words words.entry }
{
    let (handle, words) = short_name(words)?;
    let (offset, words) = any_number(words)?;
    let (len, words) = any_number(words)?;
    at_end(
        Command::Read {
            handle,
            offset,
            len,
        },
        words,
    )
}

/// `delete H OFFSET LEN`.
pub fn delete(words: Words<'_>) -> Result<Command, Cause>
    ensures { result ≡ delete_words words.entry }
{
    let (handle, words) = short_name(words)?;
    let (offset, words) = any_number(words)?;
    let (len, words) = any_number(words)?;
    at_end(
        Command::Delete {
            handle,
            offset,
            len,
        },
        words,
    )
}

/// `flush H`.
pub fn flush(words: Words<'_>) -> Result<Command, Cause>
    ensures { result ≡ flush_words words.entry }
{
    let (handle, words) = short_name(words)?;
    at_end(Command::Flush(handle), words)
}

/// `insert DISK`.
pub fn insert(words: Words<'_>) -> Result<Command, Cause>
    ensures { result ≡ insert_words words.entry }
{
    let (disk, words) = short_name(words)?;
    at_end(Command::Insert(disk), words)
}

/// `pull DISK`.
pub fn pull(words: Words<'_>) -> Result<Command, Cause>
    ensures { result ≡ pull_words words.entry }
{
    let (disk, words) = short_name(words)?;
    at_end(Command::Pull(disk), words)
}

/// `nop PROV OFFSET SIZE FAIL`.
pub fn nop(words: Words<'_>) -> Result<Command, Cause>
    ensures { result ≡ nop_words words.entry }
{
    let (provider, words) = long_name(words)?;
    let (offset, words) = any_number(words)?;
    let (size, words) = any_number(words)?;
    let (fail, words) = any_number(words)?;
    at_end(
        Command::Nop {
            provider,
            offset,
            size,
            fail,
        },
        words,
    )
}

/// `append NAME PROV`.
pub fn append(words: Words<'_>) -> Result<Command, Cause>
    ensures { result ≡ append_words words.entry }
{
    let (name, words) = short_name(words)?;
    let (provider, words) = long_name(words)?;
    at_end(Command::Append { name, provider }, words)
}

/// `destroy CLASS GEOM`.
pub fn destroy(words: Words<'_>) -> Result<Command, Cause>
    ensures { result ≡ destroy_words words.entry }
{
    let (kind, words) = class_word(words)?;
    let (name, words) = long_name(words)?;
    at_end(Command::Destroy { kind, name }, words)
}

/// `label H NAME`.
pub fn label(words: Words<'_>) -> Result<Command, Cause>
    ensures { result ≡ label_words words.entry }
{
    let (handle, words) = short_name(words)?;
    let (name, words) = short_name(words)?;
    at_end(Command::Label { handle, name }, words)
}

/// `relabel H NAME`.
pub fn relabel(words: Words<'_>) -> Result<Command, Cause>
    ensures { result ≡ relabel_words words.entry }
{
    let (handle, words) = short_name(words)?;
    let (name, words) = short_name(words)?;
    at_end(Command::Relabel { handle, name }, words)
}

/// `mark H concat NAME ID PLACE COUNT`, behind `concat`.
fn mark_concat(handle: Name, words: Words<'_>) -> Result<Command, Cause>
    ensures { result ≡ mark_concat_words handle words.entry }
{
    let (name, words) = short_name(words)?;
    let (id, words) = record_id(words)?;
    let (place, words) = record_place(words)?;
    let (count, words) = record_count(words)?;
    at_end(
        Command::MarkConcat {
            handle,
            name,
            id,
            place,
            count,
        },
        words,
    )
}

/// `mark H stripe NAME ID PLACE COUNT S`, behind `stripe`.
fn mark_stripe(handle: Name, words: Words<'_>) -> Result<Command, Cause>
    ensures { result ≡ mark_stripe_words handle words.entry }
{
    let (name, words) = short_name(words)?;
    let (id, words) = record_id(words)?;
    let (place, words) = record_place(words)?;
    let (count, words) = record_count(words)?;
    let (stripe, words) = stripe_size(words)?;
    at_end(
        Command::MarkStripe {
            handle,
            name,
            id,
            place,
            count,
            stripe,
        },
        words,
    )
}

/// What stands behind the handle of `mark`: `concat ..` or `stripe ..`.
fn mark_by(handle: Name, word: &[u8], words: Words<'_>) -> Result<Command, Cause>
    ensures { result
        ≡ by_word ((codes "concat", mark_concat_words handle) ∷ (codes "stripe", mark_stripe_words handle) ∷ [])
        (word.now ∷ words.entry) }
{
    if b"concat".as_slice() == word {
        mark_concat(handle, words)
    } else if b"stripe".as_slice() == word {
        mark_stripe(handle, words)
    } else {
        Err(Cause::Word)
    }
}

/// `mark H concat ..` and `mark H stripe ..`.
pub fn mark(words: Words<'_>) -> Result<Command, Cause>
    ensures { result ≡ mark_words words.entry }
{
    let (handle, words) = short_name(words)?;
    let (word, words) = next_word(words)?;
    mark_by(handle, word, words)
}

/// `write H OFFSET RUNS`.
pub fn write(alloc: Global, words: Words<'_>) -> Result<Command, LineRefusal>
    ensures { Reads result (write_words words.entry) }
{
    let (handle, words) = short_name(words)?;
    let (offset, words) = any_number(words)?;
    let bytes = runs(alloc, words)?;
    Ok(Command::Write {
        handle,
        offset,
        bytes,
    })
}

/// `concat NAME PROV..`.
pub fn concat(alloc: Global, words: Words<'_>) -> Result<Command, LineRefusal>
    ensures { Reads result (concat_words words.entry) }
{
    let (name, words) = short_name(words)?;
    let providers = long_names(alloc, words)?;
    Ok(Command::Concat { name, providers })
}

/// `stripe NAME S PROV..`.
pub fn stripe(alloc: Global, words: Words<'_>) -> Result<Command, LineRefusal>
    ensures { Reads result (stripe_words words.entry) }
{
    let (name, words) = short_name(words)?;
    let (stripe, words) = stripe_size(words)?;
    let providers = long_names(alloc, words)?;
    Ok(Command::Stripe {
        name,
        stripe,
        providers,
    })
}
