//! The forms of header lines: one function for each, from the words behind its first.
ghost use Rattle.std.specs.Prelude.{◌≡◌};
ghost use Rattle.geo_model.specs.Script.{later_word, ram_words, disk_words, actor_words};

use crate::number::{sector_count, sector_size};
use crate::words::{Words, at_end, next_word, short_name};
use geo_base::Name;
use geo_model::{Cause, DiskDecl, DiskKind};

/// Nothing more, or the word `later`.
fn later<'a>(words: Words<'a>) -> Result<(bool, Words<'a>), Cause>
    ensures { result ≡ later_word words.entry }
{
    if words.is_empty() {
        return Ok((false, words));
    }
    let (word, words) = next_word(words)?;
    if word == b"later".as_slice() {
        Ok((true, words))
    } else {
        Err(Cause::Word)
    }
}

/// `ram NAME SECTOR SECTORS [later]`: a disk in memory.
pub fn ram(words: Words<'_>) -> Result<DiskDecl, Cause>
    ensures { result ≡ ram_words words.entry }
{
    let (name, words) = short_name(words)?;
    let (sector, words) = sector_size(words)?;
    let (sectors, words) = sector_count(sector, words)?;
    let (later, words) = later(words)?;
    let disk = DiskDecl {
        kind: DiskKind::Ram,
        name,
        sector,
        sectors,
        later,
    };
    at_end(disk, words)
}

/// `disk NAME SECTOR [later]`: a disk of the shelf.
pub fn disk(words: Words<'_>) -> Result<DiskDecl, Cause>
    ensures { result ≡ disk_words words.entry }
{
    let (name, words) = short_name(words)?;
    let (sector, words) = sector_size(words)?;
    let (later, words) = later(words)?;
    let disk = DiskDecl {
        kind: DiskKind::Shelf,
        name,
        sector,
        sectors: 0,
        later,
    };
    at_end(disk, words)
}

/// `actor NAME`.
pub fn actor(words: Words<'_>) -> Result<Name, Cause>
    ensures { result ≡ actor_words words.entry }
{
    let (name, words) = short_name(words)?;
    at_end(name, words)
}
