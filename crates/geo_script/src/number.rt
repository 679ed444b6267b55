//! The numbers of a line. Each reader gives its number and the words that are left.
ghost use Rattle.std.specs.Prelude.{◌≡◌, ◌+◌, ◌-◌, ◌*◌, ◌≤◌, if◌then◌else◌};
ghost use Rattle.std.specs.List.{list_all};
ghost use Rattle.geo_script.specs.Reads.{fitting};
ghost use Rattle.geo_model.specs.Script.{is_digit, is_decimal, value_of, number_of, any_number, sector_size, sector_count, record_id, record_count, record_place, stripe_size};

use crate::words::{Words, next_word};
use geo_base::{MAX_COMPONENTS, MAX_MEMORY_DISK_BYTES};
use geo_model::Cause;

/// Whether it is a decimal digit.
pub fn is_digit(b: u8) -> bool
    ensures { result ≡ is_digit b }
{
    b'0' <= b && b <= b'9'
}

/// Whether each byte is a decimal digit.
fn are_digits(bytes: &[u8]) -> bool
    ensures { result ≡ list_all is_digit bytes.now }
{
    bytes.iter().all(|b| is_digit(*b))
}

/// Whether the bytes are a decimal number without a leading zero.
fn is_decimal(bytes: &[u8]) -> bool
    ensures { result ≡ is_decimal bytes.now }
{
    match bytes {
        [] => false,
        [first, rest @ ..] => are_digits(bytes) && (*first != b'0' || rest.is_empty()),
    }
}

/// The number with one digit behind it, if it is below 2^64.
fn next_value(value: u64, digit: u8) -> Option<u64>
    ensures { result ≡ fitting (10 * value + (digit - 48)) }
{
    let more = u128::from(value) * 10 + u128::from(digit.saturating_sub(b'0'));
    if more < 0x1_0000_0000_0000_0000 {
        Some(more as u64)
    } else {
        None
    }
}

/// The number that decimal digits stand for, if it is below 2^64.
fn value_of(digits: &[u8]) -> Option<u64>
    ensures { result ≡ fitting (value_of digits.now) }
{
    let mut value = 0u64;
    for b in digits {
        match next_value(value, *b) {
            Some(more) => value = more,
            None => return None,
        }
    }
    Some(value)
}

/// The number of a word: decimal digits without a leading zero, below 2^64.
fn number_of(word: &[u8]) -> Option<u64>
    ensures { result ≡ number_of word.now }
{
    if is_decimal(word) {
        value_of(word)
    } else {
        None
    }
}

/// A number.
pub fn any_number<'a>(words: Words<'a>) -> Result<(u64, Words<'a>), Cause>
    ensures { result ≡ any_number words.entry }
{
    let (word, words) = next_word(words)?;
    match number_of(word) {
        Some(n) => Ok((n, words)),
        None => Err(Cause::Number),
    }
}

/// A sector size in bytes: 512 or 4096.
pub fn sector_size<'a>(words: Words<'a>) -> Result<(u32, Words<'a>), Cause>
    ensures { result ≡ sector_size words.entry }
{
    let (word, words) = next_word(words)?;
    match number_of(word) {
        Some(512) => Ok((512, words)),
        Some(4096) => Ok((4096, words)),
        Some(_) => Err(Cause::Range),
        None => Err(Cause::Number),
    }
}

/// The sectors of a disk in memory, which has at most 67,108,864 bytes.
pub fn sector_count<'a>(sector: u32, words: Words<'a>) -> Result<(u64, Words<'a>), Cause>
    requires { 1 ≤ sector }
    ensures { result ≡ sector_count sector words.entry }
{
    let (word, words) = next_word(words)?;
    match number_of(word) {
        Some(n)
            if 1 <= n
                && n <= MAX_MEMORY_DISK_BYTES
                && n * u64::from(sector) <= MAX_MEMORY_DISK_BYTES => Ok((n, words)),
        Some(_) => Err(Cause::Range),
        None => Err(Cause::Number),
    }
}

/// The id of a record: below 2^32.
pub fn record_id<'a>(words: Words<'a>) -> Result<(u64, Words<'a>), Cause>
    ensures { result ≡ record_id words.entry }
{
    let (word, words) = next_word(words)?;
    match number_of(word) {
        Some(n) if n < 0x1_0000_0000 => Ok((n, words)),
        Some(_) => Err(Cause::Range),
        None => Err(Cause::Number),
    }
}

/// A number below 2^32.
pub fn small_number<'a>(words: Words<'a>) -> Result<(u32, Words<'a>), Cause>
    ensures { result ≡ record_id words.entry }
{
    let (word, words) = next_word(words)?;
    match number_of(word) {
        Some(n) if n < 0x1_0000_0000 => Ok((n as u32, words)),
        Some(_) => Err(Cause::Range),
        None => Err(Cause::Number),
    }
}

/// The count of a record: 1 to 16.
pub fn record_count<'a>(words: Words<'a>) -> Result<(u64, Words<'a>), Cause>
    ensures { result ≡ record_count words.entry }
{
    let (word, words) = next_word(words)?;
    match number_of(word) {
        Some(n) if 1 <= n && n <= MAX_COMPONENTS as u64 => Ok((n, words)),
        Some(_) => Err(Cause::Range),
        None => Err(Cause::Number),
    }
}

/// The place of a record: below 65,536.
pub fn record_place<'a>(words: Words<'a>) -> Result<(u64, Words<'a>), Cause>
    ensures { result ≡ record_place words.entry }
{
    let (word, words) = next_word(words)?;
    match number_of(word) {
        Some(n) if n < 0x1_0000 => Ok((n, words)),
        Some(_) => Err(Cause::Range),
        None => Err(Cause::Number),
    }
}

/// A stripe size in bytes: 1 to 2^32 - 1.
pub fn stripe_size<'a>(words: Words<'a>) -> Result<(u64, Words<'a>), Cause>
    ensures { result ≡ stripe_size words.entry }
{
    let (word, words) = next_word(words)?;
    match number_of(word) {
        Some(n) if 1 <= n && n < 0x1_0000_0000 => Ok((n, words)),
        Some(_) => Err(Cause::Range),
        None => Err(Cause::Number),
    }
}
