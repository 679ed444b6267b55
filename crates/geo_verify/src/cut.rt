//! Where the script of a trace ends, and the lines of texts.
ghost use Rattle.std.specs.Prelude.{◌≡◌, ◌<◌, ◌≤◌, ◌^◌, ◌+◌, ◌∷◌, [], length, take, drop, IfSome, MatchOption};
ghost use Rattle.geo_model.specs.Script.{lines_of};
ghost use Rattle.geo_headline.specs.Traces.{script_part, marked_part, parts_of};

use geo_script::{find_byte, first_line};

/// Where the first line begins that has the mark, or the length of the text.
fn marked_from(text: &[u8]) -> usize
    ensures script { script_part text.now ≡ take result text.now }
    ensures marked { marked_part text.now ≡ drop result text.now }
    ensures inside { result ≤ length text.now }
{
    let mut at = 0;
    let mut begins = true;
    while at < text.len() && !(begins && text[at] == b'%') {
        begins = text[at] == b'\n';
        at += 1;
    }
    at
}

/// The script of a trace, and what stands from the first line on that has the mark.
pub fn cut(text: &[u8]) -> (&[u8], &[u8])
    ensures script { result.0.now ≡ script_part text.now }
    ensures marked { result.1.now ≡ marked_part text.now }
    ensures long { length result.0.now + length result.1.now ≡ length text.now }
{
    let at = marked_from(text);
    (&text[..at], &text[at..])
}

/// How many lines a text has.
pub fn line_count(text: &[u8]) -> u32
    requires { length text.now < 2 ^ 32 }
    ensures count { result ≡ length (lines_of text.now) }
    ensures few { result ≤ length text.now }
{
    let mut count = 0u32;
    let mut rest = text;
    while !rest.is_empty() {
        let (_, behind) = first_line(rest);
        count += 1;
        rest = behind;
    }
    count
}

/// The first line of a text without its line feed, and what stands behind that. None where no line is ended.
pub fn ended_line(text: &[u8]) -> Option<(&[u8], &[u8])>
    ensures parts { MatchOption result (parts_of text.now ≡ text.now ∷ [])
        (λ x. parts_of text.now ≡ x.0.now ∷ parts_of x.1.now) }
    ensures shorter { IfSome result (λ x. length x.0.now + length x.1.now < length text.now) }
{
    match find_byte(text, b'\n') {
        Some(at) => Some((&text[..at], &text[at + 1..])),
        None => None,
    }
}
