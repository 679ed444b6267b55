//! Short numbers of lines, each read in one pass. None says nothing: such a number is read as a word.
ghost use Rattle.std.specs.Prelude.{◌≡◌, ◌≤◌, ◌++◌, ◌∷◌, [], List, ℕ, Some, IfSome, length};
ghost use Rattle.geo_model.specs.Script.{is_digit, number_of, words_of};
ghost use Rattle.geo_verify.specs.Numbers.{StartsWith, has_form};

/// Whether it is a decimal digit.
fn is_digit(b: u8) -> bool
    ensures { result ≡ is_digit b }
{
    b'0' <= b && b <= b'9'
}

/// Whether so many first bytes are a number, if they are digits: there are some, and no zero is in front, but for `0`.
fn is_number(text: &[u8], count: usize) -> bool
    requires { count ≤ length text.now }
    ensures { result ≡ has_form count text.now }
{
    if count == 1 {
        return true;
    }
    count > 1 && text[0] != b'0'
}

/// The number of at most 18 digits with which a text begins, and what stands behind it.
fn number_in_front(text: &[u8]) -> Option<(u64, &[u8])>
    ensures { IfSome result (λ x. (word : List ℕ) × ((text.now ≡ word ++ x.1.now) × (number_of word ≡ Some x.0))) }
{
    let mut value = 0u64;
    let mut at = 0;
    while at < text.len() && is_digit(text[at]) {
        if value >= 100_000_000_000_000_000 {
            return None;
        }
        value = value * 10 + u64::from(text[at] - b'0');
        at += 1;
    }
    if is_number(text, at) {
        Some((value, &text[at..]))
    } else {
        None
    }
}

/// What stands behind a space.
fn behind_space(text: &[u8]) -> Option<&[u8]>
    ensures { IfSome result (λ rest. text.now ≡ 32 ∷ rest.now) }
{
    match text {
        [b' ', rest @ ..] => Some(rest),
        _ => None,
    }
}

/// The number that is the only word of a text.
pub fn only_number(text: &[u8]) -> Option<u64>
    ensures { IfSome result (λ n. StartsWith (words_of text.now) n []) }
{
    let (number, rest) = number_in_front(text)?;
    if rest.is_empty() { Some(number) } else { None }
}

/// The number that is the first word of a text, and what stands behind the space.
pub fn first_number(text: &[u8]) -> Option<(u64, &[u8])>
    ensures { IfSome result (λ x. StartsWith (words_of text.now) x.0 (words_of x.1.now)) }
{
    let (number, rest) = number_in_front(text)?;
    let behind = behind_space(rest)?;
    Some((number, behind))
}
