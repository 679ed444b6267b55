//! Places in a text.

/// A place in a text where a line begins: the number of the line, and what stands from there on.
#[derive(Clone, Copy, Debug)]
pub struct Place<'a> {
    pub line: u32,
    pub text: &'a [u8],
}
