//! Ranges of providers, and pieces of requests.

/// A range of a provider, in bytes.
#[derive(Clone, Copy, Debug, Default, PartialEq, Eq)]
pub struct Span {
    pub offset: u64,
    pub len: u64,
}

/// A part of a provider that lies in one component: from `start`, `len` bytes long, in the component at `offset`.
#[derive(Clone, Copy, Debug, PartialEq, Eq)]
pub struct Stretch {
    pub start: u64,
    pub len: u64,
    pub component: u32,
    pub offset: u64,
}

/// A piece of a request: its component, its range there, and its place in the request.
#[derive(Clone, Copy, Debug, Default, PartialEq, Eq)]
pub struct Piece {
    pub child: u32,
    pub span: Span,
    pub at: u64,
}
