//! A request on its way (g_bio(9)).
use geo_base::{BioCmd, BioId, ConsId, Errno, ProvId, SharedBytes};
use geo_model::{BioResult, Owner, Phase, Span};

/// How a bio ended, as the table keeps it: `AtPlace` names the bytes of a READ by their place in the log.
#[derive(Debug, Drop)]
pub enum Held {
    Done,
    Bytes(SharedBytes),
    AtPlace(u64),
    Failed(Errno),
}

/// A request from a consumer to a provider. The offset and the length of its span are in bytes, and `bytes` are those
/// of a WRITE. `children`, `finished` and `first_child` have a meaning only while the bio waits for its children.
#[derive(Debug, Drop)]
pub struct Bio {
    pub cmd: BioCmd,
    pub span: Span,
    pub bytes: SharedBytes,
    pub from: ConsId,
    pub to: ProvId,
    pub owner: Owner,
    pub phase: Phase,
    /// How many bios it was split into.
    pub children: u32,
    /// How many of them came in, and are Done.
    pub finished: u32,
    /// The number of the first of them, in piece order; the others have the numbers that follow.
    pub first_child: u64,
    /// How it ended, once it did.
    pub held: Option<Held>,
}

/// What became of a bio that went up: a child counts in its parent, which may be complete; a root is gone, and its
/// result is handed on.
#[derive(Debug, Drop)]
pub enum Risen {
    InParent { parent: BioId, complete: bool },
    Root(BioResult),
}
