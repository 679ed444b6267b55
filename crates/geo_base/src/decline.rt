//! Why a class declines the sector that it was shown.
use thiserror::Error;

/// The first cause by which a sector isn't what a class looks for.
#[derive(Clone, Copy, Debug, PartialEq, Eq)]
pub enum DeclineCause {
    /// A partition table, or a link of a chain, without 0x55, 0xAA at its end.
    Signature,
    /// A partition table with an entry of type 0xEE, which protects a table of another kind.
    Protective,
    /// A partition table of which no entry is kept, or a chain of which no partition is.
    Nothing,
    /// A record of another magic.
    Magic,
    /// A record of another version.
    Version,
    /// A record whose name isn't one.
    BadName,
    /// A record whose count isn't 1 to `MAX_COMPONENTS`, or whose place isn't below it.
    Place,
    /// A record of a stripe whose stripe size doesn't fit.
    Size,
    /// A record of a label that names another media size.
    Media,
    /// A link whose second entry is of a type that doesn't lead to a link.
    Second,
    /// A link that leads back to one that was read.
    Loop,
    /// A link that leads past the media.
    Far,
    /// A chain of more than `MAX_LINKS` links.
    Long,
}

/// A sector that a class declined.
#[derive(Clone, Copy, Debug, PartialEq, Eq, Error)]
#[error("declined: {cause:?}")]
pub struct Declined {
    pub cause: DeclineCause,
}
