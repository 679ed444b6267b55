//! What classes read in sectors, and what they say to it.
use geo_base::{DeclineCause, Kind, MAX_LINKS, Name};

/// A slice of an MBR table, in sectors of 512 bytes.
#[derive(Clone, Copy, Debug)]
pub struct Slice {
    pub first: u32,
    pub count: u32,
}

/// The slices of an MBR table, by its four entries.
#[derive(Clone, Copy, Debug)]
pub struct MbrTable {
    pub slices: [Option<Slice>; 4],
}

/// A logical partition, in sectors of 512 bytes of the provider on which its chain stands.
#[derive(Clone, Copy, Debug)]
pub struct EbrPart {
    pub first: u64,
    pub count: u32,
}

/// The partitions of a chain, by its links.
#[derive(Clone, Copy, Debug)]
pub struct EbrTable {
    pub parts: [Option<EbrPart>; MAX_LINKS],
}

/// The record of a label; a record of version 2 has the media size in bytes of the provider on which it stands.
#[derive(Clone, Copy, Debug)]
pub struct LabelRecord {
    pub name: Name,
    pub size: Option<u64>,
}

/// The record of a place in a concat.
#[derive(Clone, Copy, Debug)]
pub struct ConcatRecord {
    pub name: Name,
    pub id: u32,
    pub place: u16,
    pub count: u16,
}

/// The record of a place in a stripe.
#[derive(Clone, Copy, Debug)]
pub struct StripeRecord {
    pub name: Name,
    pub id: u32,
    pub place: u16,
    pub count: u16,
    pub stripe: u32,
}

/// What a class knows of a tasted provider: the class of its geom, its sector size and its sectors.
#[derive(Clone, Copy, Debug)]
pub struct Facts {
    pub kind: Kind,
    pub sector: u32,
    pub sectors: u64,
}

/// What a class found in the sectors that it read.
#[derive(Clone, Copy, Debug)]
pub enum Shape {
    Slices(MbrTable),
    Logical(EbrTable),
    Named(LabelRecord),
    Joined(ConcatRecord),
    Striped(StripeRecord),
}

/// What a class says to a sector: it declines, wants another sector, or accepts.
#[derive(Clone, Copy, Debug)]
pub enum Verdict {
    Decline(DeclineCause),
    More(u64),
    Accept(Shape),
}

/// What a step of a taste comes to: a read of a sector, the next class, a geom or a place that was made, the end.
#[derive(Clone, Copy, Debug)]
pub enum Judged {
    Read { sector: u64 },
    Next,
    Made,
    Ended,
}
