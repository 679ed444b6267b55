//! The limits of the profile, each stated once. `docs/PROFILE.md` lists them.
//!
//! Where a clause or a definition names a power of two (`2 ^ 16`, `2 ^ 32`, `2 ^ 64`), that is the end of a machine's
//! word and no limit of the profile.

/// The most bytes of a request (g_bio(9)).
pub const MAX_REQUEST_BYTES: u64 = 32_768;

/// The most bytes for which a text of runs stands.
pub const MAX_RUNS_BYTES: usize = 65_536;

/// The most bytes of a provider's media: 2^60.
pub const MAX_MEDIA_BYTES: u64 = 1 << 60;

/// The most bytes of an image: 2^40.
pub const MAX_IMAGE_BYTES: u64 = 1 << 40;

/// The most bytes of a disk in memory.
pub const MAX_MEMORY_DISK_BYTES: u64 = 67_108_864;

/// The most bytes of a strip: as many as a request may have.
pub const MAX_STRIPE_BYTES: u64 = MAX_REQUEST_BYTES;

/// The most components of a CONCAT or a STRIPE.
pub const MAX_COMPONENTS: usize = 16;

/// The most links of a chain of logical partitions.
pub const MAX_LINKS: usize = 32;

/// The most sectors that a class reads in one taste: a table of links, and each of them.
pub const MAX_TASTE_READS: usize = 33;

/// The greatest rank of a geom other than DEV and TASTE (g_attach(9)).
pub const MAX_RANK: u32 = 32;

/// The rank of a geom from which on its providers aren't tasted.
pub const UNTASTED_RANK: u32 = 8;

/// The greatest read, write or exclusive count of a provider (g_access(9)).
pub const MAX_ACCESS_COUNT: u32 = 2_147_483_647;

/// The most entries of a log, the places that it owes among them: 2^32.
pub const MAX_LOG_ENTRIES: u64 = 1 << 32;

/// The tickets that a lane has room for.
pub const LANE_TICKETS: usize = 1_024;

/// The most bytes of a script.
pub const MAX_SCRIPT_BYTES: u32 = 4_194_304;

/// The most bytes of a trace, its script among them.
pub const MAX_TRACE_BYTES: u32 = 67_108_864;

/// The greatest number of a line of a script, but for lines that are skipped.
pub const MAX_SCRIPT_LINES: u32 = 4_096;

/// The most bytes of a line, but for one whose second word is `write`.
pub const MAX_LINE_BYTES: usize = 255;

/// The most bytes of a line whose second word is `write`.
pub const MAX_WRITE_LINE_BYTES: usize = 8_192;

/// The most disks in the header of a script.
pub const MAX_DISKS: usize = 16;

/// The most actors in the header of a script.
pub const MAX_ACTORS: usize = 16;

/// The greatest START from which a script is made.
pub const MAX_START: u32 = 2_147_483_647;

/// The most lines that are drawn of a script that is made from a number.
pub const MAX_DRAWN_LINES: u32 = 4_000;
