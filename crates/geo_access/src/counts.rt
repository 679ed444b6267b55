//! Counts while they are tried, which stop at the greatest number of their type.
ghost use Rattle.std.specs.Prelude.{◌≡◌, ◌&&◌, ◌||◌, not};
ghost use Rattle.geo_model.specs.Demand.{add_counts, no_counts, is_zero};
ghost use Rattle.geo_laws_counts.specs.CountWords.{more_counts};
ghost use Rattle.geo_access.specs.Tries.{is_too_great, had, shifted, made_of, exclusive_where};
ghost use Rattle.geo_laws_counts.specs.WalkWords.{cap};

use geo_base::{Counts, Kind, MAX_ACCESS_COUNT};

/// Whether a demand comes or goes.
#[derive(Clone, Copy, Debug, PartialEq, Eq)]
pub enum Way {
    /// Counts rise.
    Rises,
    /// Counts fall.
    Falls,
}

/// What the providers of a geom gain together, and whether none of them has a count without it.
#[derive(Clone, Copy, Debug, PartialEq, Eq)]
pub struct Weight {
    pub sum: Counts,
    pub quiet: bool,
}

/// No counts.
pub const NO_COUNTS: Counts = Counts { r: 0, w: 0, e: 0 };

/// The sum, where no count passes the greatest number of its type.
pub fn add(a: Counts, b: Counts) -> Counts
    ensures { result ≡ cap (add_counts a b) }
{
    Counts {
        r: a.r.saturating_add(b.r),
        w: a.w.saturating_add(b.w),
        e: a.e.saturating_add(b.e),
    }
}

/// What the first has less than the second.
pub fn less(a: Counts, b: Counts) -> Counts
    ensures { result ≡ more_counts a b }
{
    Counts {
        r: b.r.saturating_sub(a.r),
        w: b.w.saturating_sub(a.w),
        e: b.e.saturating_sub(a.e),
    }
}

/// Whether there is no count at all.
pub fn is_zero(a: Counts) -> bool
    ensures { result ≡ is_zero a }
{
    a.r == 0 && (a.w == 0 && a.e == 0)
}

/// Whether a count is above what a provider may have.
pub fn is_over(a: Counts) -> bool
    ensures { result ≡ is_too_great a }
{
    a.r > MAX_ACCESS_COUNT || (a.w > MAX_ACCESS_COUNT || a.e > MAX_ACCESS_COUNT)
}

/// The counts once they are moved by what is gained or lost.
pub fn shifted(way: Way, have: Counts, gain: Counts) -> Counts
    ensures { result ≡ shifted way have gain }
{
    match way {
        Way::Rises => add(have, gain),
        Way::Falls => less(gain, have),
    }
}

/// The counts without the demand that comes or goes.
pub fn had(way: Way, have: Counts, gain: Counts) -> Counts
    ensures { result ≡ had way have gain }
{
    match way {
        Way::Rises => have,
        Way::Falls => less(gain, have),
    }
}

/// What a consumer of a class gains, where its geom's providers gain so much.
pub fn made_of(kind: Kind, weight: Weight) -> Counts
    ensures { result ≡ made_of kind weight }
{
    match kind {
        Kind::Disk | Kind::Dev | Kind::Taste => NO_COUNTS,
        _ => with_exclusive(
            weight.sum,
            kind.adds_exclusive() && (weight.quiet && !is_zero(weight.sum)),
        ),
    }
}

// The counts, and perhaps one exclusive count more.
fn with_exclusive(sum: Counts, more: bool) -> Counts
    ensures { result ≡ cap (add_counts sum (exclusive_where more)) }
{
    let e = if more { 1 } else { 0 };
    add(sum, Counts { r: 0, w: 0, e })
}
