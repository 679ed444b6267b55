//! Counts of calls and of faults.
ghost use Rattle.std.specs.Prelude.{◌≡◌};
ghost use Rattle.geo_disk.specs.Counts.{counted_on};

/// One more. The count stands still at the end of its type.
#[tactic(auto, using(crate::proofs::CountLemmas::counted_on_saturates))]
pub fn one_more(count: u64) -> u64
    ensures { result ≡ counted_on count }
{
    count.saturating_add(1)
}
