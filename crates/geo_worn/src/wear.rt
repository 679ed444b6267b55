//! How often sectors were written.
ghost use Rattle.std.specs.Prelude.{◌≡◌, ◌+◌, ◌≤◌, length, map};
ghost use Rattle.geo_disk.specs.Counts.{counted_on};
ghost use Rattle.geo_worn.specs.Worn.{is_worn, worn_on};

use geo_disk::one_more;

/// Whether one of `count` sectors from `first` on was written as often as a sector bears.
pub fn is_worn(bears: u64, first: usize, count: usize, writes: &[u64]) -> bool
    requires { first + count ≤ length writes.now }
    ensures { result ≡ is_worn bears first count writes.now }
{
    writes[first..first + count]
        .iter()
        .any(|written| bears <= *written)
}

/// One write more of each sector.
fn wear_all(writes: &mut [u64])
    ensures { writes.new ≡ map counted_on writes.old }
{
    for written in writes.iter_mut() {
        *written = one_more(*written);
    }
}

/// One write more of each of `count` sectors from `first` on.
pub fn wear(first: usize, count: usize, writes: &mut [u64])
    requires { first + count ≤ length writes.old }
    ensures { writes.new ≡ worn_on first count writes.old }
{
    wear_all(&mut writes[first..first + count]);
}
