//! Which requests fail.
ghost use Rattle.std.specs.Prelude.{◌≡◌};
ghost use Rattle.geo_model.specs.Bios.{is_hit};

/// Whether a geom that is told to fail each request of a number that `fail` divides fails the one of number `started`,
/// counted from 1. Where `fail` is 0 none fails.
pub fn hits(started: u64, fail: u64) -> bool
    ensures { result ≡ is_hit started fail }
{
    fail != 0 && started % fail == 0
}
