//! The sizes of assemblies.
ghost use Rattle.std.specs.Prelude.{◌≡◌, ◌*◌, ◌/◌, ◌≤◌, length, nat_le, None, Some, sum, if◌then◌else◌};
ghost use Rattle.geo_model.specs.Acceptance.{smallest};
ghost use Rattle.geo_class.specs.Assembly.{allowed_size};

use geo_base::{MAX_COMPONENTS, MAX_MEDIA_BYTES};

/// The smallest of the sizes, 0 where there are none.
pub fn smallest(sizes: &[u64]) -> u64
    ensures { result ≡ smallest sizes.now }
{
    match sizes {
        [] => 0,
        [size] => *size,
        [size, rest @ ..] => (*size).min(smallest(rest)),
    }
}

/// The sum of the sizes, where it is at most the greatest size.
fn total(sizes: &[u64]) -> Option<u64>
    ensures { result ≡ (if nat_le (sum sizes.now) MAX_MEDIA_BYTES then Some (sum sizes.now) else None) }
{
    match sizes {
        [] => Some(0),
        [size, rest @ ..] => match total(rest) {
            Some(others) if *size <= MAX_MEDIA_BYTES - others => Some(*size + others),
            _ => None,
        },
    }
}

/// The size of a provider whose components of these sizes stand one behind the other. None where no provider may
/// have it: it is 0, or above 2^60.
pub fn concat_size(sizes: &[u64]) -> Option<u64>
    ensures { result ≡ allowed_size (sum sizes.now) }
{
    match total(sizes) {
        Some(size) if size >= 1 => Some(size),
        _ => None,
    }
}

/// The size of a provider whose strips of `stripe` bytes go to components of these sizes in turn, as far as the
/// smallest goes. None where no provider may have it: it is 0, or above 2^60.
pub fn stripe_size(stripe: u32, sizes: &[u64]) -> Option<u64>
    requires { length sizes.now ≤ MAX_COMPONENTS }
    ensures { result ≡ allowed_size (length sizes.now * ((smallest sizes.now / stripe) * stripe)) }
{
    if stripe == 0 {
        return None;
    }
    let stripe = u64::from(stripe);
    let whole = smallest(sizes) / stripe * stripe;
    let size = sizes.len() as u128 * u128::from(whole);
    if size < 1 || size > u128::from(MAX_MEDIA_BYTES) {
        return None;
    }
    Some(size as u64)
}
