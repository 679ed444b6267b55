//! The bytes that a log keeps.
ghost use Rattle.std.specs.Prelude.{◌≡◌, option_copied};

use geo_base::SharedBytes;

/// A log, as the table asks it for bytes that were delivered.
pub trait LogBytes {
    ghost use Rattle.std.specs.Prelude.{ℕ, List, Option};

    // the bytes of a place, if it has some
    ghost place_bytes: { Self → ℕ → Option (List ℕ) };

    /// The bytes of a place; None exactly where the place has none.
    fn bytes_at(&self, place: u64) -> Option<&SharedBytes>
        ensures { option_copied result ≡ place_bytes self.now place };
}
