//! How long a value is.
ghost use Rattle.std.specs.Prelude.{◌≡◌, ◌≤◌, ◌<◌, MatchOption};
ghost use Rattle.geo_records.specs.Lengths.{longest_value};

use std::marker::Model;

/// The most bytes of a value: a mebibyte.
pub const LONGEST_VALUE: u32 = 1_048_576;

/// How many bytes a value has: at most [`LONGEST_VALUE`].
#[derive(Clone, Copy, Debug, PartialEq, Eq, PartialOrd, Ord)]
pub struct Length {
    bytes: u32,
}

impl Model for Length {
    ghost use Rattle.std.specs.Prelude.{ℕ, ◌≤◌};
    ghost use Rattle.geo_records.specs.Lengths.{longest_value};

    ghost Value = { ℕ };

    ghost view = { λ l. l.bytes };

    ghost invariant = { λ l. l.bytes ≤ longest_value };

    ghost inverse = { λ bytes. record { bytes = bytes } };
}

impl Length {
    /// The length of so many bytes, None exactly where they are too many.
    pub fn new(bytes: u32) -> Option<Length>
        ensures { MatchOption result (longest_value < bytes) (λ l. (bytes ≤ longest_value) × (l ≡ bytes)) }
    {
        if bytes > LONGEST_VALUE {
            return None;
        }
        Some(Length { bytes })
    }

    /// The length of so many bytes, where they are not too many.
    pub fn of(bytes: u32) -> Length
        requires { bytes ≤ longest_value }
        ensures { result ≡ bytes }
    {
        Length { bytes }
    }

    /// How many bytes.
    pub fn get(&self) -> u32
        ensures bytes { result ≡ self.now }
        ensures range { result ≤ longest_value }
    {
        self.bytes
    }
}
