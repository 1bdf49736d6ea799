//! SHA-256 digests of values.
ghost use Rattle.std.specs.Prelude.{◌≡◌, List, ℕ, refl};
ghost use Rattle.sha2.specs.Sha256.{sha256};

use sha2::{Digest as Hash, Sha256};
use std::marker::Model;

/// The SHA-256 of some bytes (FIPS 180-4): 32 bytes, ordered byte by byte.
#[derive(Clone, Copy, Debug, PartialEq, Eq, PartialOrd, Ord)]
pub struct Digest {
    bytes: [u8; 32],
}

impl Model for Digest {
    ghost use Rattle.std.specs.Prelude.{List, ℕ};

    ghost Value = { List ℕ };

    ghost view = { λ d. d.bytes };

    ghost inverse = { λ bytes. record { bytes = bytes } };
}

impl Digest {
    /// The digest with these bytes.
    pub fn new(bytes: [u8; 32]) -> Digest
        ensures { result ≡ bytes }
    {
        Digest { bytes }
    }

    /// The digest of these bytes.
    pub fn of(bytes: &[u8]) -> Digest
        ensures { result ≡ sha256 bytes.now }
    {
        Digest {
            bytes: Sha256::digest(bytes),
        }
    }

    /// The 32 bytes.
    pub fn bytes(&self) -> &[u8; 32]
        ensures { result.now ≡ self.now }
    {
        &self.bytes
    }
}
