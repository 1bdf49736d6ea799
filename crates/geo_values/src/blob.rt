//! Values with their SHA-256.
ghost use Rattle.std.specs.Prelude.{◌≡◌};
ghost use Rattle.sha2.specs.Sha256.{sha256};

use geo_versions::Digest;
use std::marker::Model;

/// The bytes of a value, which stand elsewhere, with their SHA-256 beside them, so that it is computed once.
#[derive(Drop)]
pub struct Blob<'a> {
    bytes: &'a [u8],
    digest: Digest,
}

impl<'a> Model for Blob<'a> {
    ghost use Rattle.std.specs.Prelude.{◌≡◌, List, ℕ};
    ghost use Rattle.sha2.specs.Sha256.{sha256};

    ghost Value = { List ℕ };

    ghost view = { λ b. b.bytes.now };

    ghost invariant = { λ b. b.digest ≡ sha256 b.bytes.now };
}

impl<'a> Blob<'a> {
    /// The value of these bytes.
    pub fn new(bytes: &'a [u8]) -> Blob<'a>
        ensures { result ≡ bytes.now }
    {
        Blob::known(bytes, Digest::of(bytes))
    }

    /// The value of bytes whose SHA-256 is known.
    pub fn known(bytes: &'a [u8], digest: Digest) -> Blob<'a>
        requires { digest ≡ sha256 bytes.now }
        ensures { result ≡ bytes.now }
    {
        Blob { bytes, digest }
    }

    /// The bytes.
    pub fn bytes(&self) -> &'a [u8]
        ensures { result.now ≡ self.now }
    {
        self.bytes
    }

    /// Their SHA-256.
    pub fn digest(&self) -> Digest
        ensures { result ≡ sha256 self.now }
    {
        self.digest
    }
}
