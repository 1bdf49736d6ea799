//! The bytes of a value.
ghost use Rattle.std.specs.Prelude.{◌≡◌, ◌++◌, [], length, IfOk, OnOk, OnErr};
ghost use Rattle.sha2.specs.Sha256.{sha256};

use crate::holding::Holding;
use geo_lattice::Twin;
use geo_records::Digest;
use sha2::{Digest as Hash, Sha256};
use std::alloc::{AllocError, Global};
use std::marker::Model;

/// The bytes of a value, which contracts see as a list of bytes and nothing more. It may know their SHA-256, so that whoever is
/// about to wait for a site's lock can compute it before. A twin of a long one copies nothing.
#[derive(Drop)]
pub struct ValueBytes {
    bytes: Holding,
    digest: Option<Box<Digest>>,
}

impl Model for ValueBytes {
    ghost use Rattle.std.specs.Prelude.{◌≡◌, List, ℕ, IfSome};
    ghost use Rattle.sha2.specs.Sha256.{sha256};
    ghost use Rattle.geo_requests.specs.Holdings.{held};

    ghost Value = { List ℕ };

    ghost view = { λ v. held v.bytes };

    ghost invariant = { λ v. IfSome v.digest (λ d. d.value ≡ sha256 (held v.bytes)) };
}

impl ValueBytes {
    /// A value of these bytes. It takes no memory.
    pub fn of(bytes: Vec<u8>) -> ValueBytes
        ensures { result ≡ bytes.items }
    {
        ValueBytes {
            bytes: Holding::Lone(bytes),
            digest: None,
        }
    }

    /// Its bytes.
    pub fn as_slice(&self) -> &[u8]
        ensures { result.now ≡ self.now }
    {
        self.bytes.as_slice()
    }

    /// How many bytes it has.
    pub fn len(&self) -> usize
        ensures { result ≡ length self.now }
    {
        self.as_slice().len()
    }

    /// Their SHA-256, which is computed here unless it is known.
    pub fn digest(&self) -> Digest
        ensures { result ≡ sha256 self.now }
    {
        match &self.digest {
            Some(digest) => **digest,
            None => Digest::of(self.bytes.as_slice()),
        }
    }

    /// Computes their SHA-256, which is known from then on, unless there is no memory to keep it in.
    pub fn know_digest(&mut self, alloc: Global)
        ensures { self.new ≡ self.old }
    {
        if self.digest.is_none() {
            self.digest = Box::new(alloc, self.digest()).ok();
        }
    }

    /// Lets go of their SHA-256, so that it takes no memory where the bytes are kept.
    pub fn forget_digest(&mut self)
        ensures { self.new ≡ self.old }
    {
        self.digest = None;
    }
}

impl Twin for ValueBytes {
    fn twin(&self, alloc: Global) -> Result<Self, AllocError> {
        Ok(ValueBytes {
            bytes: self.bytes.again(alloc)?,
            digest: None,
        })
    }
}

/// Of a data block of so many bytes or more the SHA-256 is computed as it comes.
const LONG: usize = 8_192;

/// The bytes of a data block as they come, which contracts see as a list of bytes and nothing more. The SHA-256 of a long one is
/// computed piece by piece, so that nobody who is served by the same thread waits for the whole of it at once.
#[derive(Drop)]
pub struct DataBlock {
    bytes: Vec<u8>,
    // Fed with these bytes. None where they are few, or where there was no memory for it.
    hasher: Option<Box<Sha256>>,
}

impl Model for DataBlock {
    ghost use Rattle.std.specs.Prelude.{List, ℕ, IfSome};
    ghost use Rattle.sha2.specs.Hashers.{Holds256};

    ghost Value = { List ℕ };

    ghost view = { λ b. b.bytes.items };

    ghost invariant = { λ b. IfSome b.hasher (λ h. Holds256 h.value b.bytes.items) };
}

impl DataBlock {
    /// One of which nothing came, with room for so many bytes.
    pub fn with_room(alloc: Global, size: usize) -> Result<DataBlock, AllocError>
        ensures { IfOk result (λ block. block ≡ []) }
    {
        let bytes = Vec::with_capacity(alloc, size)?;
        let hasher = if size < LONG {
            None
        } else {
            Box::new(alloc, Sha256::new()).ok()
        };
        Ok(DataBlock { bytes, hasher })
    }

    /// What came of it.
    pub fn as_slice(&self) -> &[u8]
        ensures { result.now ≡ self.now }
    {
        self.bytes.as_slice()
    }

    /// More of it came.
    pub fn extend(&mut self, piece: &[u8]) -> Result<(), AllocError>
        ensures ok { OnOk result (self.new ≡ self.old ++ piece.now) }
        ensures err { OnErr result (self.new ≡ self.old) }
    {
        self.bytes.extend_from_slice(piece)?;
        if let Some(hasher) = &mut self.hasher {
            hasher.update(piece);
        }
        Ok(())
    }

    /// What came of it as a value, whose SHA-256 is known where it was computed and there is memory to keep it in.
    pub fn into_value(self, alloc: Global) -> ValueBytes
        ensures { result ≡ self }
    {
        let DataBlock { bytes, hasher } = self;
        let Some(hasher) = hasher else {
            return ValueBytes::of(bytes);
        };
        let hash = Box::into_inner(hasher).finalize();
        let digest = Box::new(alloc, Digest::new(hash)).ok();
        ValueBytes {
            bytes: Holding::joint(alloc, bytes),
            digest,
        }
    }
}
