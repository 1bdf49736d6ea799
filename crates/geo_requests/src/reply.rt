//! Replies.
ghost use Rattle.std.specs.Prelude.{◌≡◌, true, false, MatchOption};
ghost use Rattle.geo_requests.specs.Replies.{is_short};

use crate::shared::Shared;
use crate::shown::Shown;
use crate::stats::Stats;
use geo_lattice::Twin;
use geo_records::Key;
use std::alloc::{AllocError, Global};

/// A value that was found. Its unique number is there where the client asked for numbers.
#[derive(Drop)]
pub struct Found {
    pub key: Key,
    pub flags: u32,
    pub unique: Option<u64>,
    pub bytes: Shown,
}

impl Twin for Found {
    fn twin(&self, alloc: Global) -> Result<Self, AllocError> {
        Ok(Found {
            key: self.key.twin(alloc)?,
            flags: self.flags,
            unique: self.unique,
            bytes: self.bytes.twin(alloc)?,
        })
    }
}

/// The answer to a request (memcached's protocol.txt, "Error strings" and the section of each command).
#[derive(Drop)]
pub enum Reply {
    /// The value was stored.
    Stored,
    /// The value was not stored, for a key was there that must not be, or was not there that must be.
    NotStored,
    /// The value was not replaced, for it changed since the client saw it.
    Exists,
    /// There is no value of the key.
    NotFound,
    /// The value was deleted.
    Deleted,
    /// The value has another time to live.
    Touched,
    /// The request was carried out.
    Done,
    /// The number that the value is now.
    Number(u64),
    /// The values that were found, in the order of the request's keys.
    Values(Shared<Found>),
    /// The version of the server.
    Version,
    /// The site's numbers.
    Stats(Stats),
    /// The connection ends, and nothing is written.
    Closed,
    /// The value is no number, so nothing can be added to it.
    NotANumber,
    /// The value would have more bytes than a value may have.
    TooLarge,
    /// The site keeps as many records as it may, so it takes no new key.
    MapFull,
    /// The site's clock has reached its end, so nothing can be written any more.
    ClockEnded,
    /// There was no memory for it.
    OutOfMemory,
}

impl Reply {
    /// A copy of a reply that shows no values, which takes no memory; None for one that does.
    pub fn short_copy(&self) -> Option<Reply>
        ensures { MatchOption result (is_short self.now ≡ false) (λ copy. (is_short self.now ≡ true) × (copy ≡ self.now)) }
    {
        Some(match self {
            Reply::Values(_) => return None,
            Reply::Stored => Reply::Stored,
            Reply::NotStored => Reply::NotStored,
            Reply::Exists => Reply::Exists,
            Reply::NotFound => Reply::NotFound,
            Reply::Deleted => Reply::Deleted,
            Reply::Touched => Reply::Touched,
            Reply::Done => Reply::Done,
            Reply::Number(number) => Reply::Number(*number),
            Reply::Version => Reply::Version,
            Reply::Stats(stats) => Reply::Stats(*stats),
            Reply::Closed => Reply::Closed,
            Reply::NotANumber => Reply::NotANumber,
            Reply::TooLarge => Reply::TooLarge,
            Reply::MapFull => Reply::MapFull,
            Reply::ClockEnded => Reply::ClockEnded,
            Reply::OutOfMemory => Reply::OutOfMemory,
        })
    }
}

impl Twin for Reply {
    fn twin(&self, alloc: Global) -> Result<Self, AllocError> {
        if let Some(copy) = self.short_copy() {
            return Ok(copy);
        }
        match self {
            Reply::Values(values) => Ok(Reply::Values(values.twin(alloc)?)),
            _ => unreachable!(),
        }
    }
}
