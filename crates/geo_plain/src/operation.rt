//! Operations as plain data.
ghost use Rattle.std.specs.Prelude.{◌≤◌, length};
ghost use Rattle.geo_requests.specs.Limits.{longest_value};

use geo_lattice::Twin;
use geo_requests::ValueBytes;
use geo_stamp::Stamp;
use geo_versions::Key;
use std::alloc::{AllocError, Global};

/// A write, with the bytes themselves.
#[derive(Drop)]
pub struct Written {
    pub key: Key,
    pub bytes: ValueBytes,
    pub flags: u32,
    /// In seconds, 0 for never.
    pub expiry: u64,
    pub ghost short: { length bytes ≤ longest_value },
}

/// What an operation does.
#[derive(Drop)]
pub enum Act {
    Write(Written),
    Delete { key: Key },
    Touch { key: Key, expiry: u64 },
    Flush,
}

/// An operation, with when and where it was issued.
#[derive(Drop)]
pub struct Operation {
    pub stamp: Stamp,
    pub act: Act,
}

impl Twin for Written {
    fn twin(&self, alloc: Global) -> Result<Self, AllocError> {
        Ok(Written {
            key: self.key.twin(alloc)?,
            bytes: self.bytes.twin(alloc)?,
            flags: self.flags,
            expiry: self.expiry,
        })
    }
}

impl Twin for Act {
    fn twin(&self, alloc: Global) -> Result<Self, AllocError> {
        match self {
            Act::Write(written) => Ok(Act::Write(written.twin(alloc)?)),
            Act::Delete { key } => Ok(Act::Delete {
                key: key.twin(alloc)?,
            }),
            Act::Touch { key, expiry } => Ok(Act::Touch {
                key: key.twin(alloc)?,
                expiry: *expiry,
            }),
            Act::Flush => Ok(Act::Flush),
        }
    }
}

impl Twin for Operation {
    fn twin(&self, alloc: Global) -> Result<Self, AllocError> {
        Ok(Operation {
            stamp: self.stamp,
            act: self.act.twin(alloc)?,
        })
    }
}
