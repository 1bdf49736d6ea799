//! Replies.
use crate::Equal;
use geo_requests::{Found, Reply};

impl Equal for Found {
    fn equals(&self, other: &Self) -> bool {
        self.key.equals(&other.key)
            && self.flags == other.flags
            && self.unique == other.unique
            && self.bytes.equals(&other.bytes)
    }
}

impl Equal for Reply {
    fn equals(&self, other: &Self) -> bool {
        match (self, other) {
            (Reply::Stored, Reply::Stored)
            | (Reply::NotStored, Reply::NotStored)
            | (Reply::Exists, Reply::Exists)
            | (Reply::NotFound, Reply::NotFound)
            | (Reply::Deleted, Reply::Deleted)
            | (Reply::Touched, Reply::Touched)
            | (Reply::Done, Reply::Done)
            | (Reply::Version, Reply::Version)
            | (Reply::Closed, Reply::Closed)
            | (Reply::NotANumber, Reply::NotANumber)
            | (Reply::TooLarge, Reply::TooLarge)
            | (Reply::MapFull, Reply::MapFull)
            | (Reply::ClockEnded, Reply::ClockEnded)
            | (Reply::OutOfMemory, Reply::OutOfMemory) => true,
            (Reply::Number(one), Reply::Number(two)) => *one == *two,
            (Reply::Values(one), Reply::Values(two)) => one.equals(two),
            (Reply::Stats(one), Reply::Stats(two)) => *one == *two,
            _ => false,
        }
    }
}
