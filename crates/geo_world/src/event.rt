//! What can happen in a schedule, and what came of it.
use geo_requests::{Reply, Request, ValueBytes};
use geo_site::{Filled, ReapError, RetireError, SendError, TakeError};
use geo_versions::Key;

/// What happens next: one atomic step of one site. Sites are numbered from 1, parcels from 0 by the sends that succeeded.
#[derive(Drop)]
pub enum Event {
    /// A client's request, at a moment in seconds, 1 to 2^40.
    Command {
        site: u8,
        now: u64,
        request: Request,
    },
    /// The site drops the bytes of a key.
    Evict {
        site: u8,
        key: Key,
    },
    /// The site makes a parcel for another.
    Send {
        site: u8,
        to: u8,
    },
    /// The site takes a parcel that was sent: never, once or often, and in any order.
    Take {
        site: u8,
        parcel: usize,
    },
    /// The site drops what is left of deleted keys, where every site is known to know the deletes.
    Remove {
        site: u8,
    },
    /// The site carries out a flush that waits, where its moment, in seconds, has come.
    Tick {
        site: u8,
        now: u64,
    },
    /// The site deletes a key, where a write of its own ended long enough before a moment in seconds.
    Reap {
        site: u8,
        now: u64,
        key: Key,
    },
    /// The site is offered bytes of a key, any at all, and holds them where its version names them and it has none.
    Fill {
        site: u8,
        key: Key,
        bytes: ValueBytes,
    },
    /// The site holds another for gone for good from now on, whether that one has stopped or not.
    Retire {
        site: u8,
        other: u8,
    },
}

/// What came of an event.
#[derive(Drop)]
pub enum Trace {
    /// The reply to a command, which may be a refusal, and the key whose bytes were evicted for what it stored, if any.
    Replied(Reply, Option<Key>),
    /// Whether bytes were held.
    Evicted(bool),
    /// The parcel was made.
    Sent,
    /// No parcel was made.
    SendRefused(SendError),
    /// What the parcel tells was joined.
    Taken,
    /// The site is as it was.
    TakeRefused(TakeError),
    /// The horizon by which records were dropped, and how many.
    Removed { horizon: u64, count: usize },
    /// Whether a flush was carried out.
    Ticked(bool),
    /// Whether the key was deleted.
    Reaped(bool),
    /// The key was not deleted.
    ReapRefused(ReapError),
    /// What came of bytes that were offered.
    Filled(Filled),
    /// Bytes that were offered would be held, and memory was wanted for that.
    FillRefused,
    /// Whether the other site was not held for gone before.
    Retired(bool),
    /// No site was retired.
    RetireRefused(RetireError),
}
