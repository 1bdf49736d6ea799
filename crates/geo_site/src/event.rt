//! What can happen at a site, and what it answers.
use crate::boxed::BoxedParcel;
use crate::exchange::Taken;
use crate::fill::Filled;
use crate::refusal::{ReapError, RetireError, SendError, TakeError};
use geo_requests::{Reply, Request, ValueBytes};
use geo_versions::Key;

/// What was asked of a site. Moments are in seconds, 1 to 2^40.
#[derive(Drop)]
pub enum Event {
    /// A client's request.
    Command { now: u64, request: Request },
    /// To drop the bytes of a key.
    Evict { key: Key },
    /// To make a parcel for another site.
    Send { to: u8 },
    /// To take a parcel.
    Take { parcel: BoxedParcel },
    /// To drop what is left of deleted keys, where every site is known to know the deletes.
    Remove,
    /// To carry out a flush that waits, where its moment has come.
    Tick { now: u64 },
    /// To delete a key, where a write of its own ended long enough ago.
    Reap { now: u64, key: Key },
    /// To hold bytes of a key that another site offers.
    Fill { key: Key, bytes: ValueBytes },
    /// To hold another site for gone for good.
    Retire { other: u8 },
}

/// What a site answered. It never wanted memory: a call that did left no step.
#[derive(Drop)]
pub enum Answer {
    /// The reply to a command, which may be a refusal.
    Replied(Reply),
    /// Whether bytes were held.
    Evicted(bool),
    /// The parcel.
    Sent(BoxedParcel),
    /// No parcel was made.
    SendRefused(SendError),
    /// What the parcel tells was joined.
    Taken(Taken),
    /// The site is as it was.
    TakeRefused(TakeError),
    /// How many records were dropped.
    Removed(usize),
    /// Whether a flush was carried out.
    Ticked(bool),
    /// Whether the key was deleted.
    Reaped(bool),
    /// The key was not deleted.
    ReapRefused(ReapError),
    /// What came of bytes that were offered.
    Filled(Filled),
    /// Whether the other site was not held for gone before.
    Retired(bool),
    /// No site was retired.
    RetireRefused(RetireError),
}
