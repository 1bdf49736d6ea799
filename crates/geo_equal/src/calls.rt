//! What is asked of a site, and what it answers.
use crate::Equal;
use geo_site::{Answer, Event};

impl Equal for Event {
    fn equals(&self, other: &Self) -> bool {
        match (self, other) {
            (
                Event::Command { now, request },
                Event::Command {
                    now: now2,
                    request: request2,
                },
            ) => *now == *now2 && request.equals(request2),
            (Event::Evict { key }, Event::Evict { key: key2 }) => key.equals(key2),
            (Event::Send { to }, Event::Send { to: to2 }) => *to == *to2,
            (Event::Take { parcel }, Event::Take { parcel: parcel2 }) => {
                parcel.parcel().equals(parcel2.parcel())
            }
            (Event::Remove, Event::Remove) => true,
            (Event::Tick { now }, Event::Tick { now: now2 }) => *now == *now2,
            (
                Event::Reap { now, key },
                Event::Reap {
                    now: now2,
                    key: key2,
                },
            ) => *now == *now2 && key.equals(key2),
            (
                Event::Fill { key, bytes },
                Event::Fill {
                    key: key2,
                    bytes: bytes2,
                },
            ) => key.equals(key2) && bytes.equals(bytes2),
            (Event::Retire { other }, Event::Retire { other: other2 }) => *other == *other2,
            _ => false,
        }
    }
}

impl Equal for Answer {
    fn equals(&self, other: &Self) -> bool {
        match (self, other) {
            (Answer::Replied(one), Answer::Replied(two)) => one.equals(two),
            (Answer::Sent(one), Answer::Sent(two)) => one.parcel().equals(two.parcel()),
            (Answer::SendRefused(one), Answer::SendRefused(two)) => *one == *two,
            (Answer::Taken(one), Answer::Taken(two)) => *one == *two,
            (Answer::TakeRefused(one), Answer::TakeRefused(two)) => *one == *two,
            (Answer::ReapRefused(one), Answer::ReapRefused(two)) => *one == *two,
            (Answer::Filled(one), Answer::Filled(two)) => *one == *two,
            (Answer::RetireRefused(one), Answer::RetireRefused(two)) => *one == *two,
            (Answer::Removed(one), Answer::Removed(two)) => *one == *two,
            (Answer::Evicted(one), Answer::Evicted(two))
            | (Answer::Ticked(one), Answer::Ticked(two))
            | (Answer::Reaped(one), Answer::Reaped(two))
            | (Answer::Retired(one), Answer::Retired(two)) => *one == *two,
            _ => false,
        }
    }
}
