//! The table of commands, for one key.
ghost use Rattle.std.specs.Prelude.{◌≡◌, ◌≤◌, ◌^◌, Bool, true, IfOk, IfErr};
ghost use Rattle.geo_memcache.specs.declared.ask.Ask.TheVariants.{FetchTouch};
ghost use Rattle.geo_memcache.specs.Entries.{present_of};
ghost use Rattle.geo_memcache.specs.Decisions.{decided, decision_of, deletes, touches, is_made};

use crate::arith::arith;
use crate::ask::Ask;
use crate::decision::{Answer, Decision, Effect};
use crate::entry::Entry;
use crate::expiry::expiry_of;
use crate::storage::store;
use geo_requests::Reply;
use std::alloc::{AllocError, Global};

/// A delete leaves a tombstone even where there is nothing to delete.
fn delete(present: Option<&Entry<'_>>) -> Decision
    ensures { result ≡ decision_of (deletes (present_of present.entry)) }
{
    let reply = if present.is_some() {
        Reply::Deleted
    } else {
        Reply::NotFound
    };
    Decision {
        answer: Answer::Reply(reply),
        effect: Effect::Tomb,
    }
}

/// A touch gives what is there another expiry.
fn touch(present: Option<&Entry<'_>>, now: u64, exptime: i64) -> Decision
    requires moment { now ≤ 2 ^ 40 }
    ensures { result ≡ decision_of (touches exptime now (present_of present.entry)) }
{
    if present.is_none() {
        return Decision::only(Reply::NotFound);
    }
    Decision {
        answer: Answer::Reply(Reply::Touched),
        effect: Effect::Renew {
            expiry: expiry_of(exptime, now),
        },
    }
}

/// A fetch and touch finds what is there, and gives it another expiry.
fn fetch_touch(present: Option<&Entry<'_>>, now: u64, exptime: i64) -> Decision
    requires moment { now ≤ 2 ^ 40 }
    ensures { (numbers : Bool) → result ≡ decided (present_of present.entry) now (FetchTouch exptime numbers) }
{
    if present.is_none() {
        return Decision {
            answer: Answer::Miss,
            effect: Effect::Nothing,
        };
    }
    Decision {
        answer: Answer::Hit,
        effect: Effect::Renew {
            expiry: expiry_of(exptime, now),
        },
    }
}

/// What plain memcached answers for one key at a moment in seconds, at most 2^40, and what becomes of its entry, where
/// `present` is what is visible of it (protocol.txt). Memory is wanted for the bytes that append, prepend, incr and decr make,
/// and for nothing else.
pub fn decide(
    alloc: Global,
    present: Option<&Entry<'_>>,
    now: u64,
    ask: &Ask<'_>,
) -> Result<Decision, AllocError>
    requires moment { now ≤ 2 ^ 40 }
    ensures decided { IfOk result (λ d. d ≡ decided (present_of present.entry) now ask.now) }
    ensures memory { IfErr result (λ _. is_made (decided (present_of present.entry) now ask.now).effect ≡ true) }
{
    match ask {
        Ask::Store {
            verb,
            flags,
            exptime,
            unique,
            bytes,
        } => store(
            alloc, present, now, *verb, *flags, *exptime, *unique, *bytes,
        ),
        Ask::Fetch { .. } => Ok(Decision {
            answer: if present.is_some() {
                Answer::Hit
            } else {
                Answer::Miss
            },
            effect: Effect::Nothing,
        }),
        Ask::FetchTouch { exptime, .. } => Ok(fetch_touch(present, now, *exptime)),
        Ask::Delete => Ok(delete(present)),
        Ask::Touch { exptime } => Ok(touch(present, now, *exptime)),
        Ask::Arith { up, by } => arith(alloc, present, *up, *by),
    }
}
