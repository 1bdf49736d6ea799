//! The storage commands, for one key.
ghost use Rattle.std.specs.Prelude.{◌≡◌, ◌≤◌, ◌^◌, ◌++◌, true, IfOk, IfErr};
ghost use Rattle.geo_requests.specs.declared.request.Verb.TheVariants as verb;
ghost use Rattle.geo_requests.specs.declared.reply.Reply.TheVariants as reply;
ghost use Rattle.geo_memcache.specs.Entries.{entry_of, present_of};
ghost use Rattle.geo_memcache.specs.Decisions.{decision_of, is_made, keeps, makes, stores};

use crate::decision::{Answer, Decision, Effect};
use crate::entry::Entry;
use crate::expiry::expiry_of;
use geo_requests::{LONGEST_VALUE, Reply, ValueBytes, Verb};
use std::alloc::{AllocError, Global};

/// The bytes of the request become the value.
fn keep(flags: u32, exptime: i64, bytes: &ValueBytes, now: u64) -> Decision
    requires { now ≤ 2 ^ 40 }
    ensures { result ≡ decision_of (keeps flags exptime bytes.now now) }
{
    if bytes.len() > LONGEST_VALUE {
        return Decision::only(Reply::TooLarge);
    }
    Decision {
        answer: Answer::Reply(Reply::Stored),
        effect: Effect::Keep {
            flags,
            expiry: expiry_of(exptime, now),
        },
    }
}

/// The bytes of the request become the value where the client saw the value that is there.
fn compare(
    present: Option<&Entry<'_>>,
    unique: Option<u64>,
    flags: u32,
    exptime: i64,
    bytes: &ValueBytes,
    now: u64,
) -> Decision
    requires { now ≤ 2 ^ 40 }
    ensures { result ≡ decision_of (stores verb.Cas flags exptime unique bytes.now now (present_of present.entry)) }
{
    match present {
        None => Decision::only(Reply::NotFound),
        Some(entry) if unique == Some(entry.unique) => keep(flags, exptime, bytes, now),
        Some(_) => Decision::only(Reply::Exists),
    }
}

/// Two pieces, one behind the other, become the value. They are measured before memory is asked for.
fn join(alloc: Global, entry: &Entry<'_>, front: &[u8], back: &[u8]) -> Result<Decision, AllocError>
    ensures joined { IfOk result (λ d. d ≡ decision_of (makes reply.Stored (entry_of entry.now) (front.now ++ back.now))) }
    ensures memory { IfErr result (λ _. is_made (makes reply.Stored (entry_of entry.now) (front.now ++ back.now)).1 ≡ true) }
{
    let length = front.len() + back.len();
    if length > LONGEST_VALUE {
        return Ok(Decision::only(Reply::TooLarge));
    }
    let mut bytes = Vec::with_capacity(alloc, length)?;
    bytes.extend_from_slice(front)?;
    bytes.extend_from_slice(back)?;
    Ok(Decision {
        answer: Answer::Reply(Reply::Stored),
        effect: Effect::Made {
            bytes: ValueBytes::of(bytes),
            flags: entry.flags,
            expiry: entry.expiry,
        },
    })
}

/// A storage command.
pub(crate) fn store(
    alloc: Global,
    present: Option<&Entry<'_>>,
    now: u64,
    verb: Verb,
    flags: u32,
    exptime: i64,
    unique: Option<u64>,
    bytes: &ValueBytes,
) -> Result<Decision, AllocError>
    requires { now ≤ 2 ^ 40 }
    ensures stored { IfOk result (λ d. d ≡ decision_of (stores verb flags exptime unique bytes.now now (present_of present.entry))) }
    ensures memory { IfErr result (λ _. is_made (stores verb flags exptime unique bytes.now now (present_of present.entry)).1 ≡ true) }
{
    match (verb, present) {
        (Verb::Set, _) | (Verb::Add, None) | (Verb::Replace, Some(_)) => {
            Ok(keep(flags, exptime, bytes, now))
        }
        (Verb::Append, Some(entry)) => join(alloc, entry, entry.bytes, bytes.as_slice()),
        (Verb::Prepend, Some(entry)) => { join(alloc, entry, bytes.as_slice(), entry.bytes) }
        (Verb::Cas, _) => Ok(compare(present, unique, flags, exptime, bytes, now)),
        (Verb::Add, Some(_)) | (Verb::Replace | Verb::Append | Verb::Prepend, None) => {
            Ok(Decision::only(Reply::NotStored))
        }
    }
}
