//! incr and decr, for one key.
ghost use Rattle.std.specs.Prelude.{◌≡◌, true, IfOk, IfErr};
ghost use Rattle.geo_memcache.specs.Entries.{entry_of, present_of};
ghost use Rattle.geo_memcache.specs.Decisions.{becomes, counted, counts, decision_of, is_made, number_in};

use crate::decision::{Answer, Decision, Effect};
use crate::entry::Entry;
use geo_requests::{MOST_NUMBER, Reply, ValueBytes, number};
use itoa::Buffer;
use std::alloc::{AllocError, Global};

/// The most digits of a value that is a number, leading zeros among them.
const MOST_DIGITS: usize = 20;

/// The number that a value writes.
fn number_of_value(bytes: &[u8]) -> Option<u64>
    ensures { result ≡ number_in bytes.now }
{
    if bytes.len() > MOST_DIGITS {
        return None;
    }
    number(bytes, MOST_NUMBER)
}

/// A sum wraps, a difference stops at 0.
fn count(up: bool, number: u64, by: u64) -> u64
    ensures { result ≡ counted up number by }
{
    if up {
        number.wrapping_add(by)
    } else {
        number.saturating_sub(by)
    }
}

/// The text of a number becomes the value.
fn become_number(alloc: Global, entry: &Entry<'_>, number: u64) -> Result<Decision, AllocError>
    ensures { IfOk result (λ d. d ≡ decision_of (becomes (entry_of entry.now) number)) }
{
    let mut buffer = Buffer::new();
    let text = Vec::from_slice(alloc, buffer.format(number).as_bytes())?;
    Ok(Decision {
        answer: Answer::Reply(Reply::Number(number)),
        effect: Effect::Made {
            bytes: ValueBytes::of(text),
            flags: entry.flags,
            expiry: entry.expiry,
        },
    })
}

/// incr where `up`, else decr.
pub(crate) fn arith(
    alloc: Global,
    present: Option<&Entry<'_>>,
    up: bool,
    by: u64,
) -> Result<Decision, AllocError>
    ensures counted { IfOk result (λ d. d ≡ decision_of (counts up by (present_of present.entry))) }
    ensures memory { IfErr result (λ _. is_made (counts up by (present_of present.entry)).1 ≡ true) }
{
    let Some(entry) = present else {
        return Ok(Decision::only(Reply::NotFound));
    };
    let Some(number) = number_of_value(entry.bytes) else {
        return Ok(Decision::only(Reply::NotANumber));
    };
    become_number(alloc, entry, count(up, number, by))
}
