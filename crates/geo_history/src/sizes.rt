//! How many bytes a step keeps: the lengths of what it owns, and a fixed size for each step and for each thing that it lists. Nothing
//! is looked into but for its length.
ghost use Rattle.std.specs.Prelude.{◌≡◌, ◌+◌, length, sum_by};
ghost use Rattle.geo_history.specs.Sizes.{answer_bytes, capped, event_bytes, found_bytes, keys_bytes, parcel_bytes, parcel_size, record_bytes, reply_bytes, request_bytes, step_bytes, victim_bytes};

use crate::step::Step;
use geo_delta::Parcel;
use geo_requests::{Found, Reply, Request};
use geo_site::{Answer, Event};
use geo_versions::{Key, Rec};

/// What stands for a step, with keys of up to 24 bytes.
const STEP_SIZE: u64 = 320;

/// What stands for a list of keys.
const LIST_SIZE: u64 = 160;

/// What stands for a key in such a list.
const KEY_SIZE: u64 = 48;

/// What stands for a value that a reply shows.
const FOUND_SIZE: u64 = 256;

/// What stands for a parcel.
const PARCEL_SIZE: u64 = 512;

/// What stands for a record in a parcel.
const RECORD_SIZE: u64 = 160;

/// A sum and what is added to it, as far as 64 bits count.
fn grown(sum: u64, fixed: u64, length: usize) -> u64
    ensures { result ≡ capped (sum + (fixed + length)) }
{
    sum.saturating_add(fixed).saturating_add(length as u64)
}

/// What a key keeps that stands alone.
fn lone_bytes(key: &Key) -> u64
    ensures { result ≡ capped (length key.now) }
{
    grown(0, 0, key.bytes().len())
}

/// What a list of keys keeps.
fn keys_bytes(keys: &[Key]) -> u64
    ensures { result ≡ capped (keys_bytes keys.now) }
{
    let mut sum = LIST_SIZE;
    for key in keys {
        sum = grown(sum, KEY_SIZE, key.bytes().len());
    }
    sum
}

/// What the values that a reply shows keep.
fn found_bytes(found: &[Found]) -> u64
    ensures { result ≡ capped (sum_by found_bytes found.now) }
{
    let mut sum = 0u64;
    for one in found {
        let part = grown(sum, FOUND_SIZE, one.key.bytes().len());
        sum = grown(part, 0, one.bytes.len());
    }
    sum
}

/// What a parcel with these records keeps.
fn records_bytes(records: &[(Key, Rec)]) -> u64
    ensures { result ≡ capped (parcel_size + sum_by record_bytes records.now) }
{
    let mut sum = PARCEL_SIZE;
    for entry in records {
        sum = grown(sum, RECORD_SIZE, entry.0.bytes().len());
    }
    sum
}

/// What a parcel keeps.
fn parcel_bytes(parcel: &Parcel) -> u64
    ensures { result ≡ capped (parcel_bytes parcel.now) }
{
    records_bytes(parcel.records.as_slice())
}

/// What a request keeps.
fn request_bytes(request: &Request) -> u64
    ensures { result ≡ capped (request_bytes request.now) }
{
    match request {
        Request::Store { key, bytes, .. } => { grown(key.bytes().len() as u64, 0, bytes.len()) }
        Request::Fetch { keys, .. } | Request::FetchTouch { keys, .. } => {
            keys_bytes(keys.as_slice())
        }
        Request::Delete { key, .. } | Request::Touch { key, .. } | Request::Arith { key, .. } => {
            lone_bytes(key)
        }
        Request::FlushAll { .. }
        | Request::ShowVersion
        | Request::Verbosity { .. }
        | Request::Stats
        | Request::Quit => 0,
    }
}

/// What a reply keeps.
fn reply_bytes(reply: &Reply) -> u64
    ensures { result ≡ capped (reply_bytes reply.now) }
{
    match reply {
        Reply::Values(found) => found_bytes(found.as_slice()),
        _ => 0,
    }
}

/// How many bytes an event keeps, but for its place in a step.
pub fn event_bytes(event: &Event) -> u64
    ensures { result ≡ capped (event_bytes event.now) }
{
    match event {
        Event::Command { request, .. } => request_bytes(request),
        Event::Take { parcel } => parcel_bytes(parcel.parcel()),
        Event::Evict { key } | Event::Reap { key, .. } => lone_bytes(key),
        Event::Fill { key, bytes } => grown(bytes.len() as u64, 0, key.bytes().len()),
        Event::Send { .. } | Event::Remove | Event::Tick { .. } | Event::Retire { .. } => 0,
    }
}

/// How many bytes an answer keeps, but for its place in a step.
pub fn answer_bytes(answer: &Answer) -> u64
    ensures { result ≡ capped (answer_bytes answer.now) }
{
    match answer {
        Answer::Replied(reply) => reply_bytes(reply),
        Answer::Sent(parcel) => parcel_bytes(parcel.parcel()),
        _ => 0,
    }
}

/// What a key keeps whose bytes went, if there is one.
fn victim_bytes(victim: &Option<Key>) -> u64
    ensures { result ≡ capped (victim_bytes victim.now) }
{
    match victim {
        Some(key) => lone_bytes(key),
        None => 0,
    }
}

impl Step {
    /// How many bytes it keeps.
    pub fn bytes(&self) -> u64
        ensures { result ≡ capped (step_bytes self.now) }
    {
        let event = event_bytes(&self.event);
        let answer = answer_bytes(&self.answer);
        let victim = victim_bytes(&self.victim);
        STEP_SIZE
            .saturating_add(event)
            .saturating_add(answer)
            .saturating_add(victim)
    }
}
