//! How many bytes a frame has.
ghost use Rattle.std.specs.Prelude.{◌≡◌, ◌<◌, ◌≤◌, ◌+◌, length, Some, MatchOption, option_map};
ghost use Rattle.std.specs.Option.{IfSome};
ghost use Rattle.geo_stamp.specs.Stamps.{Moment};
ghost use Rattle.geo_records.specs.Lengths.{longest_value};
ghost use Rattle.geo_frame.specs.Payloads.{Wanted, PayloadInRange, payload_of};
ghost use Rattle.geo_frame.specs.Payloads.Payload.{Tells, Asks, Offers};
ghost use Rattle.geo_frame.specs.Spelling.{body_bytes, expiry_bytes, record_bytes, offered_bytes, frame_of, longest_frame};

use crate::limits::{BESIDE_KEY, BESIDE_RECORDS, LONGEST_FRAME};
use crate::message::Message;
use geo_delta::Parcel;
use geo_lattice::Lww;
use geo_stamp::Stamp;
use geo_versions::{Body, Key, Rec};

/// How many bytes stand behind the stamp of a body.
fn content_length(body: Body) -> usize
    ensures exact { (s : Moment) → 10 + result ≡ length (body_bytes (Some (s, body))) }
    ensures most { result ≤ 40 }
{
    match body {
        Body::Gone => 0,
        Body::Value { digest, .. } => 8 + digest.bytes().as_slice().len(),
    }
}

fn body_length(body: &Lww<Stamp, Body>) -> usize
    ensures exact { result ≡ length (body_bytes body.now.register) }
    ensures most { result ≤ 50 }
{
    match body.get().copied() {
        None => 1,
        Some((_, body)) => 10 + content_length(body),
    }
}

fn expiry_length(expiry: &Lww<Stamp, u64>) -> usize
    ensures exact { result ≡ length (expiry_bytes expiry.now.register) }
    ensures most { result ≤ 18 }
{
    match expiry.get() {
        None => 1,
        Some(_) => 18,
    }
}

fn record_length(entry: &(Key, Rec)) -> usize
    ensures exact { result ≡ length (record_bytes entry.now) }
    ensures most { result ≤ 319 }
{
    let (key, rec) = entry;
    1 + key.bytes().len() + body_length(&rec.left) + expiry_length(&rec.right)
}

/// The length of a parcel's frame, None where it would be above [`LONGEST_FRAME`].
fn parcel_length(parcel: &Parcel) -> Option<usize>
    ensures { MatchOption result (longest_frame < length (frame_of (Tells parcel.now))) (λ n. (n ≡ length (frame_of (Tells parcel.now)))
        × (n ≤ longest_frame)) }
{
    let mut size = BESIDE_RECORDS + 8 * (parcel.base.sites() + parcel.upto.sites());
    for record in parcel.records.as_slice() {
        size += record_length(record);
        if size > LONGEST_FRAME {
            return None;
        }
    }
    Some(size)
}

/// The length of the frame of an ask for a key.
fn ask_length(key: &Key) -> usize
    ensures exact { (w : Wanted) → w.key ≡ key.now → length w.digest ≡ 32 → result ≡ length (frame_of (Asks w)) }
    ensures most { result ≤ 328 }
{
    BESIDE_KEY + key.bytes().len()
}

/// How many bytes stand behind the digest of an offer.
#[tactic(auto, using(crate::proofs::Lengths::offered_none, crate::proofs::Lengths::offered_some))]
fn offered_length(bytes: &Option<Vec<u8>>) -> usize
    requires { IfSome (option_map (λ b. b.items) bytes.now) (λ b. length b ≤ longest_value) }
    ensures exact { result ≡ length (offered_bytes (option_map (λ b. b.items) bytes.now)) }
    ensures most { result ≤ 5 + longest_value }
{
    match bytes {
        None => 1,
        Some(bytes) => 5 + bytes.len(),
    }
}

/// The length of the frame of an offer for a key.
fn offer_length(key: &Key, bytes: &Option<Vec<u8>>) -> usize
    requires { IfSome (option_map (λ b. b.items) bytes.now) (λ b. length b ≤ longest_value) }
    ensures exact { (w : Wanted) → w.key ≡ key.now → length w.digest ≡ 32
        → result ≡ length (frame_of (Offers w (option_map (λ b. b.items) bytes.now))) }
    ensures most { result ≤ 333 + longest_value }
{
    ask_length(key) + offered_length(bytes)
}

/// The length of a message's frame, None where it would be above [`LONGEST_FRAME`].
pub(crate) fn frame_length(message: &Message) -> Option<usize>
    requires { PayloadInRange (payload_of message.now) }
    ensures { MatchOption result (longest_frame < length (frame_of (payload_of message.now)))
        (λ n. (n ≡ length (frame_of (payload_of message.now))) × (n ≤ longest_frame)) }
{
    match message {
        Message::Parcel(parcel) => parcel_length(parcel),
        Message::Ask { key, .. } => Some(ask_length(key)),
        Message::Offer { key, bytes, .. } => Some(offer_length(key, bytes)),
    }
}
