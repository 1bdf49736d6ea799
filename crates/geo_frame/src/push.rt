//! The parts of a frame, written at the end of its bytes. Where memory was refused a part may stand there.
ghost use Rattle.std.specs.Prelude.{◌≡◌, ◌<◌, ◌≤◌, ◌^◌, ◌++◌, length, option_map, OnOk};
ghost use Rattle.std.specs.Option.{IfSome};
ghost use Rattle.std.specs.List.{flat_map};
ghost use Rattle.geo_frame.specs.Spelling.{four, eight, stamp_bytes, vector_bytes, floor_bytes, body_bytes, expiry_bytes, key_bytes, rec_bytes, record_bytes, records_bytes, sites_bytes, retired_bytes, parcel_bytes, wanted_bytes, offered_bytes, fields_of, head_bytes, frame_of, longest_frame};
ghost use Rattle.geo_frame.specs.Payloads.{PayloadInRange, payload_of};
ghost use Rattle.geo_frame.specs.Payloads.Payload.{Tells, Asks, Offers};
ghost use Rattle.geo_records.specs.Lengths.{longest_value};

use crate::limits::{ASK, MAGIC, OFFER, PARCEL, VERSION};
use crate::message::Message;
use crate::route::Route;
use geo_delta::Parcel;
use geo_lattice::Lww;
use geo_stamp::{Retired, Stamp, Vector};
use geo_versions::{Body, Digest, Key, Rec};
use std::alloc::AllocError;

#[tactic(auto, unfolding(crate::specs::Spelling::four))]
fn push_u32(out: &mut Vec<u8>, number: u32) -> Result<(), AllocError>
    ensures { OnOk result (out.new.items ≡ out.old.items ++ four number) }
{
    out.extend_from_slice(&number.to_be_bytes())
}

#[tactic(auto, unfolding(crate::specs::Spelling::eight))]
fn push_u64(out: &mut Vec<u8>, number: u64) -> Result<(), AllocError>
    ensures { OnOk result (out.new.items ≡ out.old.items ++ eight number) }
{
    out.extend_from_slice(&number.to_be_bytes())
}

#[tactic(auto, unfolding(crate::specs::Spelling::stamp_bytes))]
fn push_stamp(out: &mut Vec<u8>, stamp: &Stamp) -> Result<(), AllocError>
    ensures { OnOk result (out.new.items ≡ out.old.items ++ stamp_bytes stamp.now) }
{
    push_u64(out, stamp.time())?;
    out.push(stamp.site())?;
    Ok(())
}

fn push_vector(out: &mut Vec<u8>, vector: &Vector) -> Result<(), AllocError>
    ensures { OnOk result (out.new.items ≡ out.old.items ++ vector_bytes vector.now) }
{
    for before in 0..vector.sites() as u8 {
        push_u64(out, vector.entry(before + 1))?;
    }
    Ok(())
}

#[tactic(auto, unfolding(crate::specs::Spelling::floor_bytes))]
fn push_floor(out: &mut Vec<u8>, floor: &Option<Stamp>) -> Result<(), AllocError>
    ensures { OnOk result (out.new.items ≡ out.old.items ++ floor_bytes floor.now) }
{
    match floor {
        Some(stamp) => push_stamp(out, stamp),
        None => {
            push_u64(out, 0)?;
            out.push(0)?;
            Ok(())
        }
    }
}

#[tactic(auto, unfolding(crate::specs::Spelling::body_bytes))]
fn push_body(out: &mut Vec<u8>, body: &Lww<Stamp, Body>) -> Result<(), AllocError>
    ensures { OnOk result (out.new.items ≡ out.old.items ++ body_bytes body.now.register) }
{
    match body.get() {
        None => {
            out.push(0)?;
            Ok(())
        }
        Some((stamp, Body::Gone)) => {
            out.push(1)?;
            push_stamp(out, stamp)
        }
        Some(
            (
                stamp,
                Body::Value {
                    digest,
                    flags,
                    length,
                },
            ),
        ) => {
            out.push(2)?;
            push_stamp(out, stamp)?;
            out.extend_from_slice(digest.bytes().as_slice())?;
            push_u32(out, *flags)?;
            push_u32(out, length.get())
        }
    }
}

#[tactic(auto, unfolding(crate::specs::Spelling::expiry_bytes))]
fn push_expiry(out: &mut Vec<u8>, expiry: &Lww<Stamp, u64>) -> Result<(), AllocError>
    ensures { OnOk result (out.new.items ≡ out.old.items ++ expiry_bytes expiry.now.register) }
{
    match expiry.get() {
        None => {
            out.push(0)?;
            Ok(())
        }
        Some((stamp, expiry)) => {
            out.push(1)?;
            push_stamp(out, stamp)?;
            push_u64(out, *expiry)
        }
    }
}

#[tactic(auto, unfolding(crate::specs::Spelling::key_bytes))]
fn push_key(out: &mut Vec<u8>, key: &Key) -> Result<(), AllocError>
    ensures { OnOk result (out.new.items ≡ out.old.items ++ key_bytes key.now) }
{
    let bytes = key.bytes();
    out.push(bytes.len() as u8)?;
    out.extend_from_slice(bytes)
}

#[tactic(auto, unfolding(crate::specs::Spelling::rec_bytes))]
fn push_rec(out: &mut Vec<u8>, rec: &Rec) -> Result<(), AllocError>
    ensures { OnOk result (out.new.items ≡ out.old.items ++ rec_bytes rec.now) }
{
    push_body(out, &rec.left)?;
    push_expiry(out, &rec.right)
}

#[tactic(auto, unfolding(crate::specs::Spelling::record_bytes))]
fn push_record(out: &mut Vec<u8>, entry: &(Key, Rec)) -> Result<(), AllocError>
    ensures { OnOk result (out.new.items ≡ out.old.items ++ record_bytes entry.now) }
{
    push_key(out, &entry.0)?;
    push_rec(out, &entry.1)
}

fn push_each(out: &mut Vec<u8>, records: &[(Key, Rec)]) -> Result<(), AllocError>
    ensures { OnOk result (out.new.items ≡ out.old.items ++ flat_map record_bytes records.now) }
{
    for record in records {
        push_record(out, record)?;
    }
    Ok(())
}

#[tactic(auto, unfolding(crate::specs::Spelling::records_bytes))]
fn push_records(out: &mut Vec<u8>, records: &[(Key, Rec)]) -> Result<(), AllocError>
    requires { length records.now < 2 ^ 32 }
    ensures { OnOk result (out.new.items ≡ out.old.items ++ records_bytes records.now) }
{
    push_u32(out, records.len() as u32)?;
    push_each(out, records)
}

#[tactic(auto, unfolding(crate::specs::Spelling::sites_bytes))]
fn push_sites(out: &mut Vec<u8>, from: u8, to: u8, sites: u8) -> Result<(), AllocError>
    ensures { OnOk result (out.new.items ≡ out.old.items ++ sites_bytes from to sites) }
{
    out.extend_from_slice(&[from, to, sites])
}

/// The sites that have retired, each a bit.
#[tactic(auto, unfolding(crate::specs::Spelling::retired_bytes))]
fn push_retired(out: &mut Vec<u8>, retired: &Retired) -> Result<(), AllocError>
    ensures { OnOk result (out.new.items ≡ out.old.items ++ retired_bytes 2 retired.now) }
{
    push_u64(out, retired.bits())
}

/// The fields of a parcel.
#[tactic(auto, unfolding(crate::specs::Spelling::parcel_bytes))]
fn push_parcel(out: &mut Vec<u8>, parcel: &Parcel) -> Result<(), AllocError>
    requires { length parcel.now.records < 2 ^ 32 }
    ensures { OnOk result (out.new.items ≡ out.old.items ++ parcel_bytes 2 parcel.now) }
{
    push_sites(out, parcel.from, parcel.to, parcel.base.sites() as u8)?;
    push_vector(out, &parcel.base)?;
    push_vector(out, &parcel.upto)?;
    push_retired(out, &parcel.retired)?;
    push_floor(out, &parcel.floor)?;
    push_records(out, parcel.records.as_slice())
}

/// The sites, the key and the digest of an ask or an offer.
#[tactic(auto, unfolding(crate::specs::Spelling::wanted_bytes))]
fn push_wanted(
    out: &mut Vec<u8>,
    route: Route,
    key: &Key,
    digest: &Digest,
) -> Result<(), AllocError>
    ensures { OnOk result (out.new.items ≡ out.old.items ++ wanted_bytes (record { route = route; key = key.now; digest = digest.now })) }
{
    push_sites(out, route.from, route.to, route.sites)?;
    push_key(out, key)?;
    out.extend_from_slice(digest.bytes().as_slice())
}

/// What is offered.
#[tactic(auto, unfolding(crate::specs::Spelling::offered_bytes))]
fn push_offered(out: &mut Vec<u8>, bytes: &Option<Vec<u8>>) -> Result<(), AllocError>
    requires { IfSome (option_map (λ b. b.items) bytes.now) (λ b. length b ≤ longest_value) }
    ensures { OnOk result (out.new.items ≡ out.old.items ++ offered_bytes (option_map (λ b. b.items) bytes.now)) }
{
    match bytes {
        None => {
            out.push(0)?;
            Ok(())
        }
        Some(bytes) => {
            out.push(1)?;
            push_u32(out, bytes.len() as u32)?;
            out.extend_from_slice(bytes.as_slice())
        }
    }
}
/// A parcel behind its kind.
#[tactic(auto, unfolding(crate::specs::Spelling::fields_of))]
fn push_told(out: &mut Vec<u8>, parcel: &Parcel) -> Result<(), AllocError>
    requires { length parcel.now.records < 2 ^ 32 }
    ensures { OnOk result (out.new.items ≡ out.old.items ++ fields_of (Tells parcel.now)) }
{
    out.push(PARCEL)?;
    push_parcel(out, parcel)
}

/// An ask behind its kind.
#[tactic(auto, unfolding(crate::specs::Spelling::fields_of))]
fn push_asked(out: &mut Vec<u8>, route: Route, key: &Key, digest: &Digest) -> Result<(), AllocError>
    ensures { OnOk result (out.new.items ≡ out.old.items
        ++ fields_of (Asks (record { route = route; key = key.now; digest = digest.now }))) }
{
    out.push(ASK)?;
    push_wanted(out, route, key, digest)
}

/// An offer behind its kind.
#[tactic(auto, unfolding(crate::specs::Spelling::fields_of))]
fn push_offer(
    out: &mut Vec<u8>,
    route: Route,
    key: &Key,
    digest: &Digest,
    bytes: &Option<Vec<u8>>,
) -> Result<(), AllocError>
    requires { IfSome (option_map (λ b. b.items) bytes.now) (λ b. length b ≤ longest_value) }
    ensures { OnOk result (out.new.items ≡ out.old.items
        ++ fields_of (Offers (record { route = route; key = key.now; digest = digest.now }) (option_map (λ b. b.items) bytes.now))) }
{
    out.push(OFFER)?;
    push_wanted(out, route, key, digest)?;
    push_offered(out, bytes)
}

fn route(from: u8, to: u8, sites: u8) -> Route
    ensures { result ≡ record { from = from; to = to; sites = sites } }
{
    Route { from, to, sites }
}

/// The fields of a message.
pub(crate) fn push_fields(out: &mut Vec<u8>, message: &Message) -> Result<(), AllocError>
    requires range { PayloadInRange (payload_of message.now) }
    requires most { length (frame_of (payload_of message.now)) ≤ longest_frame }
    ensures { OnOk result (out.new.items ≡ out.old.items ++ fields_of (payload_of message.now)) }
{
    match message {
        Message::Parcel(parcel) => push_told(out, parcel),
        Message::Ask {
            from,
            to,
            sites,
            key,
            digest,
        } => push_asked(out, route(*from, *to, *sites), key, digest),
        Message::Offer {
            from,
            to,
            sites,
            key,
            digest,
            bytes,
        } => push_offer(out, route(*from, *to, *sites), key, digest, bytes),
    }
}

/// The head of a frame of so many bytes.
#[tactic(auto, unfolding(crate::specs::Spelling::head_bytes))]
pub(crate) fn push_head(out: &mut Vec<u8>, size: u32) -> Result<(), AllocError>
    ensures { OnOk result (out.new.items ≡ out.old.items ++ head_bytes 2 size) }
{
    out.extend_from_slice(MAGIC.as_slice())?;
    out.push(VERSION)?;
    push_u32(out, size)
}
