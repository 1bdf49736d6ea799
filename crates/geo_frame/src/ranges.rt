//! Which messages have a frame.
ghost use Rattle.std.specs.Prelude.{◌≡◌, ◌≤◌, ◌↔◌, true, length, option_map, IsTrue};
ghost use Rattle.geo_records.specs.Keys.{is_key};
ghost use Rattle.std.specs.List.{list_all};
ghost use Rattle.std.specs.Option.{IfSome};
ghost use Rattle.geo_records.specs.Lengths.{longest_value};
ghost use Rattle.geo_frame.specs.Payloads.{PayloadInRange, payload_of};
ghost use Rattle.geo_delta.specs.Ranges.{InRange, sites_fit, stamp_fits, floor_fits, content_fits, body_fits, expiry_fits, rec_fits, record_fits};

use crate::message::Message;
use geo_delta::Parcel;
use geo_lattice::Lww;
use geo_stamp::{LAST_TIME, Stamp};
use geo_versions::{Body, Digest, Key, LONGEST_VALUE, Rec, are_rising};

/// Whether a parcel goes from one of 2 to 16 sites to another.
#[tactic(auto, unfolding(geo_delta::specs::Ranges::sites_fit))]
pub(crate) fn sites_fit(from: u8, to: u8, sites: usize) -> bool
    ensures { result ≡ sites_fit from to sites }
{
    let is_one = |site: u8| 1 <= site && site as usize <= sites;
    2 <= sites && sites <= 16 && is_one(from) && is_one(to) && from != to
}

#[tactic(auto, unfolding(geo_delta::specs::Ranges::stamp_fits))]
fn stamp_fits(stamp: Stamp, sites: usize) -> bool
    ensures { result ≡ stamp_fits sites stamp }
{
    stamp.time() <= LAST_TIME && stamp.site() as usize <= sites
}

#[tactic(auto, unfolding(geo_delta::specs::Ranges::floor_fits))]
fn floor_fits(floor: Option<Stamp>, sites: usize) -> bool
    ensures { result ≡ floor_fits sites floor }
{
    match floor {
        None => true,
        Some(stamp) => stamp_fits(stamp, sites),
    }
}

fn content_fits(body: Body) -> bool
    ensures { result ≡ content_fits body }
{
    match body {
        Body::Gone => true,
        Body::Value { length, .. } => length.get() <= LONGEST_VALUE,
    }
}

#[tactic(auto, unfolding(geo_delta::specs::Ranges::body_fits))]
fn body_fits(body: &Lww<Stamp, Body>, sites: usize) -> bool
    ensures { result ≡ body_fits sites body.now.register }
{
    match body.get().copied() {
        None => true,
        Some((stamp, body)) => stamp_fits(stamp, sites) && content_fits(body),
    }
}

#[tactic(auto, unfolding(geo_delta::specs::Ranges::expiry_fits))]
fn expiry_fits(expiry: &Lww<Stamp, u64>, sites: usize) -> bool
    ensures { result ≡ expiry_fits sites expiry.now.register }
{
    match expiry.get().copied() {
        None => true,
        Some((stamp, _)) => stamp_fits(stamp, sites),
    }
}

#[tactic(auto, unfolding(geo_delta::specs::Ranges::rec_fits))]
fn rec_fits(rec: &Rec, sites: usize) -> bool
    ensures { result ≡ rec_fits sites rec.now }
{
    let has_register = rec.left.get().is_some() || rec.right.get().is_some();
    body_fits(&rec.left, sites) && expiry_fits(&rec.right, sites) && has_register
}

#[tactic(auto, unfolding(geo_delta::specs::Ranges::record_fits))]
fn record_fits(entry: &(Key, Rec), sites: usize) -> bool
    ensures { result ≡ record_fits sites entry.now }
{
    Key::is_valid(entry.0.bytes()) && rec_fits(&entry.1, sites)
}

fn records_fit(records: &[(Key, Rec)], sites: usize) -> bool
    ensures { result ≡ list_all (record_fits sites) records.now }
{
    records.iter().all(|record| record_fits(record, sites))
}

fn parcel_fits(parcel: &Parcel) -> bool
    ensures { IsTrue result ↔ InRange parcel.now }
{
    let sites = parcel.base.sites();
    let records = parcel.records.as_slice();
    parcel.upto.sites() == sites
        && sites_fit(parcel.from, parcel.to, sites)
        && parcel.base.greatest() <= LAST_TIME
        && parcel.upto.greatest() <= LAST_TIME
        && parcel.retired.fits(sites)
        && floor_fits(parcel.floor, sites)
        && records_fit(records, sites)
        && are_rising(records)
}

/// Whether an ask goes from one of 2 to 16 sites to another. Its key and its digest will do.
fn ask_fits(from: u8, to: u8, sites: u8, key: &Key, digest: Digest) -> bool
    ensures sites { result ≡ sites_fit from to sites }
    ensures key { is_key key.now ≡ true }
    ensures digest { length digest ≡ 32 }
{
    // A key is within the ranges by its type.
    let _bytes = key.bytes();
    sites_fit(from, to, sites as usize)
}

/// Whether bytes that are offered are a value's.
fn bytes_fit(bytes: &Option<Vec<u8>>) -> bool
    ensures { IsTrue result ↔ IfSome (option_map (λ b. b.items) bytes.now) (λ b. length b ≤ longest_value) }
{
    match bytes {
        None => true,
        Some(bytes) => bytes.len() <= LONGEST_VALUE as usize,
    }
}

/// Whether an offer goes as an ask does, and what is offered is a value's.
fn offer_fits(
    from: u8,
    to: u8,
    sites: u8,
    key: &Key,
    digest: Digest,
    bytes: &Option<Vec<u8>>,
) -> bool
    ensures range { IsTrue result ↔ ((sites_fit from to sites ≡ true)
        × IfSome (option_map (λ b. b.items) bytes.now) (λ b. length b ≤ longest_value)) }
    ensures key { is_key key.now ≡ true }
    ensures digest { length digest ≡ 32 }
{
    let goes = ask_fits(from, to, sites, key, digest);
    let short = bytes_fit(bytes);
    goes && short
}

/// Whether a message is within the ranges. A parcel has both vectors of 2 to 16 sites, goes from one of them to another, has each
/// stamp and retired site of them, values of at most a mebibyte, and records with a register, by rising key. An ask and an offer go
/// from one of 2 to 16 sites to another, and what is offered has at most a mebibyte.
pub fn fits(message: &Message) -> bool
    ensures { IsTrue result ↔ PayloadInRange (payload_of message.now) }
{
    match message {
        Message::Parcel(parcel) => parcel_fits(parcel),
        Message::Ask {
            from,
            to,
            sites,
            key,
            digest,
        } => ask_fits(*from, *to, *sites, key, *digest),
        Message::Offer {
            from,
            to,
            sites,
            key,
            digest,
            bytes,
        } => offer_fits(*from, *to, *sites, key, *digest, bytes),
    }
}
