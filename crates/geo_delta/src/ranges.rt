//! Which parcels are within the ranges of a frame.
ghost use Rattle.std.specs.Prelude.{◌≡◌, ℕ, List, length, true, None};
ghost use Rattle.std.specs.List.{All, list_all};
ghost use Rattle.geo_stamp.specs.Stamps.{most_sites};
ghost use Rattle.geo_stamp.specs.Retired.{set_fits};
ghost use Rattle.geo_versions.specs.Maps.{Rising, listed_at, rec_means};
ghost use Rattle.geo_delta.specs.Changes.{knows_floor, knows_record};
ghost use Rattle.geo_delta.specs.Ranges.{InRange, body_fits, content_fits, expiry_fits, floor_fits, is_ranged, sites_fit, stamp_fits};

use crate::parcel::Parcel;
use geo_lattice::Lww;
use geo_stamp::Stamp;
use geo_versions::{Body, Key, Rec};

/// A stamp is one of 16 sites, by its type.
#[tactic(auto, unfolding(crate::specs::Ranges::stamp_fits))]
fn stamp_is_ranged(stamp: Stamp)
    ensures { stamp_fits most_sites stamp ≡ true }
{
    let _time = stamp.time();
    let _site = stamp.site();
}

#[tactic(auto, unfolding(crate::specs::Ranges::floor_fits))]
fn floor_is_ranged(floor: Option<Stamp>)
    ensures { floor_fits most_sites floor ≡ true }
{
    if let Some(stamp) = floor {
        stamp_is_ranged(stamp);
    }
}

fn content_is_ranged(body: Body)
    ensures { content_fits body ≡ true }
{
    if let Body::Value { length, .. } = body {
        let _bytes = length.get();
    }
}

#[tactic(auto, unfolding(crate::specs::Ranges::body_fits))]
fn body_is_ranged(body: &Lww<Stamp, Body>)
    ensures { body_fits most_sites body.now.register ≡ true }
{
    if let Some((stamp, body)) = body.get().copied() {
        stamp_is_ranged(stamp);
        content_is_ranged(body);
    }
}

#[tactic(auto, unfolding(crate::specs::Ranges::expiry_fits))]
fn expiry_is_ranged(expiry: &Lww<Stamp, u64>)
    ensures { expiry_fits most_sites expiry.now.register ≡ true }
{
    if let Some((stamp, _)) = expiry.get().copied() {
        stamp_is_ranged(stamp);
    }
}

fn record_is_ranged(entry: &(Key, Rec))
    ensures { is_ranged entry.now ≡ true }
{
    let (key, rec) = entry;
    let _bytes = key.bytes();
    body_is_ranged(&rec.left);
    expiry_is_ranged(&rec.right);
}

fn records_are_ranged(records: &[(Key, Rec)])
    ensures { list_all is_ranged records.now ≡ true }
{
    for entry in records {
        record_is_ranged(entry);
    }
}

/// A parcel is within the ranges of a frame where it goes from one of 2 to 16 sites to another, its vectors, both of so many, know
/// what it tells, and no site past them is held for retired: the rest is so by the types. Each record is looked at, and nothing is
/// decided by what is seen.
pub fn stays_in_range(parcel: &Parcel)
    requires sites { sites_fit parcel.now.from parcel.now.to (length parcel.now.base) ≡ true }
    requires vectors { length parcel.now.upto ≡ length parcel.now.base }
    requires retired { set_fits (length parcel.now.base) parcel.now.retired ≡ true }
    requires floor_known { knows_floor parcel.now.upto parcel.now.floor ≡ true }
    requires records_known { (q : List ℕ) → knows_record parcel.now.upto (listed_at parcel.now.records q) ≡ true }
    requires filled { All (λ e. rec_means e.1 ≡ (None, None) → ⊥) parcel.now.records }
    requires rising { Rising parcel.now.records }
    ensures { InRange parcel.now }
{
    let _base = parcel.base.greatest();
    let _upto = parcel.upto.greatest();
    let _retired = parcel.retired.bits();
    floor_is_ranged(parcel.floor);
    records_are_ranged(parcel.records.as_slice());
}
