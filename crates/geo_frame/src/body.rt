//! The two registers of a record, read.
ghost use Rattle.geo_frame.specs.Reading.{Reads, size_at, gone_at, value_at, body_at, expiry_at, latest_at, rec_at};

use crate::bytes::Bytes;
use crate::fault::FrameFault;
use geo_lattice::{Lww, Pair};
use geo_stamp::Stamp;
use geo_versions::{Body, Length, Rec};

type BodyRegister = Lww<Stamp, Body>;

type ExpiryRegister = Lww<Stamp, u64>;

/// The length of a value.
#[tactic(auto, unfolding(crate::specs::Reading::size_at))]
pub(crate) fn take_size(bytes: &mut Bytes) -> Result<Length, FrameFault>
    ensures { Reads (λ x. x) result bytes.new.left.now (size_at bytes.old.left.now) }
{
    match Length::new(bytes.take_u32()?) {
        Some(size) => Ok(size),
        None => Err(FrameFault::Field),
    }
}

/// What stands behind the tag of a delete.
#[tactic(auto, unfolding(crate::specs::Reading::gone_at))]
fn take_gone(bytes: &mut Bytes, sites: u8) -> Result<BodyRegister, FrameFault>
    ensures { Reads (λ x. x.register) result bytes.new.left.now (gone_at sites bytes.old.left.now) }
{
    let stamp = bytes.take_stamp(sites)?;
    Ok(Lww::of(stamp, Body::Gone))
}

/// What stands behind the tag of a write.
#[tactic(auto, unfolding(crate::specs::Reading::value_at))]
fn take_value(bytes: &mut Bytes, sites: u8) -> Result<BodyRegister, FrameFault>
    ensures { Reads (λ x. x.register) result bytes.new.left.now (value_at sites bytes.old.left.now) }
{
    let stamp = bytes.take_stamp(sites)?;
    let digest = bytes.take_digest()?;
    let flags = bytes.take_u32()?;
    let length = take_size(bytes)?;
    let body = Body::Value {
        digest,
        flags,
        length,
    };
    Ok(Lww::of(stamp, body))
}

/// The greatest write or delete of a key.
#[tactic(auto, unfolding(crate::specs::Reading::body_at, crate::specs::Reading::tagged_body))]
fn take_body(bytes: &mut Bytes, sites: u8) -> Result<BodyRegister, FrameFault>
    ensures { Reads (λ x. x.register) result bytes.new.left.now (body_at sites bytes.old.left.now) }
{
    match bytes.take_u8()? {
        0 => Ok(Lww::none()),
        1 => take_gone(bytes, sites),
        2 => take_value(bytes, sites),
        _ => Err(FrameFault::Field),
    }
}

/// What stands behind the tag of an expiry.
#[tactic(auto, unfolding(crate::specs::Reading::expiry_at))]
fn take_expiry(bytes: &mut Bytes, sites: u8) -> Result<ExpiryRegister, FrameFault>
    ensures { Reads (λ x. x.register) result bytes.new.left.now (expiry_at sites bytes.old.left.now) }
{
    let stamp = bytes.take_stamp(sites)?;
    let expiry = bytes.take_u64()?;
    Ok(Lww::of(stamp, expiry))
}

/// The latest expiry of a key.
#[tactic(auto, unfolding(crate::specs::Reading::latest_at, crate::specs::Reading::tagged_expiry))]
fn take_latest(bytes: &mut Bytes, sites: u8) -> Result<ExpiryRegister, FrameFault>
    ensures { Reads (λ x. x.register) result bytes.new.left.now (latest_at sites bytes.old.left.now) }
{
    match bytes.take_u8()? {
        0 => Ok(Lww::none()),
        1 => take_expiry(bytes, sites),
        _ => Err(FrameFault::Field),
    }
}

/// What is kept of a key.
#[tactic(auto, unfolding(crate::specs::Reading::rec_at))]
pub(crate) fn take_rec(bytes: &mut Bytes, sites: u8) -> Result<Rec, FrameFault>
    ensures { Reads (λ x. x) result bytes.new.left.now (rec_at sites bytes.old.left.now) }
{
    let left = take_body(bytes, sites)?;
    let right = take_latest(bytes, sites)?;
    if left.get().is_none() && right.get().is_none() {
        return Err(FrameFault::Field);
    }
    Ok(Pair { left, right })
}
