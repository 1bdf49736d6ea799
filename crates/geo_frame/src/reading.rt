//! Reading a frame.
ghost use Rattle.std.specs.Prelude.{◌≡◌, ◌≤◌, length, IfOk, IfErr, IsOk, Ok};
ghost use Rattle.geo_frame.specs.Payloads.{Payload, PayloadInRange, payload_of};
ghost use Rattle.geo_frame.specs.Reading.{Gives, first_key_in, first_key_of, key_in, key_of_kind, parcel_in, told_in, of_kind, payload_in, frame_in};
ghost use Rattle.geo_frame.specs.declared.fault.FrameFault.TheVariants.{Memory};
ghost use Rattle.geo_frame.specs.Spelling.{IsFrameOf, longest_frame};

use crate::asking::{read_ask, read_offer};
use crate::bytes::Bytes;
use crate::fault::FrameFault;
use crate::head::fields_of;
use crate::limits::{ASK, OFFER, OLD_VERSION, PARCEL, VERSION};
use crate::message::Message;
use crate::record::take_all;
use crate::route::take_route;
use crate::vector::take_vector;
use geo_delta::Parcel;
use geo_lattice::Items;
use std::alloc::Global;

/// The parcel that the fields of a frame of this version tell.
#[tactic(auto, unfolding(crate::specs::Reading::parcel_in, crate::specs::Reading::first_key_of))]
fn parcel_of(alloc: Global, version: u8, fields: &[u8]) -> Result<Parcel, FrameFault>
    ensures read { Gives (λ p. p) result (parcel_in version fields.now) }
    ensures memory { IfErr result (λ e. e ≡ Memory → IsOk (first_key_of version fields.now)) }
{
    let mut bytes = Bytes { left: fields };
    let route = take_route(&mut bytes)?;
    let base = take_vector(&mut bytes, route.sites)?;
    let upto = take_vector(&mut bytes, route.sites)?;
    let retired = bytes.take_retired(version, route.sites)?;
    let floor = bytes.take_floor(route.sites)?;
    let records = take_all(alloc, &mut bytes, route.sites)?;
    Ok(Parcel {
        from: route.from,
        to: route.to,
        base,
        upto,
        retired,
        floor,
        records: Items::of(records),
    })
}

#[tactic(auto, unfolding(crate::specs::Reading::told_in))]
fn told(alloc: Global, version: u8, fields: &[u8]) -> Result<Message, FrameFault>
    ensures read { Gives payload_of result (told_in version fields.now) }
    ensures memory { IfErr result (λ e. e ≡ Memory → IsOk (first_key_of version fields.now)) }
{
    match parcel_of(alloc, version, fields) {
        Ok(parcel) => Ok(Message::Parcel(parcel)),
        Err(fault) => Err(fault),
    }
}

/// The message of this kind that the fields behind it tell.
#[tactic(auto, unfolding(crate::specs::Reading::of_kind, crate::specs::Reading::key_of_kind))]
fn message_of(alloc: Global, kind: u8, fields: &[u8]) -> Result<Message, FrameFault>
    ensures read { Gives payload_of result (of_kind kind fields.now) }
    ensures memory { IfErr result (λ e. e ≡ Memory → IsOk (key_of_kind kind fields.now)) }
{
    match kind {
        PARCEL => told(alloc, VERSION, fields),
        ASK => read_ask(alloc, fields),
        OFFER => read_offer(alloc, fields),
        _ => Err(FrameFault::Field),
    }
}

/// The message that the fields of a frame of this version tell.
#[tactic(auto, unfolding(crate::specs::Reading::payload_in, crate::specs::Reading::key_in))]
fn content_of(alloc: Global, version: u8, fields: &[u8]) -> Result<Message, FrameFault>
    ensures read { Gives payload_of result (payload_in version fields.now) }
    ensures memory { IfErr result (λ e. e ≡ Memory → IsOk (key_in version fields.now)) }
{
    if version == OLD_VERSION {
        return told(alloc, OLD_VERSION, fields);
    }
    let mut bytes = Bytes { left: fields };
    let kind = bytes.take_u8()?;
    message_of(alloc, kind, bytes.left)
}

/// The message of a frame, or its first fault.
#[tactic(auto, unfolding(crate::specs::Reading::frame_in, crate::specs::Reading::first_key_in))]
fn read(alloc: Global, bytes: &[u8]) -> Result<Message, FrameFault>
    ensures exact { Gives payload_of result (frame_in bytes.now) }
    ensures memory { IfErr result (λ e. e ≡ Memory → IsOk (first_key_in bytes.now)) }
{
    let fields = fields_of(bytes)?;
    content_of(alloc, bytes[4], fields)
}

/// The message of a frame of version 1 or 2, or its first fault. Memory is asked for only once the key of a parcel's record was
/// read, or all of an ask or an offer; where it is refused, what follows is not tested any more. The bytes of an offer are copied
/// once.
pub fn decode(alloc: Global, bytes: &[u8]) -> Result<Message, FrameFault>
    // What is read is within the ranges, and the bytes are its frame.
    ensures found { IfOk result (λ m. PayloadInRange (payload_of m) × IsFrameOf bytes.now (payload_of m)
        × (length bytes.now ≤ longest_frame)) }
    // The frame of a message within the ranges is read, unless memory is refused.
    ensures only { (m : Payload) → PayloadInRange m → length bytes.now ≤ longest_frame → IsFrameOf bytes.now m
        → Gives payload_of result (Ok m) }
    // Which fault it is.
    ensures exact { Gives payload_of result (frame_in bytes.now) }
    ensures memory { IfErr result (λ e. e ≡ Memory → IsOk (first_key_in bytes.now)) }
{
    read(alloc, bytes)
}
