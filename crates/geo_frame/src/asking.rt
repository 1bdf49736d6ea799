//! Asks and offers, read.
ghost use Rattle.std.specs.Prelude.{◌≡◌, true, IfOk, IfErr, IsOk, option_map};
ghost use Rattle.geo_records.specs.Keys.{is_key};
ghost use Rattle.geo_frame.specs.declared.fault.FrameFault.TheVariants.{Memory};
ghost use Rattle.geo_frame.specs.Payloads.{payload_of};
ghost use Rattle.geo_frame.specs.Reading.{Says, Reads, Gives, wanted_at, bytes_at, offered_at, ask_in, offer_in, asked_in, offered_in, key_of_ask, key_of_offer};

use crate::body::take_size;
use crate::bytes::Bytes;
use crate::fault::FrameFault;
use crate::key::take_text;
use crate::message::Message;
use crate::route::{Route, take_route};
use geo_versions::{Digest, Key};
use std::alloc::{AllocError, Global};

/// What is asked for, of which nothing is copied yet.
#[derive(Drop)]
struct Wanted<'a> {
    route: Route,
    key: &'a [u8],
    digest: Digest,
}

/// What is offered, of which nothing is copied yet.
#[derive(Drop)]
struct Offered<'a> {
    wanted: Wanted<'a>,
    bytes: Option<&'a [u8]>,
}

#[tactic(auto, unfolding(crate::specs::Reading::wanted_at))]
fn take_wanted<'a>(bytes: &mut Bytes<'a>) -> Result<Wanted<'a>, FrameFault>
    ensures read { Reads (λ w. record { route = w.route; key = w.key.now; digest = w.digest }) result bytes.new.left.now
        (wanted_at bytes.old.left.now) }
    ensures key { IfOk result (λ w. is_key w.key.now ≡ true) }
{
    let route = take_route(bytes)?;
    let key = take_text(bytes, &[])?;
    let digest = bytes.take_digest()?;
    Ok(Wanted { route, key, digest })
}

/// Bytes behind their length.
#[tactic(auto, unfolding(crate::specs::Reading::bytes_at))]
fn take_bytes<'a>(bytes: &mut Bytes<'a>) -> Result<Option<&'a [u8]>, FrameFault>
    ensures { Reads (λ b. option_map (λ x. x.now) b) result bytes.new.left.now (bytes_at bytes.old.left.now) }
{
    let size = take_size(bytes)?;
    let front = bytes.take(size.get() as usize)?;
    Ok(Some(front))
}

#[tactic(auto, unfolding(crate::specs::Reading::offered_at, crate::specs::Reading::tagged_bytes))]
fn take_offered<'a>(bytes: &mut Bytes<'a>) -> Result<Option<&'a [u8]>, FrameFault>
    ensures { Reads (λ b. option_map (λ x. x.now) b) result bytes.new.left.now (offered_at bytes.old.left.now) }
{
    match bytes.take_u8()? {
        0 => Ok(None),
        1 => take_bytes(bytes),
        _ => Err(FrameFault::Field),
    }
}

/// What is asked for by these fields.
#[tactic(auto, unfolding(crate::specs::Reading::ask_in))]
fn ask_of(fields: &[u8]) -> Result<Wanted<'_>, FrameFault>
    ensures read { Says (λ w. record { route = w.route; key = w.key.now; digest = w.digest }) result (ask_in fields.now) }
    ensures key { IfOk result (λ w. is_key w.key.now ≡ true) }
{
    let mut bytes = Bytes { left: fields };
    let wanted = match take_wanted(&mut bytes) {
        Ok(wanted) => wanted,
        Err(fault) => return Err(fault),
    };
    if !bytes.left.is_empty() {
        return Err(FrameFault::Field);
    }
    Ok(wanted)
}

/// What is offered by these fields.
#[tactic(auto, unfolding(crate::specs::Reading::offer_in))]
fn offer_of(fields: &[u8]) -> Result<Offered<'_>, FrameFault>
    ensures read { Says (λ o. (
      record { route = o.wanted.route; key = o.wanted.key.now; digest = o.wanted.digest },
      option_map (λ x. x.now) o.bytes,
    )) result (offer_in fields.now) }
    ensures key { IfOk result (λ o. is_key o.wanted.key.now ≡ true) }
{
    let mut bytes = Bytes { left: fields };
    let wanted = match take_wanted(&mut bytes) {
        Ok(wanted) => wanted,
        Err(fault) => return Err(fault),
    };
    let offered = take_offered(&mut bytes)?;
    if !bytes.left.is_empty() {
        return Err(FrameFault::Field);
    }
    Ok(Offered {
        wanted,
        bytes: offered,
    })
}

/// The ask that these fields tell.
#[tactic(auto, unfolding(crate::specs::Reading::asked_in, crate::specs::Reading::key_of_ask))]
pub(crate) fn read_ask(alloc: Global, fields: &[u8]) -> Result<Message, FrameFault>
    ensures read { Gives payload_of result (asked_in fields.now) }
    ensures memory { IfErr result (λ e. e ≡ Memory → IsOk (key_of_ask fields.now)) }
{
    let Wanted { route, key, digest } = match ask_of(fields) {
        Ok(wanted) => wanted,
        Err(fault) => return Err(fault),
    };
    let key = Key::of(alloc, key)?;
    Ok(Message::Ask {
        from: route.from,
        to: route.to,
        sites: route.sites,
        key,
        digest,
    })
}

fn copied(alloc: Global, bytes: Option<&[u8]>) -> Result<Option<Vec<u8>>, AllocError>
    ensures { IfOk result (λ v. option_map (λ x. x.items) v ≡ option_map (λ x. x.now) bytes.entry) }
{
    match bytes {
        None => Ok(None),
        Some(bytes) => Ok(Some(Vec::from_slice(alloc, bytes)?)),
    }
}

/// The offer that these fields tell.
#[tactic(auto, unfolding(crate::specs::Reading::offered_in, crate::specs::Reading::key_of_offer))]
pub(crate) fn read_offer(alloc: Global, fields: &[u8]) -> Result<Message, FrameFault>
    ensures read { Gives payload_of result (offered_in fields.now) }
    ensures memory { IfErr result (λ e. e ≡ Memory → IsOk (key_of_offer fields.now)) }
{
    let Offered { wanted, bytes } = match offer_of(fields) {
        Ok(offered) => offered,
        Err(fault) => return Err(fault),
    };
    let key = Key::of(alloc, wanted.key)?;
    let bytes = copied(alloc, bytes)?;
    Ok(Message::Offer {
        from: wanted.route.from,
        to: wanted.route.to,
        sites: wanted.route.sites,
        key,
        digest: wanted.digest,
        bytes,
    })
}
