//! Taking what other sites send.
ghost use Rattle.std.specs.Prelude.{◌≡◌, ◌+◌, ◌≤◌, ◌↔◌, Result, length, if◌then◌else◌, IsTrue, IfOk, IfErr, IfSome, IfNone};
ghost use Rattle.geo_frame.specs.Payloads.{PayloadInRange, WantedInRange, payload_of};
ghost use Rattle.geo_frame.specs.Payloads.Payload.{Asks};
ghost use Rattle.geo_gossip.specs.Receiving.{Came, Becomes, Hears, HearsOut, Offered, LacksMemory, Ends, IsAsk, is_taken, wanted_by};
ghost use Rattle.geo_gossip.specs.Rounds.{KeepsLast, emptied};
ghost use Rattle.geo_site.specs.declared.exchange.Taken.{Taken};
ghost use Rattle.geo_station.specs.Calls.{TakesBy};
ghost use Rattle.geo_station.specs.declared.refusal.Returned.{Returned};

use geo_delta::Parcel;
use geo_frame::{Message, fits};
use geo_link::{Link, LinkError};
use geo_station::{Room, Seat, Station};
use geo_versions::{Digest, Key};
use std::alloc::{AllocError, Global};
use std::sync::Wait;

/// Has the site take a parcel, and tells whether it did.
fn taken<R: Wait, L: Room>(
    rt: &R,
    alloc: Global,
    station: &Station<L>,
    seat: &mut Seat<L>,
    parcel: Parcel,
) -> bool
    ensures asked { (answer : Result Taken Returned) × TakesBy (emptied seat.old) seat.new parcel answer
        × (is_taken (Came.Got parcel answer) ≡ result) }
    ensures steps { seat.old.steps + (if result then 1 else 0) ≤ seat.new.steps }
    ensures last { length seat.new.calls ≤ 1 }
{
    seat.forget();
    station.take(rt, alloc, seat, parcel).is_ok()
}

/// An ask that came, of two of the sites.
#[derive(Drop)]
struct Ask {
    from: u8,
    to: u8,
    sites: u8,
    key: Key,
    digest: Digest,
}

/// Answers an ask on the link by which it came: with the bytes that the site holds, or with none. Why the link refused that, where it
/// did; Err where memory was refused, to the site or to the link.
fn answered<R: Wait, L: Room, K: Link>(
    rt: &R,
    alloc: Global,
    station: &Station<L>,
    link: &mut K,
    ask: Ask,
) -> Result<Option<LinkError>, AllocError>
    requires { WantedInRange (wanted_by ask) }
    ensures offered { IfOk result (λ failed. Offered K.puts K.put_fails (Asks (wanted_by ask)) failed link.old link.new) }
    ensures lacks { IfErr result (λ _. LacksMemory K.put_fails (Asks (wanted_by ask)) link.old link.new) }
{
    let Ask {
        from,
        to,
        sites,
        key,
        digest,
    } = ask;
    let bytes = station.offer(rt, alloc, &key, &digest)?;
    let offer = Message::Offer {
        from: to,
        to: from,
        sites,
        key,
        digest,
        bytes,
    };
    match link.put(rt, alloc, offer) {
        Ok(()) => Ok(None),
        Err(why) => match why {
            LinkError::Memory => Err(AllocError),
            _ => Ok(Some(why)),
        },
    }
}

/// What becomes of a message, and whether the site took it. None where there was no memory for an answer.
fn heard<R: Wait, L: Room, K: Link>(
    rt: &R,
    alloc: Global,
    station: &Station<L>,
    seat: &mut Seat<L>,
    link: &mut K,
    message: Message,
    is_fit: bool,
) -> Option<bool>
    requires { IsTrue is_fit ↔ PayloadInRange (payload_of message) }
    ensures becomes { IfSome result (λ taken. (one : Came) × Becomes K.puts K.put_fails one message link.old link.new seat.old seat.new
        × (is_taken one ≡ taken)) }
    ensures steps { IfSome result (λ taken. seat.old.steps + (if taken then 1 else 0) ≤ seat.new.steps) }
    ensures last { KeepsLast seat.old seat.new }
    ensures lacks { IfNone result (IsAsk (payload_of message) × LacksMemory K.put_fails (payload_of message) link.old link.new
        × (seat.new ≡ seat.old)) }
{
    match message {
        Message::Parcel(parcel) => Some(taken(rt, alloc, station, seat, parcel)),
        Message::Ask {
            from,
            to,
            sites,
            key,
            digest,
        } => {
            if !is_fit {
                return Some(false);
            }
            let ask = Ask {
                from,
                to,
                sites,
                key,
                digest,
            };
            match answered(rt, alloc, station, link, ask) {
                Ok(_) => Some(false),
                Err(_) => None,
            }
        }
        Message::Offer { .. } => Some(false),
    }
}

/// Gets once from a link, and has the site take a parcel that comes, or answers an ask. Whether it took one; None where the link is
/// closed, or there is no memory for an answer.
fn hear<R: Wait, L: Room, K: Link>(
    rt: &R,
    alloc: Global,
    station: &Station<L>,
    seat: &mut Seat<L>,
    link: &mut K,
) -> Option<bool>
    ensures heard { IfSome result (λ taken. (one : Came)
        × Hears K.puts K.gets K.put_fails K.get_fails one link.old link.new seat.old seat.new × (is_taken one ≡ taken)) }
    ensures steps { IfSome result (λ taken. seat.old.steps + (if taken then 1 else 0) ≤ seat.new.steps) }
    ensures last { KeepsLast seat.old seat.new }
    ensures ends { IfNone result (Ends K.gets K.put_fails K.get_fails link.old link.new × (seat.new ≡ seat.old)) }
{
    match link.get(rt, alloc) {
        Ok(message) => {
            let is_fit = fits(&message);
            heard(rt, alloc, station, seat, link, message, is_fit)
        }
        Err(why) => match why {
            LinkError::Closed => None,
            _ => Some(false),
        },
    }
}

/// Has the site take the parcels that come over a link, each once and in their order, until the link is closed, and tells how many
/// it took. A parcel that the site refuses is dropped: what it told comes again in a later one. So does what a damaged frame told,
/// and a link that fails is closed for good. Each ask is answered on the same link by one offer, before more is got: whoever asks waits
/// for it. Where there is no memory for an offer no more is got, so that whoever asked learns of it by the end of the link. Of its calls
/// the seat keeps the last alone, since each has its parcel.
pub fn receive<R: Wait, L: Room, K: Link>(
    rt: &R,
    alloc: Global,
    station: &Station<L>,
    seat: &mut Seat<L>,
    link: &mut K,
) -> usize
    ensures all { HearsOut K.puts K.gets K.put_fails K.get_fails link.old link.new seat.old seat.new result }
    ensures steps { seat.old.steps + result ≤ seat.new.steps }
    ensures last { KeepsLast seat.old seat.new }
{
    let mut count = 0usize;
    for _ in rt.forever() {
        let Some(took) = hear(rt, alloc, station, seat, link) else {
            return count;
        };
        if took {
            count = count.saturating_add(1);
        }
    }
    unreachable!()
}
