//! Asking other sites for the bytes that a site lacks.
ghost use Rattle.std.specs.Prelude.{◌≡◌, ◌≢◌, ◌+◌, ◌≤◌, ◌↔◌, ℕ, List, Option, length, IsTrue, IfOk, IfErr, IfSome, IfNone};
ghost use Rattle.sha2.specs.Sha256.{sha256};
ghost use Rattle.geo_frame.specs.Payloads.{payload_of, wanted};
ghost use Rattle.geo_gossip.specs.Receiving.{turned};
ghost use Rattle.geo_gossip.specs.Fetching.{ways, ask_of, done_by, OffersThese, Exchanges, TellsThis, IsSilent, AsksPeer, AsksFor, Fetches};
ghost use Rattle.geo_link.specs.declared.fault.LinkError.TheVariants as link_error;

use crate::rounds::Peer;
use geo_frame::{Message, fits};
use geo_link::{Link, LinkError};
use geo_requests::ValueBytes;
use geo_site::Filled;
use geo_station::{Missing, Room, Seat, Station};
use geo_versions::{Digest, Key};
use std::alloc::{AllocError, Global};
use std::sync::Wait;

/// How many keys one fetch asks for at most.
const MOST_ASKED: usize = 64;

/// Why a peer brings nothing.
#[derive(Clone, Copy)]
enum Silence {
    /// It is asked no more in this fetch.
    Left,
    /// No peer is asked any more: memory was refused, or the seat is spent.
    Ended,
}

impl Silence {
    /// What a link's error is to a fetch.
    fn of(why: LinkError) -> Silence
        ensures left { result ≡ Silence.Left → why ≢ link_error.Memory }
        ensures ended { result ≡ Silence.Ended → why ≡ link_error.Memory }
    {
        match why {
            LinkError::Memory => Silence::Ended,
            LinkError::Closed | LinkError::Frame(_) | LinkError::Io | LinkError::TooLong => {
                Silence::Left
            }
        }
    }
}

/// Whether an offer from where to where, of how many sites, for which key and SHA-256, is what a site was asked for.
fn is_asked(
    from: u8,
    to: u8,
    sites: u8,
    key: &Key,
    digest: Digest,
    site: u8,
    missing: &Missing,
) -> bool
    ensures { IsTrue result ↔ (wanted from to sites key.now digest ≡ turned (ask_of site missing.now)) }
{
    let goes_back = from == site && to == missing.from && sites == missing.sites;
    goes_back && *key == missing.key && digest == missing.digest
}

/// The bytes, where they have this SHA-256.
fn named(alloc: Global, bytes: Vec<u8>, digest: Digest) -> Option<ValueBytes>
    ensures some { IfSome result (λ b. (b ≡ bytes.items) × (sha256 bytes.items ≡ digest)) }
    ensures none { IfNone result (sha256 bytes.items ≢ digest) }
{
    let mut bytes = ValueBytes::of(bytes);
    // The station wants to know it too.
    bytes.know_digest(alloc);
    if bytes.digest() == digest {
        Some(bytes)
    } else {
        None
    }
}

/// What a message from a site offers that was asked for, of which there may be no bytes; None where it is another message, or its bytes
/// have another SHA-256.
fn offered(
    alloc: Global,
    message: Message,
    site: u8,
    missing: &Missing,
) -> Option<Option<ValueBytes>>
    ensures some { IfSome result (λ bytes. OffersThese (ask_of site missing.now) (payload_of message) bytes) }
    ensures none { IfNone result ((bytes : Option (List ℕ)) → OffersThese (ask_of site missing.now) (payload_of message) bytes → ⊥) }
{
    match message {
        Message::Parcel(_) => None,
        Message::Ask { .. } => None,
        Message::Offer {
            from,
            to,
            sites,
            key,
            digest,
            bytes,
        } => {
            if !is_asked(from, to, sites, &key, digest, site, missing) {
                return None;
            }
            match bytes {
                None => Some(None),
                Some(bytes) => match named(alloc, bytes, digest) {
                    None => None,
                    Some(bytes) => Some(Some(bytes)),
                },
            }
        }
    }
}

/// Asks a site for missing bytes over its link, and gets what it offers. The link is closed where that is another message.
fn asked<R: Wait, K: Link>(
    rt: &R,
    alloc: Global,
    site: u8,
    link: &mut K,
    missing: &Missing,
) -> Result<Option<ValueBytes>, Silence>
    ensures offered { IfOk result (λ bytes. Exchanges (ways K.puts K.gets K.put_fails K.get_fails K.closes) (ask_of site missing.now) bytes
        link.old link.new) }
    ensures silent { IfErr result (λ why. IsSilent (ways K.puts K.gets K.put_fails K.get_fails K.closes) why (ask_of site missing.now)
        link.old link.new) }
{
    let Ok(key) = missing.key.copied(alloc) else {
        return Err(Silence::Ended);
    };
    let ask = Message::Ask {
        from: missing.from,
        to: site,
        sites: missing.sites,
        key,
        digest: missing.digest,
    };
    if !fits(&ask) {
        return Err(Silence::Left);
    }
    if let Err(why) = link.put(rt, alloc, ask) {
        return Err(Silence::of(why));
    }
    match link.get(rt, alloc) {
        Err(why) => Err(Silence::of(why)),
        Ok(message) => match offered(alloc, message, site, missing) {
            Some(bytes) => Ok(bytes),
            None => {
                link.close();
                Err(Silence::Left)
            }
        },
    }
}

/// Asks a site for missing bytes, and has the station fill with those that it offers. What came of that; None where it offers none.
fn tried<R: Wait, L: Room, K: Link>(
    rt: &R,
    alloc: Global,
    station: &Station<L>,
    seat: &mut Seat<L>,
    site: u8,
    link: &mut K,
    missing: &Missing,
) -> Result<Option<Filled>, Silence>
    ensures told { IfOk result (λ filled. TellsThis (ways K.puts K.gets K.put_fails K.get_fails K.closes) filled (ask_of site missing.now)
        link.old link.new seat.old seat.new) }
    ensures silent { IfErr result (λ why. IsSilent (ways K.puts K.gets K.put_fails K.get_fails K.closes) why (ask_of site missing.now)
        link.old link.new × (seat.new ≡ seat.old)) }
    ensures steps { IfOk result (λ filled. seat.old.steps + done_by filled ≤ seat.new.steps) }
    ensures stays { seat.new ≡ record seat.old { mark = seat.new.mark; steps = seat.new.steps } }
{
    match asked(rt, alloc, site, link, missing) {
        Err(why) => Err(why),
        Ok(None) => Ok(None),
        Ok(Some(bytes)) => match station.fill(rt, alloc, seat, &missing.key, bytes) {
            Ok(filled) => Ok(Some(filled)),
            Err(_) => Err(Silence::Ended),
        },
    }
}

/// 1 where a fill was done, and else 0.
fn counted(filled: Filled) -> usize
    ensures { result ≡ done_by (Some filled) }
{
    if filled.is_done() { 1 } else { 0 }
}

/// Asks a peer for all that is sought, one after the other. What the station was offered is sought no more, whatever came of it. How
/// many fills were done, and whether other peers are to be asked.
fn ask_peer<R: Wait, L: Room, K: Link>(
    rt: &R,
    alloc: Global,
    station: &Station<L>,
    seat: &mut Seat<L>,
    peer: &mut Peer<K>,
    sought: &mut Vec<Missing>,
) -> (usize, bool)
    ensures asks { AsksPeer (ways K.puts K.gets K.put_fails K.get_fails K.closes) result.1 sought.old.items sought.new.items
        peer.old peer.new seat.old seat.new result.0 }
    ensures few { result.0 + length sought.new.items ≤ length sought.old.items }
    ensures steps { seat.old.steps + result.0 ≤ seat.new.steps }
    ensures stays { seat.new ≡ record seat.old { mark = seat.new.mark; steps = seat.new.steps } }
{
    let Peer { site, link } = peer;
    let mut done = 0;
    let mut at = 0;
    while at < sought.len() {
        match tried(rt, alloc, station, seat, *site, link, &sought[at]) {
            Ok(Some(filled)) => {
                let _offered = sought.remove(at);
                done += counted(filled);
            }
            Ok(None) => at += 1,
            Err(Silence::Left) => return (done, true),
            Err(Silence::Ended) => return (done, false),
        }
    }
    (done, true)
}

/// Asks each peer, in their order, for all of these that the ones before have not brought, and tells how many of the fills were done.
fn ask_all<R: Wait, L: Room, K: Link>(
    rt: &R,
    alloc: Global,
    station: &Station<L>,
    seat: &mut Seat<L>,
    peers: &mut [Peer<K>],
    mut sought: Vec<Missing>,
) -> usize
    requires few { length sought.items ≤ 64 }
    ensures asks { AsksFor (ways K.puts K.gets K.put_fails K.get_fails K.closes) sought.items peers.old peers.new seat.old seat.new result }
    ensures few { result ≤ 64 }
    ensures steps { seat.old.steps + result ≤ seat.new.steps }
    ensures stays { seat.new ≡ record seat.old { mark = seat.new.mark; steps = seat.new.steps } }
{
    let mut done = 0;
    for at in 0..peers.len() {
        let (more, goes_on) = ask_peer(rt, alloc, station, seat, &mut peers[at], &mut sought);
        done += more;
        if !goes_on {
            return done;
        }
    }
    done
}

/// Asks other sites for bytes that the site lacks: for those of the 64 keys that [`Station::first_missing`] gives at a moment
/// in seconds. Each peer, in their order, is asked for all that the ones before have not brought, by one ask at a time and the offer that
/// answers it, and the station fills with what is offered. It tells how many of the fills were done.
///
/// A peer whose link fails is left for the rest of the fetch; so is one that the site doesn't know. A peer that answers by anything but
/// the offer that it was asked for, or by bytes with another SHA-256, loses its link, which is closed. The bytes are looked at before
/// the site is asked, so that [`Filled::NotNamed`] says nothing of the peer: the site's version has changed since. Where memory is
/// refused, or the seat is spent, the fetch ends. A `put` and a `get` may wait.
pub fn fetch<R: Wait, L: Room, K: Link>(
    rt: &R,
    alloc: Global,
    station: &Station<L>,
    seat: &mut Seat<L>,
    now: u64,
    peers: &mut [Peer<K>],
) -> usize
    ensures fetches { Fetches (ways K.puts K.gets K.put_fails K.get_fails K.closes) now peers.old peers.new seat.old seat.new result }
    ensures few { result ≤ 64 }
    ensures steps { seat.old.steps + result ≤ seat.new.steps }
    ensures stays { seat.new ≡ record seat.old { mark = seat.new.mark; steps = seat.new.steps } }
{
    match station.first_missing(rt, alloc, now, MOST_ASKED) {
        Ok(sought) => ask_all(rt, alloc, station, seat, peers, sought),
        Err(_) => 0,
    }
}
