//! Fills of what a station's site lacks: by the hand of a seat, and by fetches from a second site.
use geo_frame::Message;
use geo_gossip::{Peer, fetch};
use geo_link::{Link, LinkError};
use geo_requests::ValueBytes;
use geo_scenes::Stop;
use geo_scenes::texts::word;
use geo_site::{Filled, Site};
use geo_station::{CallError, Room, Seat, Station};
use geo_versions::{Digest, Key};
use std::alloc::{AllocError, Global};
use std::sync::Wait;

fn key_of(alloc: Global, text: &[u8]) -> Result<Key, Stop> {
    match Key::new(alloc, text)? {
        Some(key) => Ok(key),
        None => Err(Stop::Wrong("no such key")),
    }
}

/// Tells which key is missing first at the moment 100.
pub fn miss<L: Room, R: Wait>(
    rt: &R,
    alloc: Global,
    station: &Station<L>,
    out: &mut Vec<u8>,
) -> Result<(), Stop> {
    match station.missing(rt, alloc, 100, None)? {
        Some(missing) => Ok(out.extend_from_slice(missing.key.bytes())?),
        None => Ok(out.extend_from_slice(b"none")?),
    }
}

/// Tells the bytes of a key that are held and have the SHA-256 of these.
pub fn offer<L: Room, R: Wait>(
    rt: &R,
    alloc: Global,
    station: &Station<L>,
    key: &[u8],
    value: &[u8],
    out: &mut Vec<u8>,
) -> Result<(), Stop> {
    let key = key_of(alloc, key)?;
    match station.offer(rt, alloc, &key, &Digest::of(value))? {
        Some(bytes) => Ok(out.extend_from_slice(bytes.as_slice())?),
        None => Ok(out.extend_from_slice(b"none")?),
    }
}

/// Offers the station's site bytes of a key.
pub fn fill<L: Room, R: Wait>(
    rt: &R,
    alloc: Global,
    station: &Station<L>,
    seat: &mut Seat<L>,
    key: &[u8],
    value: &[u8],
    out: &mut Vec<u8>,
) -> Result<(), Stop> {
    let key = key_of(alloc, key)?;
    let bytes = ValueBytes::of(Vec::from_slice(alloc, value)?);
    let told: &[u8] = match station.fill(rt, alloc, seat, &key, bytes) {
        Ok(Filled::NotNamed) => b"not named",
        Ok(Filled::Held) => b"held",
        Ok(Filled::Full) => b"full",
        Ok(Filled::Done) => b"done",
        Err(CallError::Site(_)) => return Err(Stop::Memory),
        Err(CallError::SeatSpent) => return Err(Stop::Wrong("a spent seat")),
    };
    Ok(out.extend_from_slice(told)?)
}

/// A link to the second site, which answers each ask at once.
#[derive(Drop)]
struct Answering<'a> {
    site: &'a Site,
    asked: Option<(Key, Digest)>,
}

fn held_bytes(
    alloc: Global,
    site: &Site,
    key: &Key,
    digest: &Digest,
) -> Result<Option<Vec<u8>>, AllocError> {
    match site.offer(key, digest) {
        Some(bytes) => Ok(Some(Vec::from_slice(alloc, bytes)?)),
        None => Ok(None),
    }
}

impl Link for Answering<'_> {
    ghost puts = { λ _ _ _. Unit {0} };

    ghost gets = { λ _ _ _. Unit {0} };

    ghost put_fails = { λ _ _ _ _. Unit {0} };

    ghost get_fails = { λ _ _ _. Unit {0} };

    ghost closes = { λ _ _. Unit {0} };

    fn put<R: Wait>(&mut self, _rt: &R, _alloc: Global, message: Message) -> Result<(), LinkError> {
        match message {
            Message::Ask { key, digest, .. } => {
                self.asked = Some((key, digest));
                Ok(())
            }
            _ => Err(LinkError::Closed),
        }
    }

    fn get<R: Wait>(&mut self, _rt: &R, alloc: Global) -> Result<Message, LinkError> {
        let Some((key, digest)) = self.asked.take() else {
            return Err(LinkError::Closed);
        };
        match held_bytes(alloc, self.site, &key, &digest) {
            Ok(bytes) => Ok(Message::Offer {
                from: 2,
                to: 1,
                sites: 2,
                key,
                digest,
                bytes,
            }),
            Err(_) => Err(LinkError::Memory),
        }
    }

    fn close(&mut self) {
        self.asked = None;
    }
}

/// Fetches what is missing at the moment 100 from the second site, as many values as are due. Where memory is wanted, fewer come, and
/// the rest when it is fetched again.
pub fn fetch_all<L: Room, R: Wait>(
    rt: &R,
    alloc: Global,
    station: &Station<L>,
    seat: &mut Seat<L>,
    site: &Site,
    fetched: &mut usize,
    due: usize,
    out: &mut Vec<u8>,
) -> Result<(), Stop> {
    let mut peers = Vec::new(alloc);
    peers.push(Peer {
        site: 2,
        link: Answering { site, asked: None },
    })?;
    let count = fetch(rt, alloc, station, seat, 100, peers.as_mut_slice());
    *fetched = fetched.saturating_add(count);
    if *fetched < due {
        return Err(Stop::Part);
    }
    word(out, b"fetched ", *fetched as u64)?;
    *fetched = 0;
    Ok(())
}
