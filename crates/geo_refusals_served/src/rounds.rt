//! Rounds of gossip over links in memory.
use geo_delta::Parcel;
use geo_frame::{Message, fits};
use geo_gossip::{GossipFault, Peer, receive, round};
use geo_lattice::Twin;
use geo_link::{Link, LinkError, MemoryLink, memory_link};
use geo_scenes::Stop;
use geo_scenes::texts::word;
use geo_station::{Room, Seat, Station};
use std::alloc::Global;
use std::sync::Wait;

fn link(alloc: Global) -> Result<(MemoryLink, MemoryLink), Stop> {
    match memory_link(alloc, 16) {
        Ok(ends) => Ok(ends),
        Err(LinkError::Memory) => Err(Stop::Memory),
        Err(_) => Err(Stop::Wrong("no link")),
    }
}

/// A round to sites 2 and 3, whose links are then let go.
fn put_round<L: Room, R: Wait>(
    rt: &R,
    alloc: Global,
    station: &Station<L>,
    seat: &mut Seat<L>,
    peers: Vec<Peer<MemoryLink>>,
) -> Result<usize, GossipFault> {
    let mut peers = peers;
    round(rt, alloc, station, seat, peers.as_mut_slice())
}

/// The parcel that came over a link whose other end is let go, if one did.
fn came<R: Wait>(rt: &R, alloc: Global, mut link: MemoryLink) -> Option<Parcel> {
    match link.get(rt, alloc) {
        Ok(Message::Parcel(parcel)) => Some(parcel),
        Ok(_) | Err(_) => None,
    }
}

/// Keeps what a whole round put, for which there is room. It is as many parcels as the round tells.
fn keep(
    two: Option<Parcel>,
    three: Option<Parcel>,
    told: usize,
    parcels: &mut Vec<Parcel>,
) -> Result<(), Stop> {
    let before = parcels.len();
    for one in [two, three] {
        if let Some(parcel) = one {
            parcels.push(parcel)?;
        }
    }
    if parcels.len().saturating_sub(before) != told {
        return Err(Stop::Wrong("a parcel was lost"));
    }
    Ok(())
}

/// One round to sites 2 and 3. Where memory is wanted for a parcel, those before it were put.
pub fn tell_all<L: Room, R: Wait>(
    rt: &R,
    alloc: Global,
    station: &Station<L>,
    seat: &mut Seat<L>,
    parcels: &mut Vec<Parcel>,
    out: &mut Vec<u8>,
) -> Result<(), Stop> {
    parcels.reserve(2)?;
    let (to_two, at_two) = link(alloc)?;
    let (to_three, at_three) = link(alloc)?;
    let mut peers = Vec::new(alloc);
    peers.push(Peer {
        site: 2,
        link: to_two,
    })?;
    peers.push(Peer {
        site: 3,
        link: to_three,
    })?;
    let told = put_round(rt, alloc, station, seat, peers);
    let (two, three) = (came(rt, alloc, at_two), came(rt, alloc, at_three));
    match told {
        Ok(count) => {
            keep(two, three, count, parcels)?;
            Ok(word(out, b"put ", count as u64)?)
        }
        Err(GossipFault::Memory) if three.is_none() => Err(Stop::Memory),
        Err(GossipFault::Memory) => Err(Stop::Wrong("a round that was refused was whole")),
        Err(GossipFault::SeatSpent) => Err(Stop::Wrong("a spent seat")),
    }
}

/// Puts a copy of a parcel on a link.
fn put<R: Wait>(rt: &R, alloc: Global, link: &mut MemoryLink, parcel: &Parcel) -> Result<(), Stop> {
    let copy = Message::Parcel(parcel.twin(alloc)?);
    if !fits(&copy) {
        return Err(Stop::Wrong("a parcel out of range"));
    }
    match link.put(rt, alloc, copy) {
        Ok(()) => Ok(()),
        Err(_) => Err(Stop::Wrong("a link without room")),
    }
}

/// The site takes parcels that come over a link. Those for which memory is wanted are let go, and come again.
pub fn hear_all<L: Room, R: Wait>(
    rt: &R,
    alloc: Global,
    station: &Station<L>,
    seat: &mut Seat<L>,
    parcels: &[Parcel],
    out: &mut Vec<u8>,
) -> Result<(), Stop> {
    let (mut there, mut here) = link(alloc)?;
    for parcel in parcels {
        put(rt, alloc, &mut there, parcel)?;
    }
    let_go(there);
    let count = receive(rt, alloc, station, seat, &mut here);
    if count < parcels.len() {
        return Err(Stop::Part);
    }
    Ok(word(out, b"took ", count as u64)?)
}

fn let_go(_link: MemoryLink) {}
