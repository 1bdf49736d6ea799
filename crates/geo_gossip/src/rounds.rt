//! One round: a parcel for each other site.
ghost use Rattle.std.specs.Prelude.{◌≡◌, IfOk, IfErr};
ghost use Rattle.geo_gossip.specs.Rounds.{Served, ServedAll, Unserved, StopsEarly};

use crate::fault::GossipFault;
use geo_frame::Message;
use geo_link::Link;
use geo_site::SendError;
use geo_station::{CallError, Room, Seat, Station};
use std::alloc::Global;
use std::sync::Wait;

/// Another site, and the link that leads there.
#[derive(Drop)]
pub struct Peer<K> {
    /// The site's number, 1 to 16.
    pub site: u8,
    pub link: K,
}

/// Sends a peer what it isn't known to know, and tells whether its link took the parcel.
fn serve<R: Wait, L: Room, K: Link>(
    rt: &R,
    alloc: Global,
    station: &Station<L>,
    seat: &mut Seat<L>,
    peer: &mut Peer<K>,
) -> Result<bool, GossipFault>
    ensures served { IfOk result (λ put. Served K.puts K.put_fails put peer.old peer.new seat.old seat.new) }
    ensures unserved { IfErr result (λ why. Unserved why peer.old.site seat.old seat.new) }
    ensures stays { IfErr result (λ _. peer.new ≡ peer.old) }
{
    // A parcel may be as large as all that the site knows.
    seat.forget();
    match station.send(rt, alloc, seat, peer.site) {
        Ok(parcel) => Ok(peer.link.put(rt, alloc, Message::Parcel(parcel)).is_ok()),
        Err(CallError::Site(SendError::NoSuchSite)) => Ok(false),
        Err(CallError::Site(SendError::Retired)) => Ok(false),
        Err(CallError::Site(SendError::Memory)) => Err(GossipFault::Memory),
        Err(CallError::SeatSpent) => Err(GossipFault::SeatSpent),
    }
}

/// One round of gossip (Almeida et al. 2018): the site makes a parcel for each peer, in their order, of what it knows and hasn't
/// heard that the peer knows, and the peer's link takes it. A link that fails is skipped, and its peer is sent all of it again in
/// a later round. A peer that the station's site doesn't know, or holds for retired, is skipped. It tells how many parcels were put. A
/// `put` may wait. Of its calls the seat keeps the last alone.
pub fn round<R: Wait, L: Room, K: Link>(
    rt: &R,
    alloc: Global,
    station: &Station<L>,
    seat: &mut Seat<L>,
    peers: &mut [Peer<K>],
) -> Result<usize, GossipFault>
    ensures served { IfOk result (λ count. ServedAll K.puts K.put_fails peers.old peers.new seat.old seat.new count) }
    ensures stops { IfErr result (λ why. StopsEarly K.puts K.put_fails peers.old peers.new seat.old seat.new why) }
{
    let mut count = 0;
    for at in 0..peers.len() {
        if serve(rt, alloc, station, seat, &mut peers[at])? {
            count += 1;
        }
    }
    Ok(count)
}
