//! Which events are there: those whose sites and parcels are.
ghost use Rattle.std.specs.Prelude.{◌≡◌, ◌<◌, ◌^◌};
ghost use Rattle.geo_world.specs.There.{is_site, is_there, made_by, FirstMissing};

use crate::event::Event;

/// Whether a site of this number is among so many.
pub fn has_site(sites: usize, number: u8) -> bool
    ensures { result ≡ is_site sites number }
{
    number >= 1 && number as usize <= sites
}

/// Whether the sites and the parcel that an event names are among so many.
pub fn is_at_hand(sites: usize, parcels: usize, event: &Event) -> bool
    ensures { result ≡ is_there sites parcels event.now }
{
    match event {
        Event::Command { site, .. }
        | Event::Evict { site, .. }
        | Event::Remove { site }
        | Event::Tick { site, .. }
        | Event::Fill { site, .. }
        | Event::Reap { site, .. } => has_site(sites, *site),
        Event::Send { site, to } => has_site(sites, *site) && has_site(sites, *to),
        Event::Retire { site, other } => has_site(sites, *site) && has_site(sites, *other),
        Event::Take { site, parcel } => has_site(sites, *site) && *parcel < parcels,
    }
}

/// How many parcels there are after an event, where a send to another site makes one.
fn with_made(parcels: usize, event: &Event) -> usize
    requires room { parcels < 2 ^ 63 }
    ensures { result ≡ made_by parcels event.now }
{
    match event {
        Event::Send { site, to } if *site != *to => parcels + 1,
        _ => parcels,
    }
}

/// The first event that names a site or a parcel that is not there, whatever comes of those before it.
pub fn first_missing(sites: usize, events: &[Event]) -> Option<usize>
    ensures { FirstMissing sites events.now result }
{
    let mut parcels = 0;
    for (index, event) in events.iter().enumerate() {
        if !is_at_hand(sites, parcels, event) {
            return Some(index);
        }
        parcels = with_made(parcels, event);
    }
    None
}
