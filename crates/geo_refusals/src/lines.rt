//! Calls at sites that keep their history, a line each.
use geo_delta::Parcel;
use geo_equal::Equal;
use geo_fixtures::opened;
use geo_frame::{EncodeFault, FrameFault, Message, decode, encode, fits};
use geo_grammar::push_reply;
use geo_history::Kept;
use geo_lattice::Twin;
use geo_requests::{Request, ValueBytes, Verb};
use geo_scenes::shown::{
    name_of_take, push_number, push_parcel, push_state, push_steps, push_versions,
};
use geo_scenes::texts::{key, request, word};
use geo_scenes::{Scene, Stop};
use geo_site::{BoxedParcel, LAST_MOMENT, ReapError, SendError, TakeError};
use geo_slabs::CLASSES;
use geo_versions::Digest;
use std::alloc::{AllocError, Global};
use std::random::RandomSource;
use std::rt::Clock;
use std::sync::Wait;

/// A call at a site, whose number comes first. Moments are in seconds.
#[derive(Clone, Copy)]
pub enum Line {
    /// A request in the text of the protocol, at a moment.
    Act(u8, u64, &'static [u8]),
    /// A set of so many bytes at a key, at the moment 100.
    Store(u8, &'static [u8], usize),
    /// A parcel for another site, numbered from 0.
    Send(u8, u8),
    /// The parcel of this number, which stays there to be taken again.
    Take(u8, usize),
    /// The parcel of this number, as a frame that is read again.
    Frame(usize),
    /// An offer of bytes for a key, as a frame that is read again.
    Offer(&'static [u8], &'static [u8]),
    Remove(u8),
    Evict(u8, &'static [u8]),
    Tick(u8, u64),
    Reap(u8, u64, &'static [u8]),
    /// A move in a slab class.
    Juggle(u8, usize),
    NewEra(u8),
}

/// Sites, and the parcels between them.
#[derive(Drop)]
pub struct Sites {
    sites: Vec<Kept>,
    parcels: Vec<Parcel>,
    lines: &'static [Line],
}

fn store(alloc: Global, name: &[u8], count: usize) -> Result<Request, Stop> {
    Ok(Request::Store {
        verb: Verb::Set,
        key: key(alloc, name)?,
        flags: 0,
        exptime: 0,
        unique: None,
        bytes: ValueBytes::of(vec![in alloc; 7u8; count]?),
        noreply: false,
    })
}

fn act(
    alloc: Global,
    kept: &mut Kept,
    now: u64,
    request: Request,
    out: &mut Vec<u8>,
) -> Result<(), Stop> {
    if kept.left(0) < 2 || now > LAST_MOMENT {
        return Err(Stop::Wrong("no step left"));
    }
    let (reply, copy) = kept.act_for(alloc, 0, now, request)?;
    if !copy.equals(&reply) {
        return Err(Stop::Wrong("another copy of the reply"));
    }
    Ok(push_reply(out, &reply)?)
}

/// Two parcels that are equal.
fn sent(alloc: Global, kept: &mut Kept, to: u8) -> Result<(Parcel, BoxedParcel), Stop> {
    if kept.left(0) < 2 {
        return Err(Stop::Wrong("no step left"));
    }
    match kept.send_for(alloc, 0, to) {
        Ok(both) => Ok(both),
        Err(SendError::Memory) => Err(Stop::Memory),
        Err(SendError::NoSuchSite) => Err(Stop::Wrong("no such site")),
        Err(SendError::Retired) => Err(Stop::Wrong("a retired site")),
    }
}

/// Tells how many records a parcel brings. It stands behind the others then.
fn send(
    alloc: Global,
    kept: &mut Kept,
    to: u8,
    parcels: &mut Vec<Parcel>,
    out: &mut Vec<u8>,
) -> Result<(), Stop> {
    parcels.reserve(1)?;
    let (parcel, copy) = sent(alloc, kept, to)?;
    if !copy.parcel().equals(&parcel) {
        return Err(Stop::Wrong("another copy of the parcel"));
    }
    word(out, b"records ", parcel.records.as_slice().len() as u64)?;
    parcels.push(parcel)?;
    Ok(())
}

/// A parcel that memory was wanted for comes back whole.
fn handed_back(
    why: TakeError,
    parcel: &Parcel,
    whole: &Parcel,
    out: &mut Vec<u8>,
) -> Result<(), Stop> {
    if !parcel.equals(whole) {
        return Err(Stop::Wrong("the parcel did not come back whole"));
    }
    if why == TakeError::Memory {
        return Err(Stop::Memory);
    }
    Ok(out.extend_from_slice(name_of_take(why))?)
}

fn take(alloc: Global, kept: &mut Kept, parcel: &Parcel, out: &mut Vec<u8>) -> Result<(), Stop> {
    if kept.left(0) < 2 {
        return Err(Stop::Wrong("no step left"));
    }
    let copy = parcel.twin(alloc)?;
    match kept.take_for(alloc, 0, copy) {
        Ok(taken) => {
            let told: &[u8] = if taken.rose { b"rose, " } else { b"knew, " };
            out.extend_from_slice(told)?;
            Ok(word(out, b"dropped ", taken.dropped as u64)?)
        }
        Err(refused) => handed_back(refused.why, &refused.parcel, parcel, out),
    }
}

/// The frame of a copy of a parcel.
pub fn frame_of(alloc: Global, parcel: &Parcel) -> Result<Vec<u8>, Stop> {
    spelled(alloc, &Message::Parcel(parcel.twin(alloc)?))
}

/// The frame of a message.
fn spelled(alloc: Global, message: &Message) -> Result<Vec<u8>, Stop> {
    if !fits(message) {
        return Err(Stop::Wrong("a message out of range"));
    }
    match encode(alloc, message) {
        Ok(frame) => Ok(frame),
        Err(EncodeFault::Memory) => Err(Stop::Memory),
        Err(EncodeFault::TooLong) => Err(Stop::Wrong("a frame too long")),
    }
}

/// Spells a parcel as a frame, and reads it again.
fn frame(alloc: Global, parcel: &Parcel, out: &mut Vec<u8>) -> Result<(), Stop> {
    let frame = frame_of(alloc, parcel)?;
    let read = match decode(alloc, frame.as_slice()) {
        Ok(Message::Parcel(read)) => read,
        Err(FrameFault::Memory) => return Err(Stop::Memory),
        Ok(_) | Err(_) => return Err(Stop::Wrong("no parcel was read")),
    };
    if !read.equals(parcel) {
        return Err(Stop::Wrong("another parcel was read"));
    }
    Ok(word(out, b"bytes ", frame.len() as u64)?)
}

/// Spells an offer of site 2 as a frame, reads it again, and spells what was read.
fn offer(alloc: Global, name: &[u8], bytes: &[u8], out: &mut Vec<u8>) -> Result<(), Stop> {
    let offer = Message::Offer {
        from: 2,
        to: 1,
        sites: 2,
        key: key(alloc, name)?,
        digest: Digest::of(bytes),
        bytes: Some(Vec::from_slice(alloc, bytes)?),
    };
    let frame = spelled(alloc, &offer)?;
    let read = match decode(alloc, frame.as_slice()) {
        Ok(read) => read,
        Err(FrameFault::Memory) => return Err(Stop::Memory),
        Err(_) => return Err(Stop::Wrong("no offer was read")),
    };
    if spelled(alloc, &read)?.as_slice() != frame.as_slice() {
        return Err(Stop::Wrong("another offer was read"));
    }
    Ok(word(out, b"bytes ", frame.len() as u64)?)
}

fn tell(out: &mut Vec<u8>, told: bool, yes: &[u8]) -> Result<(), Stop> {
    let text: &[u8] = if told { yes } else { b"nothing" };
    Ok(out.extend_from_slice(text)?)
}

fn reap(
    alloc: Global,
    kept: &mut Kept,
    now: u64,
    name: &[u8],
    out: &mut Vec<u8>,
) -> Result<(), Stop> {
    let name = key(alloc, name)?;
    if kept.left(0) < 2 || now > LAST_MOMENT {
        return Err(Stop::Wrong("no step left"));
    }
    match kept.reap_for(alloc, 0, now, &name) {
        Ok(told) => tell(out, told, b"reaped"),
        Err(ReapError::Memory) => Err(Stop::Memory),
        Err(ReapError::ClockEnded) => Err(Stop::Wrong("clock ended")),
    }
}

fn evict(alloc: Global, kept: &mut Kept, name: &[u8], out: &mut Vec<u8>) -> Result<(), Stop> {
    let name = key(alloc, name)?;
    if kept.left(0) < 2 {
        return Err(Stop::Wrong("no step left"));
    }
    let told = kept.evict_for(alloc, 0, &name)?;
    tell(out, told, b"evicted")
}

fn tick(kept: &mut Kept, now: u64) -> Result<bool, Stop> {
    if kept.left(0) < 2 || now > LAST_MOMENT {
        return Err(Stop::Wrong("no step left"));
    }
    Ok(kept.tick_for(0, now)?)
}

fn remove(kept: &mut Kept, out: &mut Vec<u8>) -> Result<(), Stop> {
    if kept.left(0) < 2 {
        return Err(Stop::Wrong("no step left"));
    }
    let count = kept.remove_for(0)?;
    Ok(word(out, b"removed ", count as u64)?)
}

fn juggle(kept: &mut Kept, class: usize, out: &mut Vec<u8>) -> Result<(), Stop> {
    if class >= CLASSES {
        return Err(Stop::Wrong("no such class"));
    }
    let told = kept.juggle(class)?;
    tell(out, told, b"moved")
}

/// Begins an era, and tells how many steps ended with the one before.
fn new_era(alloc: Global, kept: &mut Kept, out: &mut Vec<u8>) -> Result<(), Stop> {
    match kept.new_era(alloc)? {
        Some(history) => Ok(word(out, b"steps ", history.steps.len() as u64)?),
        None => Err(Stop::Wrong("no era left")),
    }
}

/// The site of a number, from 1.
fn site_of(sites: &mut Vec<Kept>, number: u8) -> Result<&mut Kept, Stop> {
    match sites.get_mut((number as usize).wrapping_sub(1)) {
        Some(kept) => Ok(kept),
        None => Err(Stop::Wrong("no such site")),
    }
}

/// Makes a call that has to do with parcels.
fn exchange(
    alloc: Global,
    sites: &mut Vec<Kept>,
    parcels: &mut Vec<Parcel>,
    line: Line,
    out: &mut Vec<u8>,
) -> Result<(), Stop> {
    match line {
        Line::Send(site, to) => send(alloc, site_of(sites, site)?, to, parcels, out),
        Line::Take(site, number) => match parcels.get(number) {
            Some(parcel) => take(alloc, site_of(sites, site)?, parcel, out),
            None => Err(Stop::Wrong("no such parcel")),
        },
        Line::Frame(number) => match parcels.get(number) {
            Some(parcel) => frame(alloc, parcel, out),
            None => Err(Stop::Wrong("no such parcel")),
        },
        Line::Offer(name, bytes) => offer(alloc, name, bytes, out),
        _ => Err(Stop::Wrong("another call")),
    }
}

/// Makes a call at a site alone.
fn alone(alloc: Global, sites: &mut Vec<Kept>, line: Line, out: &mut Vec<u8>) -> Result<(), Stop> {
    match line {
        Line::Act(site, now, text) => {
            let request = request(alloc, text)?;
            act(alloc, site_of(sites, site)?, now, request, out)
        }
        Line::Store(site, name, count) => {
            let request = store(alloc, name, count)?;
            act(alloc, site_of(sites, site)?, 100, request, out)
        }
        Line::Remove(site) => remove(site_of(sites, site)?, out),
        Line::Evict(site, name) => evict(alloc, site_of(sites, site)?, name, out),
        Line::Tick(site, now) => {
            let told = tick(site_of(sites, site)?, now)?;
            tell(out, told, b"flushed")
        }
        Line::Reap(site, now, name) => reap(alloc, site_of(sites, site)?, now, name, out),
        Line::Juggle(site, class) => juggle(site_of(sites, site)?, class, out),
        Line::NewEra(site) => new_era(alloc, site_of(sites, site)?, out),
        _ => Err(Stop::Wrong("another call")),
    }
}

/// All that can be seen of a site, and its steps.
fn show_site(alloc: Global, kept: &Kept, out: &mut Vec<u8>) -> Result<(), AllocError> {
    let state = kept.site().state(alloc)?;
    push_state(out, &state)?;
    let versions = kept.site().versions(alloc)?;
    push_versions(out, versions.as_slice())?;
    push_number(out, kept.site().records() as u64)?;
    push_number(out, kept.site().items() as u64)?;
    push_number(out, kept.site().horizon())?;
    push_number(out, kept.era() as u64)?;
    push_number(out, kept.left(0))?;
    push_steps(out, kept.steps())
}

/// A number that changes with what a site knows and keeps.
fn glance_at(kept: &Kept) -> u64 {
    let site = kept.site();
    let parts = [
        site.records() as u64,
        site.items() as u64,
        site.horizon(),
        site.known().greatest(),
        site.floor().map_or(0, |stamp| stamp.cas()),
        kept.steps().len() as u64,
        kept.era() as u64,
    ];
    let mut sum = 0u64;
    for part in parts {
        sum = sum.wrapping_mul(1_000_003).wrapping_add(part);
    }
    sum
}

impl Sites {
    /// So many sites that know nothing, for these calls.
    pub fn new(
        rt: &impl RandomSource,
        alloc: Global,
        count: u8,
        lines: &'static [Line],
    ) -> Result<Sites, Stop> {
        let mut sites = Vec::new(alloc);
        for index in 0..count {
            match opened(rt, alloc, index.wrapping_add(1), count) {
                Some(kept) => sites.push(kept)?,
                None => return Err(Stop::Wrong("no site")),
            }
        }
        Ok(Sites {
            sites,
            parcels: Vec::new(alloc),
            lines,
        })
    }

    /// The parcel of a number, from 0.
    pub fn parcel(&self, number: usize) -> Option<&Parcel> {
        self.parcels.get(number)
    }

    /// Hands a parcel to the site that it names, as whoever reads its frame would.
    pub fn hand(&mut self, alloc: Global, parcel: Parcel) {
        if let Ok(kept) = site_of(&mut self.sites, parcel.to) {
            if kept.left(0) >= 2 {
                let _done = kept.take_for(alloc, 0, parcel);
            }
        }
    }
}

impl Scene for Sites {
    fn count(&self) -> usize {
        self.lines.len()
    }

    fn begin(&mut self, place: usize) -> Result<(), Stop> {
        match self.lines.get(place) {
            Some(Line::Act(site, now, _) | Line::Reap(site, now, _)) => {
                let _flushed = tick(site_of(&mut self.sites, *site)?, *now)?;
                Ok(())
            }
            _ => Ok(()),
        }
    }

    fn call<R: Wait + Clock>(
        &mut self,
        _rt: &R,
        alloc: Global,
        place: usize,
        out: &mut Vec<u8>,
    ) -> Result<(), Stop> {
        match self.lines.get(place) {
            None => Err(Stop::Wrong("no such call")),
            Some(line @ (Line::Send(..) | Line::Take(..) | Line::Frame(_) | Line::Offer(..))) => {
                exchange(alloc, &mut self.sites, &mut self.parcels, *line, out)
            }
            Some(line) => alone(alloc, &mut self.sites, *line, out),
        }
    }

    fn show<R: Wait>(
        &mut self,
        _rt: &R,
        alloc: Global,
        out: &mut Vec<u8>,
    ) -> Result<(), AllocError> {
        for kept in &self.sites {
            show_site(alloc, kept, out)?;
        }
        for parcel in &self.parcels {
            push_parcel(out, parcel)?;
        }
        Ok(())
    }

    fn glance(&self) -> u64 {
        let mut sum = 0u64;
        for kept in &self.sites {
            sum = sum.wrapping_mul(31).wrapping_add(glance_at(kept));
        }
        sum
    }
}
