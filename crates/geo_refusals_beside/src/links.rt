//! Links, and the parcels that they carry.
use geo_delta::Parcel;
use geo_fixtures::setup_of;
use geo_frame::{Message, fits};
use geo_lattice::Twin;
use geo_link::{Link, LinkError, MemoryLink, StreamLink, memory_link};
use geo_requests::Reply;
use geo_scenes::shown::push_parcel;
use geo_scenes::texts::{request, word};
use geo_scenes::{Fused, Scene, Stop};
use geo_site::Site;
use std::alloc::{AllocError, Global};
use std::random::RandomSource;
use std::rt::Clock;
use std::sync::Wait;

/// A call at the ends of a link.
#[derive(Clone, Copy)]
pub enum Line {
    /// Both ends of a link, with room for so many parcels.
    Open(usize),
    /// The first end puts the parcel of this number.
    Put(usize),
    /// The second end gets a parcel.
    Get,
    /// The second end puts one.
    PutBack(usize),
    /// The first end gets one.
    GetBack,
    /// The first end is let go.
    Drop,
}

/// Parcels go both ways in order, and what waits when an end is let go can still be got.
pub const MEMORY: &[Line] = &[
    Line::Open(0),
    Line::Open(1_025),
    Line::Open(2),
    Line::Put(0),
    Line::PutBack(1),
    Line::Put(1),
    Line::Get,
    Line::GetBack,
    Line::Put(2),
    Line::Drop,
    Line::Get,
    Line::Get,
    Line::Get,
    Line::PutBack(0),
];

/// One link over bytes: two frames come, and then the end, and two are put.
pub const STREAM: &[Line] = &[
    Line::Open(1),
    Line::GetBack,
    Line::Put(2),
    Line::GetBack,
    Line::Put(0),
    Line::GetBack,
    Line::Drop,
];

/// Has a site carry out a request.
fn carried(alloc: Global, site: &mut Site, text: &[u8]) -> Result<(), Stop> {
    let request = request(alloc, text)?;
    match site.act(alloc, 100, &request) {
        Reply::OutOfMemory => Err(Stop::Memory),
        _ => Ok(()),
    }
}

/// What a site tells another, behind each of these requests.
fn parcels_of(
    alloc: Global,
    site: &mut Site,
    to: u8,
    texts: &[&'static [u8]],
) -> Result<Vec<Parcel>, Stop> {
    let mut parcels = Vec::new(alloc);
    for text in texts {
        carried(alloc, site, text)?;
        match site.send(alloc, to) {
            Ok(parcel) => parcels.push(parcel)?,
            Err(_) => return Err(Stop::Wrong("no parcel")),
        }
    }
    Ok(parcels)
}

/// The site of this number, of so many.
fn site_of<R: RandomSource>(rt: &R, alloc: Global, number: u8, sites: u8) -> Result<Site, Stop> {
    let Some(setup) = setup_of(rt, number, sites) else {
        return Err(Stop::Wrong("no setup"));
    };
    match Site::new(alloc, setup) {
        Ok(site) => Ok(site),
        Err(_) => Err(Stop::Wrong("no site")),
    }
}

/// Three parcels, of one record, of two and of three.
fn three_parcels<R: RandomSource>(rt: &R, alloc: Global) -> Result<Vec<Parcel>, Stop> {
    let mut site = site_of(rt, alloc, 1, 2)?;
    let texts: [&'static [u8]; 3] = [
        b"set a 0 0 2\r\nhi\r\n",
        b"set b_whose_name_is_too_long_to_stand_in_place 0 0 0\r\n\r\n",
        b"set c 0 9 1\r\nx\r\n",
    ];
    parcels_of(alloc, &mut site, 2, texts.as_slice())
}

/// Puts a copy of a parcel on a link.
fn put<L: Link, R: Wait>(
    rt: &R,
    alloc: Global,
    link: &mut L,
    parcel: &Parcel,
    out: &mut Vec<u8>,
) -> Result<(), Stop> {
    let copy = Message::Parcel(parcel.twin(alloc)?);
    if !fits(&copy) {
        return Err(Stop::Wrong("a parcel out of range"));
    }
    match link.put(rt, alloc, copy) {
        Ok(()) => Ok(out.extend_from_slice(b"put")?),
        Err(why) => say(why, out),
    }
}

/// Gets a parcel, for which there is room among those that came.
fn get<L: Link, R: Wait>(
    rt: &R,
    alloc: Global,
    link: &mut L,
    got: &mut Vec<Parcel>,
    out: &mut Vec<u8>,
) -> Result<(), Stop> {
    got.reserve(1)?;
    match link.get(rt, alloc) {
        Ok(Message::Parcel(parcel)) => {
            word(out, b"records ", parcel.records.as_slice().len() as u64)?;
            got.push(parcel)?;
            Ok(())
        }
        Ok(_) => Err(Stop::Wrong("another message than a parcel")),
        Err(why) => say(why, out),
    }
}

/// Tells why nothing was carried, unless memory was wanted.
fn say(why: LinkError, out: &mut Vec<u8>) -> Result<(), Stop> {
    let told: &[u8] = match why {
        LinkError::Memory => return Err(Stop::Memory),
        LinkError::Closed => b"closed",
        LinkError::Frame(_) => return Err(Stop::Wrong("a frame is refused")),
        LinkError::Io => return Err(Stop::Wrong("a device failed")),
        LinkError::TooLong => return Err(Stop::Wrong("a frame too long")),
    };
    Ok(out.extend_from_slice(told)?)
}

fn parcel_at(parcels: &Vec<Parcel>, number: usize) -> Result<&Parcel, Stop> {
    match parcels.get(number) {
        Some(parcel) => Ok(parcel),
        None => Err(Stop::Wrong("no such parcel")),
    }
}

/// Writes the parcels that came.
fn push_parcels(parcels: &Vec<Parcel>, out: &mut Vec<u8>) -> Result<(), AllocError> {
    for parcel in parcels {
        push_parcel(out, parcel)?;
    }
    Ok(())
}

/// Both ends of a link in memory.
#[derive(Drop)]
pub struct Ends {
    first: Option<MemoryLink>,
    second: Option<MemoryLink>,
    parcels: Vec<Parcel>,
    got: Vec<Parcel>,
}

impl Ends {
    /// No link yet.
    pub fn new<R: RandomSource>(rt: &R, alloc: Global) -> Result<Ends, Stop> {
        Ok(Ends {
            first: None,
            second: None,
            parcels: three_parcels(rt, alloc)?,
            got: Vec::new(alloc),
        })
    }

    fn open(&mut self, alloc: Global, room: usize, out: &mut Vec<u8>) -> Result<(), Stop> {
        match memory_link(alloc, room) {
            Ok((first, second)) => {
                self.first = Some(first);
                self.second = Some(second);
                Ok(out.extend_from_slice(b"open")?)
            }
            Err(why) => say(why, out),
        }
    }

    fn put<R: Wait>(
        &mut self,
        rt: &R,
        alloc: Global,
        number: usize,
        out: &mut Vec<u8>,
    ) -> Result<(), Stop> {
        match &mut self.first {
            Some(link) => put(rt, alloc, link, parcel_at(&self.parcels, number)?, out),
            None => Err(Stop::Wrong("no link")),
        }
    }

    fn put_back<R: Wait>(
        &mut self,
        rt: &R,
        alloc: Global,
        number: usize,
        out: &mut Vec<u8>,
    ) -> Result<(), Stop> {
        match &mut self.second {
            Some(link) => put(rt, alloc, link, parcel_at(&self.parcels, number)?, out),
            None => Err(Stop::Wrong("no link")),
        }
    }

    fn get<R: Wait>(&mut self, rt: &R, alloc: Global, out: &mut Vec<u8>) -> Result<(), Stop> {
        match &mut self.second {
            Some(link) => get(rt, alloc, link, &mut self.got, out),
            None => Err(Stop::Wrong("no link")),
        }
    }

    fn get_back<R: Wait>(&mut self, rt: &R, alloc: Global, out: &mut Vec<u8>) -> Result<(), Stop> {
        match &mut self.first {
            Some(link) => get(rt, alloc, link, &mut self.got, out),
            None => Err(Stop::Wrong("no link")),
        }
    }
}

impl Scene for Ends {
    fn count(&self) -> usize {
        MEMORY.len()
    }

    fn begin(&mut self, _place: usize) -> Result<(), Stop> {
        Ok(())
    }

    fn call<R: Wait + Clock>(
        &mut self,
        rt: &R,
        alloc: Global,
        place: usize,
        out: &mut Vec<u8>,
    ) -> Result<(), Stop> {
        match MEMORY.get(place).copied() {
            Some(Line::Open(room)) => self.open(alloc, room, out),
            Some(Line::Put(number)) => self.put(rt, alloc, number, out),
            Some(Line::PutBack(number)) => self.put_back(rt, alloc, number, out),
            Some(Line::Get) => self.get(rt, alloc, out),
            Some(Line::GetBack) => self.get_back(rt, alloc, out),
            Some(Line::Drop) => {
                self.first = None;
                Ok(())
            }
            None => Err(Stop::Wrong("no such call")),
        }
    }

    fn show<R: Wait>(
        &mut self,
        _rt: &R,
        _alloc: Global,
        out: &mut Vec<u8>,
    ) -> Result<(), AllocError> {
        push_parcels(&self.got, out)
    }

    fn glance(&self) -> u64 {
        let is_open = self.first.is_some() as u64;
        is_open.wrapping_add(self.got.len() as u64)
    }
}

/// A link over bytes that come and bytes that go.
#[derive(Drop)]
pub struct Wire {
    link: Option<StreamLink<Fused, Fused>>,
    parcels: Vec<Parcel>,
    got: Vec<Parcel>,
    /// The frames that come, and those that went once the link is let go.
    coming: Vec<u8>,
    gone: Vec<u8>,
}

/// So many bytes go at most.
const ROOM: usize = 4096;

/// The frames of parcels, as a link puts them.
fn frames_of<R: Wait>(rt: &R, alloc: Global, parcels: &[Parcel]) -> Result<Vec<u8>, Stop> {
    let reader = Fused::reader(alloc, b"", ROOM)?;
    let writer = Fused::writer(alloc, ROOM, ROOM)?;
    let mut link = StreamLink::new(alloc, reader, writer)?;
    let mut told = Vec::new(alloc);
    for parcel in parcels {
        put(rt, alloc, &mut link, parcel, &mut told)?;
    }
    Ok(Vec::from_slice(alloc, link.into_writer().into_inner().bytes())?)
}

impl Wire {
    /// No link yet, but the frames that will come.
    pub fn new<R: RandomSource + Wait>(rt: &R, alloc: Global) -> Result<Wire, Stop> {
        let parcels = three_parcels(rt, alloc)?;
        let (coming, _) = parcels.as_slice().split_at(parcels.len().min(2));
        let coming = frames_of(rt, alloc, coming)?;
        Ok(Wire {
            link: None,
            parcels,
            got: Vec::new(alloc),
            coming,
            gone: Vec::with_capacity(alloc, ROOM)?,
        })
    }

    fn open(&mut self, alloc: Global, out: &mut Vec<u8>) -> Result<(), Stop> {
        let reader = Fused::reader(alloc, self.coming.as_slice(), ROOM)?;
        let writer = Fused::writer(alloc, ROOM, ROOM)?;
        self.link = Some(StreamLink::new(alloc, reader, writer)?);
        Ok(out.extend_from_slice(b"open")?)
    }

    /// Lets the link go, and tells how many bytes it wrote.
    fn let_go(&mut self, out: &mut Vec<u8>) -> Result<(), Stop> {
        let Some(link) = self.link.take() else {
            return Err(Stop::Wrong("no link"));
        };
        let writer = link.into_writer().into_inner();
        self.gone.extend_from_slice(writer.bytes())?;
        Ok(word(out, b"bytes ", self.gone.len() as u64)?)
    }

    /// Makes a call at the link.
    fn by_link<R: Wait>(
        &mut self,
        rt: &R,
        alloc: Global,
        line: Line,
        out: &mut Vec<u8>,
    ) -> Result<(), Stop> {
        let Some(link) = &mut self.link else {
            return Err(Stop::Wrong("no link"));
        };
        match line {
            Line::Put(number) => put(rt, alloc, link, parcel_at(&self.parcels, number)?, out),
            Line::GetBack => get(rt, alloc, link, &mut self.got, out),
            _ => Err(Stop::Wrong("another call")),
        }
    }
}

impl Scene for Wire {
    fn count(&self) -> usize {
        STREAM.len()
    }

    fn begin(&mut self, _place: usize) -> Result<(), Stop> {
        Ok(())
    }

    fn call<R: Wait + Clock>(
        &mut self,
        rt: &R,
        alloc: Global,
        place: usize,
        out: &mut Vec<u8>,
    ) -> Result<(), Stop> {
        match STREAM.get(place).copied() {
            Some(Line::Open(_)) => self.open(alloc, out),
            Some(Line::Drop) => self.let_go(out),
            Some(line) => self.by_link(rt, alloc, line, out),
            None => Err(Stop::Wrong("no such call")),
        }
    }

    fn show<R: Wait>(
        &mut self,
        _rt: &R,
        _alloc: Global,
        out: &mut Vec<u8>,
    ) -> Result<(), AllocError> {
        push_parcels(&self.got, out)?;
        out.extend_from_slice(self.gone.as_slice())
    }

    fn glance(&self) -> u64 {
        let is_open = self.link.is_some() as u64;
        is_open.wrapping_add(self.got.len() as u64)
    }
}
