//! Links by themselves: which parcels and bytes come, what ends a link, and that links go into threads.
ghost use Rattle.std.specs.Prelude.{◌≡◌, IfSome};

use geo_delta::Parcel;
use geo_frame::{FrameFault, Message, fits};
use geo_grammar::Device;
use geo_lattice::Items;
use geo_link::{Link, LinkError, MemoryLink, StreamLink, Tallied, memory_link};
use geo_stamp::{Retired, Vector};
use geo_tally::{Tally, TallySeat};
use geo_versions::{Digest, Key};
use std::alloc::{AllocError, Global};
use std::io::Read;
use std::net::TcpStream;
use std::sync::Wait;
use std::test::Fail;
use std::thread::Threads;
use std::{io, thread};

// The frames of two parcels between two sites, without records. Written out by hand, the SHA-256s by Python's hashlib.
const FORTH: [u8; 98] = [
    // the magic, the version, 98 bytes; a parcel
    0x47, 0x43, 0x44, 0x53, 0x02, 0x00, 0x00, 0x00, 0x62, 0x01,
    // from 1, to 2, of two sites
    0x01, 0x02, 0x02,
    // base
    0x00, 0x00, 0x00, 0x00, 0x00, 0x00, 0x00, 0x00, 0x00, 0x00, 0x00, 0x00, 0x00, 0x00, 0x00, 0x00,
    // upto
    0x00, 0x00, 0x00, 0x00, 0x00, 0x00, 0x00, 0x01, 0x00, 0x00, 0x00, 0x00, 0x00, 0x00, 0x00, 0x00,
    // no site has retired
    0x00, 0x00, 0x00, 0x00, 0x00, 0x00, 0x00, 0x00,
    // no floor, no records
    0x00, 0x00, 0x00, 0x00, 0x00, 0x00, 0x00, 0x00, 0x00, 0x00, 0x00, 0x00, 0x00,
    // the SHA-256 of all before
    0x7a, 0xe4, 0xb4, 0xc3, 0x00, 0xfb, 0x35, 0x5b, 0x4c, 0xf1, 0x62, 0xc0, 0x09, 0x3a, 0x38, 0x20,
    0x5b, 0x55, 0xed, 0xb9, 0x70, 0xd6, 0x82, 0xdb, 0xa7, 0xf5, 0xe6, 0xb4, 0x45, 0x8c, 0x5e, 0xfd,
];

/// From 2, to 1.
const BACK_DIGEST: [u8; 32] = [
    0x6b, 0xc8, 0xb2, 0x73, 0xf3, 0x8c, 0x4b, 0x95, 0x43, 0x75, 0xb2, 0xb3, 0x46, 0xdc, 0x30, 0x76,
    0xfb, 0xed, 0xce, 0x1e, 0xa7, 0x06, 0x5a, 0x32, 0xb4, 0x98, 0x63, 0x90, 0xed, 0xae, 0x90, 0xbe,
];

/// The frame forth as version 1 has it, whose SHA-256 it is: without the kind and without the retired sites.
const OLD_DIGEST: [u8; 32] = [
    0x42, 0x42, 0x3d, 0xae, 0xb4, 0x7b, 0x15, 0x69, 0xcd, 0x66, 0xf6, 0x3f, 0x68, 0xcf, 0x9c, 0xae,
    0xf7, 0x68, 0x3d, 0x4b, 0x51, 0xb5, 0x85, 0x49, 0x01, 0xe9, 0x22, 0xe2, 0x6e, 0x59, 0x43, 0xbf,
];

fn parcel(alloc: Global, from: u8, to: u8) -> Message {
    let mut upto = Vector::new(2);
    upto.raise(1, 1);
    Message::Parcel(Parcel {
        from,
        to,
        base: Vector::new(2),
        upto,
        retired: Retired::none(),
        floor: None,
        records: Items::of(Vec::new(alloc)),
    })
}

/// An ask of site 1, or the offer of site 2 that answers it.
fn fill(alloc: Global, offers: bool) -> Result<Message, Fail> {
    let key = Key::new(alloc, b"a")?.ok_or("no key")?;
    let digest = Digest::of(b"yo");
    if !offers {
        return Ok(Message::Ask {
            from: 1,
            to: 2,
            sites: 2,
            key,
            digest,
        });
    }
    Ok(Message::Offer {
        from: 2,
        to: 1,
        sites: 2,
        key,
        digest,
        bytes: Some(Vec::from_slice(alloc, b"yo")?),
    })
}

/// The frame forth, and then the one back.
fn both_frames(alloc: Global) -> Result<Vec<u8>, AllocError> {
    let mut frames = Vec::new(alloc);
    let parts: [&[u8]; 5] = [&FORTH, &FORTH[..10], &[2, 1], &FORTH[12..66], &BACK_DIGEST];
    for part in parts {
        frames.extend_from_slice(part)?;
    }
    Ok(frames)
}

/// The frame forth as version 1 has it.
fn old_frame(alloc: Global) -> Result<Vec<u8>, AllocError> {
    let mut frame = Vec::new(alloc);
    let parts: [&[u8]; 4] = [
        b"GCDS\x01\x00\x00\x00\x59",
        &FORTH[10..45],
        &FORTH[53..66],
        &OLD_DIGEST,
    ];
    for part in parts {
        frame.extend_from_slice(part)?;
    }
    Ok(frame)
}

/// A reader that gives one byte a call.
#[derive(Drop)]
struct Source<'a> {
    left: &'a [u8],
}

impl Read for Source<'_> {
    fn read(&mut self, buf: &mut [u8]) -> io::Result<usize> {
        let [byte, rest @ ..] = self.left else {
            return Ok(0);
        };
        if buf.is_empty() {
            return Ok(0);
        }
        buf[0] = *byte;
        self.left = rest;
        Ok(1)
    }
}

fn say(out: &mut Vec<u8>, why: LinkError) -> Result<(), AllocError> {
    let alloc = *out.allocator();
    out.extend_from_slice(format!(in alloc; "{why:?}; ")?.as_bytes())
}

/// Puts a message, and writes down what is answered.
fn put<L: Link, R: Wait>(
    rt: &R,
    alloc: Global,
    link: &mut L,
    message: Message,
    out: &mut Vec<u8>,
) -> Result<(), Fail> {
    if !fits(&message) {
        return Err(Fail::new("not within the ranges"));
    }
    match link.put(rt, alloc, message) {
        Ok(()) => Ok(out.extend_from_slice(b"put; ")?),
        Err(why) => Ok(say(out, why)?),
    }
}

/// What a message is, and from where to where it goes.
fn name(out: &mut Vec<u8>, message: &Message) -> Result<(), AllocError> {
    let alloc = *out.allocator();
    let (what, from, to) = match message {
        Message::Parcel(parcel) => ("to", parcel.from, parcel.to),
        Message::Ask { from, to, .. } => ("asks", *from, *to),
        Message::Offer { from, to, .. } => ("offers", *from, *to),
    };
    out.extend_from_slice(format!(in alloc; "{from} {what} {to}; ")?.as_bytes())
}

/// Gets a message, and writes down what it is.
fn get<L: Link, R: Wait>(
    rt: &R,
    alloc: Global,
    link: &mut L,
    out: &mut Vec<u8>,
) -> Result<(), AllocError> {
    match link.get(rt, alloc) {
        Ok(message) => name(out, &message),
        Err(why) => say(out, why),
    }
}

/// A link that reads these bytes.
fn link_over(alloc: Global, bytes: &[u8]) -> Result<StreamLink<&[u8], Vec<u8>>, AllocError> {
    let reader = Device::new(bytes);
    let writer = Device::new(Vec::new(alloc));
    StreamLink::new(alloc, reader, writer)
}

/// Puts two parcels and lets the link go.
fn put_two<R: Wait>(
    rt: &R,
    alloc: Global,
    mut here: MemoryLink,
    out: &mut Vec<u8>,
) -> Result<(), Fail> {
    put(rt, alloc, &mut here, parcel(alloc, 1, 2), out)?;
    put(rt, alloc, &mut here, parcel(alloc, 2, 1), out)
}

/// Gets two parcels, asks for a third, and puts one that nobody gets.
fn get_two<R: Wait>(
    rt: &R,
    alloc: Global,
    there: &mut MemoryLink,
    out: &mut Vec<u8>,
) -> Result<(), Fail> {
    get(rt, alloc, there, out)?;
    get(rt, alloc, there, out)?;
    get(rt, alloc, there, out)?;
    put(rt, alloc, there, parcel(alloc, 1, 2), out)
}

fn carried_in_memory<R: Wait>(rt: &R, alloc: Global) -> Result<Vec<u8>, Fail> {
    let mut out = Vec::new(alloc);
    let (here, mut there) = memory_link(alloc, 2)?;
    put_two(rt, alloc, here, &mut out)?;
    get_two(rt, alloc, &mut there, &mut out)?;
    Ok(out)
}

#[test]
fn memory_links_keep_the_order(rt: HostRuntime) -> Result<(), Fail> {
    let text = b"put; put; 1 to 2; 2 to 1; Closed; Closed; ".as_slice();
    assert_eq!(rt; carried_in_memory(&rt, rt.alloc())?.as_slice(), text);
    Ok(())
}

#[test]
fn memory_links_have_room_for_1_to_1024(rt: HostRuntime) {
    for room in [0, 1_025] {
        assert_eq!(rt;
            memory_link(rt.alloc(), room).err(),
            Some(LinkError::Closed)
        );
    }
    for room in [1, 1_024] {
        assert!(rt; memory_link(rt.alloc(), room).is_ok());
    }
}

/// What comes of both frames, byte by byte, and of a put behind them.
fn dribbled<R: Wait>(
    rt: &R,
    alloc: Global,
    frames: &[u8],
    out: &mut Vec<u8>,
) -> Result<Vec<u8>, Fail> {
    let reader = Device::new(Source { left: frames });
    let writer = Device::new(Vec::new(alloc));
    let mut link = StreamLink::new(alloc, reader, writer)?;
    get(rt, alloc, &mut link, out)?;
    get(rt, alloc, &mut link, out)?;
    get(rt, alloc, &mut link, out)?;
    put(rt, alloc, &mut link, parcel(alloc, 1, 2), out)?;
    Ok(link.into_writer().into_inner())
}

/// What comes byte by byte, and whether the frame forth is written.
fn carried_by_bytes<R: Wait>(rt: &R, alloc: Global) -> Result<Vec<u8>, Fail> {
    let mut out = Vec::new(alloc);
    let frames = both_frames(alloc)?;
    let written = dribbled(rt, alloc, frames.as_slice(), &mut out)?;
    if written.as_slice() == FORTH.as_slice() {
        out.extend_from_slice(b"the frame forth")?;
    }
    Ok(out)
}

#[test]
fn frames_come_byte_by_byte(rt: HostRuntime) -> Result<(), Fail> {
    let text = b"1 to 2; 2 to 1; Closed; put; the frame forth".as_slice();
    assert_eq!(rt; carried_by_bytes(&rt, rt.alloc())?.as_slice(), text);
    Ok(())
}

/// What comes of bad bytes, behind them, and of a put then, and how many bytes are written.
fn got_of<R: Wait>(rt: &R, alloc: Global, bytes: &[u8]) -> Result<Vec<u8>, Fail> {
    let mut out = Vec::new(alloc);
    let mut link = link_over(alloc, bytes)?;
    get(rt, alloc, &mut link, &mut out)?;
    get(rt, alloc, &mut link, &mut out)?;
    put(rt, alloc, &mut link, parcel(alloc, 1, 2), &mut out)?;
    let count = link.into_writer().into_inner().len();
    out.extend_from_slice(format!(in alloc; "{count}")?.as_bytes())?;
    Ok(out)
}

/// What comes of a frame of version 1.
fn got_of_old<R: Wait>(rt: &R, alloc: Global) -> Result<Vec<u8>, Fail> {
    let mut out = Vec::new(alloc);
    let frame = old_frame(alloc)?;
    let mut link = link_over(alloc, frame.as_slice())?;
    get(rt, alloc, &mut link, &mut out)?;
    get(rt, alloc, &mut link, &mut out)?;
    Ok(out)
}

#[test]
fn frames_of_version_1_come(rt: HostRuntime) -> Result<(), Fail> {
    let text = b"1 to 2; Closed; ".as_slice();
    assert_eq!(rt; got_of_old(&rt, rt.alloc())?.as_slice(), text);
    Ok(())
}

/// An ask forth and an offer back over a link in memory, and what is answered at an end that is closed, and at the other.
fn filled<R: Wait>(rt: &R, alloc: Global) -> Result<Vec<u8>, Fail> {
    let mut out = Vec::new(alloc);
    let (mut here, mut there) = memory_link(alloc, 2)?;
    put(rt, alloc, &mut here, fill(alloc, false)?, &mut out)?;
    get(rt, alloc, &mut there, &mut out)?;
    put(rt, alloc, &mut there, fill(alloc, true)?, &mut out)?;
    get(rt, alloc, &mut here, &mut out)?;
    put(rt, alloc, &mut there, fill(alloc, true)?, &mut out)?;
    here.close();
    get(rt, alloc, &mut here, &mut out)?;
    put(rt, alloc, &mut here, fill(alloc, false)?, &mut out)?;
    put(rt, alloc, &mut there, fill(alloc, true)?, &mut out)?;
    Ok(out)
}

#[test]
fn memory_links_carry_fills_until_they_are_closed(rt: HostRuntime) -> Result<(), Fail> {
    let text = b"put; 1 asks 2; put; 2 offers 1; put; Closed; Closed; put; ".as_slice();
    assert_eq!(rt; filled(&rt, rt.alloc())?.as_slice(), text);
    Ok(())
}

/// What is answered by a link over bytes before it is closed and then, and how many bytes are written.
fn closed_over_bytes<R: Wait>(rt: &R, alloc: Global) -> Result<Vec<u8>, Fail> {
    let mut out = Vec::new(alloc);
    let frames = both_frames(alloc)?;
    let mut link = link_over(alloc, frames.as_slice())?;
    get(rt, alloc, &mut link, &mut out)?;
    put(rt, alloc, &mut link, fill(alloc, false)?, &mut out)?;
    link.close();
    get(rt, alloc, &mut link, &mut out)?;
    put(rt, alloc, &mut link, fill(alloc, true)?, &mut out)?;
    let count = link.into_writer().into_inner().len();
    out.extend_from_slice(format!(in alloc; "{count}")?.as_bytes())?;
    Ok(out)
}

#[test]
fn a_closed_link_reads_and_writes_nothing(rt: HostRuntime) -> Result<(), Fail> {
    let text = b"1 to 2; put; Closed; Closed; 79".as_slice();
    assert_eq!(rt; closed_over_bytes(&rt, rt.alloc())?.as_slice(), text);
    Ok(())
}

const BAD_MAGIC: &[u8] = b"GCDT\x01\x00\x00\x00\x59";

#[test]
fn bad_bytes_end_a_link(rt: HostRuntime) -> Result<(), Fail> {
    let magic = b"Frame(Magic); Closed; Closed; 0".as_slice();
    assert_eq!(rt; got_of(&rt, rt.alloc(), BAD_MAGIC)?.as_slice(), magic);
    let short = b"Frame(Short); Closed; Closed; 0".as_slice();
    assert_eq!(rt; got_of(&rt, rt.alloc(), &FORTH[..50])?.as_slice(), short);
    Ok(())
}

/// Why nothing is got.
fn get_error<L: Link, R: Wait>(
    rt: &R,
    alloc: Global,
    link: &mut Tallied<'_, L>,
) -> Option<LinkError>
    ensures { link.new.seat.tally ≡ link.old.seat.tally }
{
    link.get(rt, alloc).err()
}

/// The seat after a bad frame and a get behind it, if they are refused as such.
fn seat_after<R: Wait>(rt: &R, tally: &Tally, seat: TallySeat, alloc: Global) -> Option<TallySeat>
    requires { seat.tally ≡ tally.now.tally }
    ensures { IfSome result (λ s. s.tally ≡ tally.now.tally) }
{
    let bytes = link_over(alloc, BAD_MAGIC).ok()?;
    let mut link = Tallied::new(bytes, tally, seat);
    let first = get_error(rt, alloc, &mut link);
    let second = get_error(rt, alloc, &mut link);
    let (_bytes, seat) = link.into_parts();
    let magic = LinkError::Frame(FrameFault::Magic);
    if first != Some(magic) || second != Some(LinkError::Closed) {
        return None;
    }
    Some(seat)
}

/// The sums of a tally of one seat that counts what is refused.
fn counted<R: Wait>(rt: &R, alloc: Global) -> Option<[u64; 5]> {
    let (tally, mut seats) = Tally::new(alloc, 1).ok()?;
    let seat = seats.pop()?;
    let seat = seat_after(rt, &tally, seat, alloc)?;
    seats.push(seat).ok()?;
    tally.close(seats).ok()
}

#[test]
fn refused_frames_are_counted(rt: HostRuntime) {
    assert_eq!(rt; counted(&rt, rt.alloc()), Some([0, 0, 0, 0, 1]));
}

/// What is answered where three parcels are put.
fn put_three<R: Wait>(rt: &R, alloc: Global, mut link: MemoryLink) -> Result<Vec<u8>, Fail> {
    let mut out = Vec::new(alloc);
    for _each in 0..3 {
        put(rt, alloc, &mut link, parcel(alloc, 1, 2), &mut out)?;
    }
    Ok(out)
}

/// What is answered where three are got.
fn get_three<R: Wait>(rt: &R, alloc: Global, mut link: MemoryLink) -> Result<Vec<u8>, AllocError> {
    let mut out = Vec::new(alloc);
    for _each in 0..3 {
        get(rt, alloc, &mut link, &mut out)?;
    }
    Ok(out)
}

/// What one thread puts and another gets.
fn by_threads<R: Threads + Wait + Sync>(rt: &R, alloc: Global) -> Result<Vec<u8>, Fail> {
    let (here, there) = memory_link(alloc, 1)?;
    let (put, got) = thread::join(
        rt,
        move || put_three(rt, alloc, here),
        move || get_three(rt, alloc, there),
    );
    let mut out = put?;
    out.extend_from_slice(got?.as_slice())?;
    Ok(out)
}

#[test]
fn one_thread_puts_what_another_gets(rt: HostRuntime) -> Result<(), Fail> {
    let text = b"put; put; put; 1 to 2; 1 to 2; 1 to 2; ".as_slice();
    assert_eq!(rt; by_threads(&rt, rt.alloc())?.as_slice(), text);
    Ok(())
}

fn is_send<T: Send>(_value: &T) {}

/// A link over a socket goes into a thread.
fn sends_sockets(link: &StreamLink<TcpStream, TcpStream>, tallied: &Tallied<'static, MemoryLink>) {
    is_send(link);
    is_send(tallied);
}
