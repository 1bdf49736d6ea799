//! Frames of the worked example, and of the smallest change of it that each fault tells.
use super::show::{frame, push_message};
use geo_delta::Parcel;
use geo_frame::{FrameFault, Message, decode, wanted};
use geo_lattice::{Items, Lww, Pair};
use geo_stamp::{Retired, Stamp, Vector};
use geo_versions::{Body, Digest, Key, Length, Rec};
use std::alloc::{AllocError, Global};
use std::test::Fail;

mod second;
mod table;

use table::EXAMPLE;

/// Bytes of an example from one place up to another, and bytes behind them.
type Part = (usize, usize, &'static [u8]);

fn record() -> Result<Rec, Fail> {
    let stamp = Stamp::new(1, 1).ok_or("no stamp")?;
    let body = Body::Value {
        digest: Digest::of(b""),
        flags: 5,
        length: Length::of(0),
    };
    Ok(Pair {
        left: Lww::of(stamp, body),
        right: Lww::of(stamp, 0),
    })
}

/// The example's record, or none.
fn records(alloc: Global, count: usize) -> Result<Vec<(Key, Rec)>, Fail> {
    let mut records = Vec::new(alloc);
    for _ in 0..count {
        let key = Key::new(alloc, b"e")?.ok_or("no key")?;
        records.push((key, record()?))?;
    }
    Ok(records)
}

fn parcel(records: Vec<(Key, Rec)>, retired: Retired) -> Parcel {
    let mut upto = Vector::new(2);
    upto.raise(1, 1);
    Parcel {
        from: 1,
        to: 2,
        base: Vector::new(2),
        upto,
        retired,
        floor: None,
        records: Items::of(records),
    }
}

/// The bytes of the example's frame with its record, or without one.
fn written(alloc: Global, count: usize) -> Result<Vec<u8>, Fail> {
    let parcel = parcel(records(alloc, count)?, Retired::none());
    frame(alloc, &Message::Parcel(parcel))
}

/// The bytes of the frame without a record that tells that the second site has retired.
fn written_retired(alloc: Global) -> Result<Vec<u8>, Fail> {
    let mut retired = Retired::none();
    retired.add(2);
    let parcel = parcel(records(alloc, 0)?, retired);
    frame(alloc, &Message::Parcel(parcel))
}

/// The bytes of the ask's frame.
fn asked(alloc: Global) -> Result<Vec<u8>, Fail> {
    let ask = Message::Ask {
        from: 1,
        to: 2,
        sites: 2,
        key: Key::new(alloc, b"a")?.ok_or("no key")?,
        digest: Digest::of(b"yo"),
    };
    frame(alloc, &ask)
}

/// The bytes of the frame of an offer of these bytes, or of none.
fn offered(alloc: Global, bytes: Option<Vec<u8>>) -> Result<Vec<u8>, Fail> {
    let offer = Message::Offer {
        from: 2,
        to: 1,
        sites: 2,
        key: Key::new(alloc, b"a")?.ok_or("no key")?,
        digest: Digest::of(b"yo"),
        bytes,
    };
    frame(alloc, &offer)
}

/// A frame of these parts of an example.
fn joined(alloc: Global, example: &[u8], parts: &[Part]) -> Result<Vec<u8>, AllocError> {
    let mut frame = Vec::new(alloc);
    for (from, to, behind) in parts {
        frame.extend_from_slice(example.get(*from..*to).unwrap_or(b""))?;
        frame.extend_from_slice(behind)?;
    }
    Ok(frame)
}

fn fault_name(fault: FrameFault) -> &'static [u8] {
    match fault {
        FrameFault::Short => b"Short",
        FrameFault::Magic => b"Magic",
        FrameFault::Version => b"Version",
        FrameFault::Field => b"Field",
        FrameFault::Order => b"Order",
        FrameFault::Damaged => b"Damaged",
        FrameFault::Trailing => b"Trailing",
        FrameFault::Memory => b"Memory",
    }
}

/// The message of a frame, whose own frame this is, unless it is of version 1; or the fault.
fn push_frame(out: &mut Vec<u8>, alloc: Global, bytes: &[u8]) -> Result<(), Fail> {
    let message = match decode(alloc, bytes) {
        Ok(message) => message,
        Err(fault) => return Ok(out.extend_from_slice(fault_name(fault))?),
    };
    push_message(out, &message, &Digest::of(b"yo"))?;
    let is_old = bytes.get(4) == Some(&1);
    if !is_old && frame(alloc, &message)?.as_slice() != bytes {
        out.extend_from_slice(b" has another frame")?;
    }
    Ok(())
}

/// What the bytes of these parts of an example tell.
fn told(alloc: Global, example: &[u8], parts: &[Part]) -> Result<Vec<u8>, Fail> {
    let bytes = joined(alloc, example, parts)?;
    let mut out = Vec::new(alloc);
    push_frame(&mut out, alloc, bytes.as_slice())?;
    Ok(out)
}

/// What these parts of an example tell with their SHA-256 behind them.
fn told_sealed(alloc: Global, example: &[u8], parts: &[Part]) -> Result<Vec<u8>, Fail> {
    let mut bytes = joined(alloc, example, parts)?;
    let digest = Digest::of(bytes.as_slice());
    bytes.extend_from_slice(digest.bytes().as_slice())?;
    let mut out = Vec::new(alloc);
    push_frame(&mut out, alloc, bytes.as_slice())?;
    Ok(out)
}

/// How long the first beginning of an example is that is not short.
fn first_not_short(alloc: Global, example: &[u8]) -> usize {
    for length in 0..example.len() {
        let Err(FrameFault::Short) = decode(alloc, &example[..length]) else {
            return length;
        };
    }
    example.len()
}

#[test]
fn tells_the_parcel_or_the_fault(rt: HostRuntime) -> Result<(), Fail> {
    for (parts, parcel) in table::FRAMES {
        assert_eq!(rt; told(rt.alloc(), &EXAMPLE, parts)?.as_slice(), *parcel);
    }
    Ok(())
}

#[test]
fn tells_the_first_fault_of_the_fields(rt: HostRuntime) -> Result<(), Fail> {
    for (parts, fault) in table::SEALED {
        assert_eq!(rt;
            told_sealed(rt.alloc(), &EXAMPLE, parts)?.as_slice(),
            *fault
        );
    }
    Ok(())
}

#[test]
fn tells_the_message_of_version_2(rt: HostRuntime) -> Result<(), Fail> {
    let alloc = rt.alloc();
    for (parts, message) in second::PARCELS {
        assert_eq!(rt; told(alloc, &second::EXAMPLE, parts)?.as_slice(), *message);
    }
    for (parts, message) in second::ASKS {
        assert_eq!(rt; told(alloc, &second::ASK, parts)?.as_slice(), *message);
    }
    for (parts, message) in second::OFFERS {
        assert_eq!(rt; told(alloc, &second::OFFER, parts)?.as_slice(), *message);
    }
    Ok(())
}

#[test]
fn tells_the_first_fault_of_the_fields_of_version_2(rt: HostRuntime) -> Result<(), Fail> {
    let alloc = rt.alloc();
    for (parts, fault) in second::SEALED_PARCELS {
        assert_eq!(rt;
            told_sealed(alloc, &second::EXAMPLE, parts)?.as_slice(),
            *fault
        );
    }
    for (parts, fault) in second::SEALED_ASKS {
        assert_eq!(rt; told_sealed(alloc, &second::ASK, parts)?.as_slice(), *fault);
    }
    for (parts, fault) in second::SEALED_OFFERS {
        assert_eq!(rt;
            told_sealed(alloc, &second::OFFER, parts)?.as_slice(),
            *fault
        );
    }
    Ok(())
}

#[test]
fn each_beginning_is_short(rt: HostRuntime) {
    assert_eq!(rt; first_not_short(rt.alloc(), &EXAMPLE), 159);
    assert_eq!(rt; first_not_short(rt.alloc(), &second::EXAMPLE), 168);
    assert_eq!(rt; first_not_short(rt.alloc(), &second::ASK), 79);
}

#[test]
fn writes_the_bytes_of_the_examples(rt: HostRuntime) -> Result<(), Fail> {
    let alloc = rt.alloc();
    assert_eq!(rt; written(alloc, 1)?.as_slice(), second::EXAMPLE.as_slice());
    assert_eq!(rt;
        written(alloc, 0)?.as_slice(),
        joined(alloc, &second::EXAMPLE, second::EMPTY)?.as_slice()
    );
    assert_eq!(rt;
        written_retired(alloc)?.as_slice(),
        joined(alloc, &second::EXAMPLE, second::RETIRED)?.as_slice()
    );
    assert_eq!(rt; asked(alloc)?.as_slice(), second::ASK.as_slice());
    let yo = Vec::from_slice(alloc, b"yo")?;
    assert_eq!(rt;
        offered(alloc, Some(yo))?.as_slice(),
        second::OFFER.as_slice()
    );
    assert_eq!(rt;
        offered(alloc, None)?.as_slice(),
        joined(alloc, &second::OFFER, second::NONE)?.as_slice()
    );
    Ok(())
}

#[test]
fn wants_what_the_length_says(rt: HostRuntime) {
    assert_eq!(rt;
        (wanted(&EXAMPLE[..8]), wanted(&EXAMPLE[..9])),
        (None, Some(159))
    );
    assert_eq!(rt; wanted(&second::ASK[..9]), Some(79));
    assert_eq!(rt; (FrameFault::Short as u8, FrameFault::Memory as u8), (1, 8));
}
