//! Messages as texts.
use geo_delta::Parcel;
use geo_frame::{Message, encode, fits};
use geo_stamp::{Retired, Stamp, Vector};
use geo_versions::{Body, Digest, Key, Rec};
use std::alloc::{AllocError, Global};
use std::test::Fail;

/// The bytes of a message's frame.
pub fn frame(alloc: Global, message: &Message) -> Result<Vec<u8>, Fail> {
    if !fits(message) {
        return Err(Fail::new("not within the ranges"));
    }
    Ok(encode(alloc, message)?)
}

/// A number and what stands behind it.
pub fn push_number(out: &mut Vec<u8>, number: u64, behind: &[u8]) -> Result<(), AllocError> {
    let alloc = *out.allocator();
    out.extend_from_slice(format!(in alloc; "{number}")?.as_bytes())?;
    out.extend_from_slice(behind)
}

fn push_stamp(out: &mut Vec<u8>, stamp: &Stamp) -> Result<(), AllocError> {
    push_number(out, stamp.time(), b".")?;
    push_number(out, stamp.site() as u64, b" ")
}

/// Whether a value is that of no bytes, its flags and its length.
fn push_body(out: &mut Vec<u8>, body: &Body) -> Result<(), AllocError> {
    let Body::Value {
        digest,
        flags,
        length,
    } = body
    else {
        return out.extend_from_slice(b"gone ");
    };
    let empty = *digest == Digest::of(b"");
    out.extend_from_slice(if empty { b"empty " } else { b"some " })?;
    push_number(out, *flags as u64, b" ")?;
    push_number(out, length.get() as u64, b" ")
}

fn push_record(out: &mut Vec<u8>, key: &Key, rec: &Rec) -> Result<(), AllocError> {
    out.extend_from_slice(b" ")?;
    out.extend_from_slice(key.bytes())?;
    out.extend_from_slice(b" ")?;
    if let Some((stamp, body)) = rec.left.get() {
        push_stamp(out, stamp)?;
        push_body(out, body)?;
    }
    out.extend_from_slice(b"until ")?;
    if let Some((stamp, expiry)) = rec.right.get() {
        push_stamp(out, stamp)?;
        push_number(out, *expiry, b"")?;
    }
    out.extend_from_slice(b";")
}

fn push_clocks(out: &mut Vec<u8>, vector: &Vector, behind: &[u8]) -> Result<(), AllocError> {
    push_number(out, vector.entry(1), b" ")?;
    push_number(out, vector.entry(2), behind)
}

/// The sites that have retired, if any.
fn push_retired(out: &mut Vec<u8>, retired: &Retired) -> Result<(), AllocError> {
    for site in 1..17 {
        if retired.has(site) {
            out.extend_from_slice(b" without ")?;
            push_number(out, site as u64, b"")?;
        }
    }
    Ok(())
}

/// A parcel of two sites: from which to which, what the one knows and the other is taken to know, who has retired, a floor, and the
/// records.
pub fn push_parcel(out: &mut Vec<u8>, parcel: &Parcel) -> Result<(), AllocError> {
    push_number(out, parcel.from as u64, b" to ")?;
    push_number(out, parcel.to as u64, b", ")?;
    push_clocks(out, &parcel.base, b" up to ")?;
    push_clocks(out, &parcel.upto, b"")?;
    push_retired(out, &parcel.retired)?;
    out.extend_from_slice(if parcel.floor.is_some() {
        b" with a floor:"
    } else {
        b":"
    })?;
    for (key, rec) in parcel.records.as_slice() {
        push_record(out, key, rec)?;
    }
    Ok(())
}

/// From which site to which, of how many, and for which key.
fn push_wanted(
    out: &mut Vec<u8>,
    from: u8,
    to: u8,
    sites: u8,
    key: &Key,
) -> Result<(), AllocError> {
    push_number(out, from as u64, b" to ")?;
    push_number(out, to as u64, b" of ")?;
    push_number(out, sites as u64, b" for ")?;
    out.extend_from_slice(key.bytes())
}

/// A message: a parcel of two sites, an ask, or an offer and its bytes. `digest` is that of what is asked for or offered.
pub fn push_message(
    out: &mut Vec<u8>,
    message: &Message,
    digest: &Digest,
) -> Result<(), AllocError> {
    let named = match message {
        Message::Parcel(parcel) => return push_parcel(out, parcel),
        Message::Ask {
            from,
            to,
            sites,
            key,
            digest,
        } => {
            out.extend_from_slice(b"ask ")?;
            push_wanted(out, *from, *to, *sites, key)?;
            digest
        }
        Message::Offer {
            from,
            to,
            sites,
            key,
            digest,
            bytes,
        } => {
            out.extend_from_slice(b"offer ")?;
            push_wanted(out, *from, *to, *sites, key)?;
            push_offered(out, bytes)?;
            digest
        }
    };
    out.extend_from_slice(if named == digest {
        b""
    } else {
        b" by another digest"
    })
}

fn push_offered(out: &mut Vec<u8>, bytes: &Option<Vec<u8>>) -> Result<(), AllocError> {
    match bytes {
        None => out.extend_from_slice(b": none"),
        Some(bytes) => {
            out.extend_from_slice(b": ")?;
            out.extend_from_slice(bytes.as_slice())
        }
    }
}
