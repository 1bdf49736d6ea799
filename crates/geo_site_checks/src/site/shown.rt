//! What lines append.
use geo_delta::Parcel;
use geo_grammar::push_answer;
use geo_requests::Request;
use geo_site::{Acted, Refused, Site, TakeError, Taken};
use geo_stamp::{Retired, Vector};
use geo_versions::{Digest, Version};
use std::alloc::{AllocError, Global};

pub fn push(out: &mut Vec<u8>, text: &str) -> Result<(), AllocError> {
    out.extend_from_slice(text.as_bytes())
}

/// A number, behind a space where something stands before it.
pub fn push_count(alloc: Global, out: &mut Vec<u8>, count: u64) -> Result<(), AllocError> {
    if !out.is_empty() {
        out.push(b' ')?;
    }
    let text = format!(in alloc; "{count}")?;
    push(out, text.as_str())
}

/// A digest in hexadecimal digits.
fn push_digest(out: &mut Vec<u8>, digest: &Digest) -> Result<(), AllocError> {
    let digits = b"0123456789abcdef";
    for byte in digest.bytes() {
        out.push(digits[(*byte / 16) as usize])?;
        out.push(digits[(*byte % 16) as usize])?;
    }
    Ok(())
}

/// What a vector knows of the sites 1 to 3.
fn push_vector(alloc: Global, out: &mut Vec<u8>, vector: &Vector) -> Result<(), AllocError> {
    push(out, " |")?;
    for site in [1, 2, 3] {
        push_count(alloc, out, vector.entry(site))?;
    }
    Ok(())
}

/// The text of a reply and those of its copies, and then the victim, and the length and digest of what was made.
pub fn push_acted(
    alloc: Global,
    out: &mut Vec<u8>,
    request: &Request,
    acted: &Acted,
) -> Result<(), AllocError> {
    push_answer(out, request, &acted.reply)?;
    if let Some((one, two)) = &acted.copies {
        push_answer(out, request, one)?;
        push_answer(out, request, two)?;
    }
    if let Some(victim) = &acted.victim {
        push(out, "victim ")?;
        out.extend_from_slice(victim.bytes())?;
    }
    if let Some((digest, length)) = &acted.made {
        push(out, "made")?;
        push_count(alloc, out, *length as u64)?;
        push(out, " ")?;
        push_digest(out, digest)?;
    }
    Ok(())
}

/// The stamp and the digest of a version.
pub fn push_version(
    alloc: Global,
    out: &mut Vec<u8>,
    version: Option<Version>,
) -> Result<(), AllocError> {
    let Some(version) = version else {
        return push(out, "none");
    };
    push_count(alloc, out, version.stamp.time())?;
    push_count(alloc, out, version.stamp.site() as u64)?;
    push(out, " ")?;
    push_digest(out, &version.digest)
}

/// How many values a site holds, how many records and versions it has, and what it knows.
pub fn push_site(alloc: Global, site: &Site, out: &mut Vec<u8>) -> Result<(), AllocError> {
    push_count(alloc, out, site.items() as u64)?;
    push_count(alloc, out, site.records() as u64)?;
    push_count(alloc, out, site.versions(alloc)?.len() as u64)?;
    push_vector(alloc, out, site.known())
}

/// The sites of a set, where there are any.
fn push_retired(alloc: Global, out: &mut Vec<u8>, retired: &Retired) -> Result<(), AllocError> {
    for site in 1..17 {
        if retired.has(site) {
            push(out, " without")?;
            push_count(alloc, out, site as u64)?;
        }
    }
    Ok(())
}

/// From whom to whom a parcel goes, how many records it has, the key of the first, its base, what it knows, and who is retired.
pub fn push_parcel(alloc: Global, out: &mut Vec<u8>, parcel: &Parcel) -> Result<(), AllocError> {
    push_count(alloc, out, parcel.from as u64)?;
    push_count(alloc, out, parcel.to as u64)?;
    let records = parcel.records.as_slice();
    push_count(alloc, out, records.len() as u64)?;
    if let Some((key, _)) = records.first() {
        push(out, " ")?;
        out.extend_from_slice(key.bytes())?;
    }
    push_vector(alloc, out, &parcel.base)?;
    push_vector(alloc, out, &parcel.upto)?;
    push_retired(alloc, out, &parcel.retired)
}

/// How many values were dropped, and whether the site's vector rose.
pub fn push_taken(alloc: Global, out: &mut Vec<u8>, taken: &Taken) -> Result<(), AllocError> {
    push_count(alloc, out, taken.dropped as u64)?;
    push(out, if taken.rose { " rose" } else { " known" })
}

/// The sender of a parcel that is handed back, and why it is.
pub fn push_refused(alloc: Global, out: &mut Vec<u8>, refused: &Refused) -> Result<(), AllocError> {
    push_count(alloc, out, refused.parcel.from as u64)?;
    push(
        out,
        match refused.why {
            TakeError::NotForMe => " not for me",
            TakeError::UnknownSite => " unknown site",
            TakeError::Retired => " retired",
            TakeError::Gap => " gap",
            TakeError::Memory => " no memory",
        },
    )
}
