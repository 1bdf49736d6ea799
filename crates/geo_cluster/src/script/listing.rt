//! The list of what a site knows.
ghost use Rattle.std.specs.Prelude.{◌≡◌, ◌++◌, List, codes, decimal, IfOk, OnOk};
ghost use Rattle.std.specs.List.{flat_map};
ghost use Rattle.geo_cluster.specs.Prints.{stamp_text, floor_text, hex_byte, hex_text, value_text, expiry_text, version_text, versions_text};

use crate::script::escape::{hex_letter, push_all_escaped};
use geo_stamp::Stamp;
use geo_versions::{Key, Version};
use itoa::Buffer;
use std::alloc::{AllocError, Global};

fn push_number(out: &mut Vec<u8>, number: u64) -> Result<(), AllocError>
    ensures { OnOk result (out.new.items ≡ out.old.items ++ decimal number) }
{
    let mut buffer = Buffer::new();
    out.extend_from_slice(buffer.format(number).as_bytes())
}

fn push_space(out: &mut Vec<u8>) -> Result<(), AllocError>
    ensures { OnOk result (out.new.items ≡ out.old.items ++ codes " ") }
{
    out.extend_from_slice(b" ")
}

/// A stamp by its time and its site.
fn push_stamp(out: &mut Vec<u8>, stamp: Stamp) -> Result<(), AllocError>
    ensures { OnOk result (out.new.items ≡ out.old.items ++ stamp_text stamp) }
{
    push_number(out, stamp.time())?;
    push_space(out)?;
    push_number(out, stamp.site() as u64)
}

fn push_floor(out: &mut Vec<u8>, floor: Option<Stamp>) -> Result<(), AllocError>
    ensures { OnOk result (out.new.items ≡ out.old.items ++ floor_text floor) }
{
    let Some(stamp) = floor else {
        return out.extend_from_slice(b"floor none\n");
    };
    out.extend_from_slice(b"floor ")?;
    push_stamp(out, stamp)?;
    out.extend_from_slice(b"\n")
}

/// Bytes by two lower-case digits each.
fn push_hex(out: &mut Vec<u8>, bytes: &[u8]) -> Result<(), AllocError>
    ensures { OnOk result (out.new.items ≡ out.old.items ++ hex_text bytes.now) }
{
    for byte in bytes {
        out.push(hex_letter(byte / 16))?;
        out.push(hex_letter(byte % 16))?;
    }
    Ok(())
}

/// The stamp, flags, length and digest of a value.
fn push_value(out: &mut Vec<u8>, version: &Version) -> Result<(), AllocError>
    ensures { OnOk result (out.new.items ≡ out.old.items ++ value_text version.now) }
{
    push_stamp(out, version.stamp)?;
    push_space(out)?;
    push_number(out, version.flags as u64)?;
    push_space(out)?;
    push_number(out, version.length as u64)?;
    push_space(out)?;
    push_hex(out, version.digest.bytes())
}

/// The expiry, behind the stamp of what set it.
fn push_expiry(out: &mut Vec<u8>, version: &Version) -> Result<(), AllocError>
    ensures { OnOk result (out.new.items ≡ out.old.items ++ expiry_text version.now) }
{
    push_stamp(out, version.expiry_stamp)?;
    push_space(out)?;
    push_number(out, version.expiry)
}

fn push_version(out: &mut Vec<u8>, entry: &(Key, Version)) -> Result<(), AllocError>
    ensures { OnOk result (out.new.items ≡ out.old.items ++ version_text entry.now) }
{
    let (key, version) = entry;
    push_all_escaped(out, key.bytes())?;
    push_space(out)?;
    push_value(out, version)?;
    push_space(out)?;
    push_expiry(out, version)?;
    out.extend_from_slice(b"\n")
}

fn push_all(out: &mut Vec<u8>, all: &[(Key, Version)]) -> Result<(), AllocError>
    ensures { OnOk result (out.new.items ≡ out.old.items ++ flat_map version_text all.now) }
{
    for entry in all {
        push_version(out, entry)?;
    }
    Ok(())
}

/// `floor` and the greatest stamp of a flush, or `none`, then a line for each key with its version, and `end`.
pub fn versions_lines(
    alloc: Global,
    floor: Option<Stamp>,
    all: &[(Key, Version)],
) -> Result<Vec<u8>, AllocError>
    ensures { IfOk result (λ text. text.items ≡ versions_text floor all.now) }
{
    let mut text = Vec::new(alloc);
    push_floor(&mut text, floor)?;
    push_all(&mut text, all)?;
    text.extend_from_slice(b"end\n")?;
    Ok(text)
}
