//! The head of a frame, and its SHA-256.
ghost use Rattle.std.specs.Prelude.{◌≡◌, ◌<◌, ◌≤◌, length, IfOk, MatchOption};
ghost use Rattle.geo_frame.specs.Reading.{Says, shortest_frame, length_field, size_in, fields_sized, fields_in};

use crate::fault::FrameFault;
use crate::limits::{
    DIGEST, HEAD, LONGEST_FRAME, MAGIC, OLD_VERSION, SHORTEST_FRAME, SHORTEST_OLD_FRAME, VERSION,
};
use geo_versions::Digest;

/// How many bytes the frame has that begins with these, by its length field: None until there are nine.
pub fn wanted(bytes: &[u8]) -> Option<usize>
    ensures { MatchOption result (length bytes.now < 9) (λ n. (9 ≤ length bytes.now) × (n ≡ length_field bytes.now)) }
{
    let (_, rest) = bytes.split_first_chunk::<5>()?;
    let (field, _) = rest.split_first_chunk::<4>()?;
    Some(u32::from_be_bytes(*field) as usize)
}

/// The fewest bytes of a frame of this version.
fn shortest(version: u8) -> usize
    ensures { result ≡ shortest_frame version }
{
    if version == OLD_VERSION {
        SHORTEST_OLD_FRAME
    } else {
        SHORTEST_FRAME
    }
}

/// How many bytes the frame has, where its head is good.
#[tactic(auto, unfolding(crate::specs::Reading::size_in))]
fn size_of(bytes: &[u8]) -> Result<usize, FrameFault>
    ensures size { Says (λ n. n) result (size_in bytes.now) }
    ensures least { IfOk result (λ n. 41 ≤ n) }
    ensures long { IfOk result (λ _. 9 ≤ length bytes.now) }
{
    let Some(size) = wanted(bytes) else {
        return Err(FrameFault::Short);
    };
    if &bytes[..4] != MAGIC.as_slice() {
        return Err(FrameFault::Magic);
    }
    if bytes[4] != OLD_VERSION && bytes[4] != VERSION {
        return Err(FrameFault::Version);
    }
    if size < shortest(bytes[4]) || size > LONGEST_FRAME {
        return Err(FrameFault::Field);
    }
    Ok(size)
}

/// The fields of a frame of so many bytes, where its SHA-256 is theirs.
#[tactic(auto, unfolding(crate::specs::Reading::fields_sized))]
fn fields_of_size(bytes: &[u8], size: usize) -> Result<&[u8], FrameFault>
    requires { 41 ≤ size }
    ensures { Says (λ x. x.now) result (fields_sized bytes.now size) }
{
    if bytes.len() < size {
        return Err(FrameFault::Short);
    }
    if bytes.len() > size {
        return Err(FrameFault::Trailing);
    }
    let (content, digest) = bytes.split_at(size - DIGEST);
    if Digest::of(content).bytes().as_slice() != digest {
        return Err(FrameFault::Damaged);
    }
    Ok(&content[HEAD..])
}

/// The fields of a frame whose head and SHA-256 are good.
#[tactic(auto, unfolding(crate::specs::Reading::fields_in))]
pub(crate) fn fields_of(bytes: &[u8]) -> Result<&[u8], FrameFault>
    ensures fields { Says (λ x. x.now) result (fields_in bytes.now) }
    ensures long { IfOk result (λ _. 9 ≤ length bytes.now) }
{
    let size = size_of(bytes)?;
    fields_of_size(bytes, size)
}
