//! Writing a frame.
ghost use Rattle.std.specs.Prelude.{◌≡◌, ◌↔◌, ◌<◌, ◌≤◌, ◌++◌, length, OnOk, IfOk, Err};
ghost use Rattle.sha2.specs.Sha256.{sha256};
ghost use Rattle.geo_frame.specs.Payloads.{PayloadInRange, payload_of};
ghost use Rattle.geo_frame.specs.Spelling.{frame_of, longest_frame};
ghost use Rattle.geo_frame.specs.declared.fault.EncodeFault.TheVariants.{TooLong};

use crate::fault::EncodeFault;
use crate::length::frame_length;
use crate::message::Message;
use crate::push::{push_fields, push_head};
use geo_versions::Digest;
use std::alloc::{AllocError, Global};

/// The SHA-256 of all that stands there.
fn push_digest(out: &mut Vec<u8>) -> Result<(), AllocError>
    ensures { OnOk result (out.new.items ≡ out.old.items ++ sha256 out.old.items) }
{
    let digest = Digest::of(out.as_slice());
    out.extend_from_slice(digest.bytes().as_slice())
}

/// The frame of so many bytes.
fn written(alloc: Global, message: &Message, size: usize) -> Result<Vec<u8>, AllocError>
    requires range { PayloadInRange (payload_of message.now) }
    requires size { size ≡ length (frame_of (payload_of message.now)) }
    requires most { size ≤ longest_frame }
    ensures { IfOk result (λ out. out.items ≡ frame_of (payload_of message.now)) }
{
    let mut out = Vec::with_capacity(alloc, size)?;
    push_head(&mut out, size as u32)?;
    push_fields(&mut out, message)?;
    push_digest(&mut out)?;
    Ok(out)
}

/// The frame of a message, in version 2. Memory is asked for once, for the whole frame.
pub fn encode(alloc: Global, message: &Message) -> Result<Vec<u8>, EncodeFault>
    requires { PayloadInRange (payload_of message.now) }
    ensures frame { IfOk result (λ out. out.items ≡ frame_of (payload_of message.now)) }
    ensures too_long { (result ≡ Err TooLong) ↔ (longest_frame < length (frame_of (payload_of message.now))) }
{
    let Some(size) = frame_length(message) else {
        return Err(EncodeFault::TooLong);
    };
    Ok(written(alloc, message, size)?)
}
