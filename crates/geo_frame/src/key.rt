//! Keys, read.
ghost use Rattle.std.specs.Prelude.{◌≡◌, true, IfOk, IfErr, IsOk};
ghost use Rattle.geo_records.specs.Keys.{is_key};
ghost use Rattle.geo_frame.specs.declared.fault.FrameFault.TheVariants.{Memory};
ghost use Rattle.geo_frame.specs.Reading.{Reads, Fetches, key_at};

use crate::bytes::Bytes;
use crate::fault::FrameFault;
use geo_versions::Key;
use std::alloc::Global;

/// The bytes of a key that is greater than the one before it.
#[tactic(auto, unfolding(crate::specs::Reading::key_at))]
pub(crate) fn take_text<'a>(bytes: &mut Bytes<'a>, before: &[u8]) -> Result<&'a [u8], FrameFault>
    ensures read { Reads (λ x. x.now) result bytes.new.left.now (key_at before.now bytes.old.left.now) }
    ensures key { IfOk result (λ x. is_key x.now ≡ true) }
{
    let length = bytes.take_u8()?;
    let text = bytes.take(length as usize)?;
    if !Key::is_valid(text) {
        return Err(FrameFault::Field);
    }
    if !before.cmp(text).is_lt() {
        return Err(FrameFault::Order);
    }
    Ok(text)
}

/// A key that is greater than the one before it.
pub(crate) fn take_key(alloc: Global, bytes: &mut Bytes, before: &[u8]) -> Result<Key, FrameFault>
    ensures read { Fetches (λ x. x) result bytes.new.left.now (key_at before.now bytes.old.left.now) }
    ensures memory { IfErr result (λ e. e ≡ Memory → IsOk (key_at before.now bytes.old.left.now)) }
{
    let text = take_text(bytes, before)?;
    Ok(Key::of(alloc, text)?)
}
