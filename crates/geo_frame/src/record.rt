//! Records, read.
ghost use Rattle.std.specs.Prelude.{◌≡◌, ◌≤◌, [], IfErr, IsOk};
ghost use Rattle.geo_frame.specs.declared.fault.FrameFault.TheVariants.{Memory};
ghost use Rattle.geo_frame.specs.Reading.{Fetches, Gives, key_at, first_key_at, record_at, last_key, records_at, all_records};

use crate::body::take_rec;
use crate::bytes::Bytes;
use crate::fault::FrameFault;
use crate::key::take_key;
use geo_versions::{Key, Rec};
use std::alloc::Global;

type Record = (Key, Rec);

/// A record whose key is greater than `before`.
#[tactic(auto, unfolding(crate::specs::Reading::record_at))]
fn take_record(
    alloc: Global,
    bytes: &mut Bytes,
    sites: u8,
    before: &[u8],
) -> Result<Record, FrameFault>
    ensures read { Fetches (λ x. x) result bytes.new.left.now (record_at sites before.now bytes.old.left.now) }
    ensures memory { IfErr result (λ e. e ≡ Memory → IsOk (key_at before.now bytes.old.left.now)) }
{
    let key = take_key(alloc, bytes, before)?;
    let rec = take_rec(bytes, sites)?;
    Ok((key, rec))
}

/// The last key, no bytes where there is none.
fn last_of(records: &[Record]) -> &[u8]
    ensures { result.now ≡ last_key records.now }
{
    match records {
        [] => &[],
        [.., (key, _)] => key.bytes(),
    }
}

/// So many records.
fn take_records(
    alloc: Global,
    bytes: &mut Bytes,
    sites: u8,
    count: u32,
) -> Result<Vec<Record>, FrameFault>
    ensures read { Fetches (λ x. x.items) result bytes.new.left.now (records_at sites count [] bytes.old.left.now) }
    ensures memory { IfErr result (λ e. e ≡ Memory → (1 ≤ count) × IsOk (key_at [] bytes.old.left.now)) }
{
    let mut records: Vec<Record> = Vec::new(alloc);
    for _ in 0..count {
        let record = take_record(alloc, bytes, sites, last_of(records.as_slice()))?;
        records.push(record)?;
    }
    Ok(records)
}

/// The records that stand behind their number: all that is left.
#[tactic(auto, unfolding(crate::specs::Reading::all_records, crate::specs::Reading::first_key_at))]
pub(crate) fn take_all(
    alloc: Global,
    bytes: &mut Bytes,
    sites: u8,
) -> Result<Vec<Record>, FrameFault>
    ensures read { Gives (λ v. v.items) result (all_records sites bytes.old.left.now) }
    ensures memory { IfErr result (λ e. e ≡ Memory → IsOk (first_key_at bytes.old.left.now)) }
{
    let count = bytes.take_u32()?;
    let records = take_records(alloc, bytes, sites, count)?;
    if !bytes.left.is_empty() {
        return Err(FrameFault::Field);
    }
    Ok(records)
}
