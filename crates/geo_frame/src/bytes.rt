//! The bytes of a frame, read from the front.
ghost use Rattle.std.specs.Prelude.{◌≡◌, ◌≤◌, IfOk, MatchOption, true, false};
ghost use Rattle.geo_delta.specs.Ranges.{stamp_fits};
ghost use Rattle.geo_frame.specs.Reading.{Reads, moment, part_at, byte_at, four_at, eight_at, stamp_at, floor_at, time_at, set_at, retired_at};

use crate::fault::FrameFault;
use crate::limits::{DIGEST, OLD_VERSION};
use geo_stamp::{LAST_TIME, Retired, Stamp};
use geo_versions::Digest;

/// What is left to be read. Behind a fault nothing more is to be read.
#[derive(Drop)]
pub(crate) struct Bytes<'a> {
    pub(crate) left: &'a [u8],
}

/// The stamp of this time and site, where it is one of so many sites.
#[tactic(auto, unfolding(geo_delta::specs::Ranges::stamp_fits))]
fn stamp_within(time: u64, site: u8, sites: u8) -> Option<Stamp>
    ensures { MatchOption result (stamp_fits sites (moment time site) ≡ false) (λ s. (stamp_fits sites (moment time site) ≡ true)
        × (s ≡ moment time site)) }
{
    if site > sites {
        return None;
    }
    Stamp::new(time, site)
}

impl<'a> Bytes<'a> {
    /// So many bytes.
    #[tactic(auto, unfolding(crate::specs::Reading::part_at))]
    pub(crate) fn take(&mut self, length: usize) -> Result<&'a [u8], FrameFault>
        ensures { Reads (λ x. x.now) result self.new.left.now (part_at length self.old.left.now) }
    {
        if self.left.len() < length {
            return Err(FrameFault::Field);
        }
        let (front, rest) = self.left.split_at(length);
        self.left = rest;
        Ok(front)
    }

    /// One byte.
    #[tactic(auto, unfolding(crate::specs::Reading::byte_at))]
    pub(crate) fn take_u8(&mut self) -> Result<u8, FrameFault>
        ensures { Reads (λ x. x) result self.new.left.now (byte_at self.old.left.now) }
    {
        match self.left {
            [] => Err(FrameFault::Field),
            [byte, rest @ ..] => {
                self.left = rest;
                Ok(*byte)
            }
        }
    }

    /// A number of four bytes.
    #[tactic(auto, unfolding(crate::specs::Reading::four_at, crate::specs::Reading::part_at))]
    pub(crate) fn take_u32(&mut self) -> Result<u32, FrameFault>
        ensures { Reads (λ x. x) result self.new.left.now (four_at self.old.left.now) }
    {
        let Some((front, rest)) = self.left.split_first_chunk::<4>() else {
            return Err(FrameFault::Field);
        };
        self.left = rest;
        Ok(u32::from_be_bytes(*front))
    }

    /// A number of eight bytes.
    #[tactic(auto, unfolding(crate::specs::Reading::eight_at, crate::specs::Reading::part_at))]
    pub(crate) fn take_u64(&mut self) -> Result<u64, FrameFault>
        ensures { Reads (λ x. x) result self.new.left.now (eight_at self.old.left.now) }
    {
        let Some((front, rest)) = self.left.split_first_chunk::<8>() else {
            return Err(FrameFault::Field);
        };
        self.left = rest;
        Ok(u64::from_be_bytes(*front))
    }

    /// A digest.
    #[tactic(auto, unfolding(crate::specs::Reading::part_at))]
    pub(crate) fn take_digest(&mut self) -> Result<Digest, FrameFault>
        ensures { Reads (λ x. x) result self.new.left.now (part_at 32 self.old.left.now) }
    {
        let Some((front, rest)) = self.left.split_first_chunk::<DIGEST>() else {
            return Err(FrameFault::Field);
        };
        self.left = rest;
        Ok(Digest::new(*front))
    }

    /// A stamp of one of so many sites.
    #[tactic(auto, unfolding(crate::specs::Reading::stamp_at))]
    pub(crate) fn take_stamp(&mut self, sites: u8) -> Result<Stamp, FrameFault>
        ensures { Reads (λ x. x) result self.new.left.now (stamp_at sites self.old.left.now) }
    {
        let time = self.take_u64()?;
        let site = self.take_u8()?;
        match stamp_within(time, site, sites) {
            Some(stamp) => Ok(stamp),
            None => Err(FrameFault::Field),
        }
    }

    /// A floor: none where both numbers are 0.
    #[tactic(auto, unfolding(crate::specs::Reading::floor_at))]
    pub(crate) fn take_floor(&mut self, sites: u8) -> Result<Option<Stamp>, FrameFault>
        ensures { Reads (λ x. x) result self.new.left.now (floor_at sites self.old.left.now) }
    {
        let time = self.take_u64()?;
        let site = self.take_u8()?;
        if time == 0 && site == 0 {
            return Ok(None);
        }
        match stamp_within(time, site, sites) {
            Some(stamp) => Ok(Some(stamp)),
            None => Err(FrameFault::Field),
        }
    }

    /// A time of a vector.
    #[tactic(auto, unfolding(crate::specs::Reading::time_at))]
    pub(crate) fn take_time(&mut self) -> Result<u64, FrameFault>
        ensures read { Reads (λ x. x) result self.new.left.now (time_at self.old.left.now) }
        ensures range { IfOk result (λ time. time ≤ LAST_TIME) }
    {
        let time = self.take_u64()?;
        if time > LAST_TIME {
            return Err(FrameFault::Field);
        }
        Ok(time)
    }

    /// A set of so many sites, each a bit.
    #[tactic(auto, unfolding(crate::specs::Reading::set_at))]
    fn take_set(&mut self, sites: u8) -> Result<Retired, FrameFault>
        requires { sites ≤ 16 }
        ensures { Reads (λ x. x) result self.new.left.now (set_at sites self.old.left.now) }
    {
        let bits = self.take_u64()?;
        if bits >= 1 << sites {
            return Err(FrameFault::Field);
        }
        Ok(Retired::of_bits(bits))
    }

    /// The sites that have retired, of so many, which version 1 doesn't tell.
    #[tactic(auto, unfolding(crate::specs::Reading::retired_at))]
    pub(crate) fn take_retired(&mut self, version: u8, sites: u8) -> Result<Retired, FrameFault>
        requires { sites ≤ 16 }
        ensures { Reads (λ x. x) result self.new.left.now (retired_at version sites self.old.left.now) }
    {
        if version == OLD_VERSION {
            return Ok(Retired::none());
        }
        self.take_set(sites)
    }
}
