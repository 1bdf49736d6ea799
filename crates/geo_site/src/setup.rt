//! What a site is made of.
ghost use Rattle.std.specs.Prelude.{◌≡◌};

use std::hash::RandomState;

/// The greatest moment, in seconds.
pub const LAST_MOMENT: u64 = 1 << 40;

/// The most records that a site may be told to keep at most.
pub const MOST_RECORDS: u32 = 1_000_000;

/// What a site is told at its start.
#[derive(Drop)]
pub struct Setup {
    /// Its number, from 1 to the number of sites.
    pub site: u8,
    /// How many sites there are, 1 to 16.
    pub sites: u8,
    /// How many pages of a mebibyte it has for values, 15 to 65,536.
    pub pages: u32,
    /// How many records its map may have before local operations on new keys are refused, 1 to 1,000,000.
    pub max_records: u32,
    /// How many seconds after its end a write of its own is kept, until it is deleted for all sites.
    pub reap_after: u32,
    /// How its maps hash their keys, which strangers choose.
    pub hasher: RandomState,
}

impl Setup {
    /// An equal setup. It takes no memory.
    pub fn copied(&self) -> Setup
        ensures { result ≡ self.now }
    {
        Setup {
            site: self.site,
            sites: self.sites,
            pages: self.pages,
            max_records: self.max_records,
            reap_after: self.reap_after,
            hasher: self.hasher,
        }
    }
}

/// What a site goes by, as it was told at its start.
#[derive(Clone, Copy, Debug, PartialEq, Eq)]
pub struct Limits {
    /// How many records its map may have before local operations on new keys are refused.
    pub max_records: u32,
    /// How many seconds after its end a write of its own is kept.
    pub reap_after: u32,
}
