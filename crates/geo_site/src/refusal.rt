//! Why a call is refused.
ghost use Rattle.std.specs.Prelude.{◌≡◌};
ghost use Rattle.geo_site.specs.declared.refusal.WriteError.TheVariants.{Memory};

use std::alloc::AllocError;
use thiserror::Error;

/// Why there is no site, tested in this order.
#[derive(Clone, Copy, Debug, PartialEq, Eq, Error)]
pub enum SetupError {
    /// The number of sites is not 1 to 16.
    #[error("the number of sites is not 1 to 16")]
    Sites,
    /// The site's number is not 1 to the number of sites.
    #[error("the site's number is none of the sites'")]
    SiteNumber,
    /// There are fewer than 15 pages, one for each slab class.
    #[error("fewer than 15 pages")]
    TooFewPages,
    /// There are more than 65,536 pages.
    #[error("more than 65536 pages")]
    TooManyPages,
    /// The most records are not 1 to 1,000,000.
    #[error("the most records are not 1 to 1000000")]
    Records,
    /// Memory was wanted.
    #[error("memory was refused")]
    Memory,
}

/// Why there is no parcel, tested in this order.
#[derive(Clone, Copy, Debug, PartialEq, Eq, Error)]
pub enum SendError {
    /// The number is the sender's own, or of no site that is configured.
    #[error("there is no such other site")]
    NoSuchSite,
    /// The other site is held for gone for good.
    #[error("the other site is retired")]
    Retired,
    /// Memory was wanted.
    #[error("memory was refused")]
    Memory,
}

/// Why a site is not held for gone for good.
#[derive(Clone, Copy, Debug, PartialEq, Eq, Error)]
pub enum RetireError {
    /// The number is the site's own, or of no site that is configured.
    #[error("there is no such other site")]
    NoSuchSite,
    /// Memory was wanted, which a site alone never does.
    #[error("memory was refused")]
    Memory,
}

/// Why a parcel was not taken, tested in this order.
#[derive(Clone, Copy, Debug, PartialEq, Eq, Error)]
pub enum TakeError {
    /// It is for another site.
    #[error("the parcel is for another site")]
    NotForMe,
    /// Its sender is this site or not configured, it speaks of another number of sites or holds one for retired that is not configured,
    /// or it has a stamp that its `upto` does not know.
    #[error("the parcel is not of these sites")]
    UnknownSite,
    /// Its sender is held for gone for good.
    #[error("the parcel is from a retired site")]
    Retired,
    /// It tells only what is newer than something that this site does not know yet.
    #[error("the parcel leaves out what is not known yet")]
    Gap,
    /// Memory was wanted.
    #[error("memory was refused")]
    Memory,
}

/// Why a key was not deleted at its end.
#[derive(Clone, Copy, Debug, PartialEq, Eq, Error)]
pub enum ReapError {
    /// No stamp is left.
    #[error("the clock has ended")]
    ClockEnded,
    /// Memory was wanted.
    #[error("memory was refused")]
    Memory,
}

/// Why a key is not written, tested in this order.
#[derive(Clone, Copy, Debug, PartialEq, Eq, Error)]
pub enum WriteError {
    /// The site has as many records as it may, and none of this key.
    #[error("the version map is full")]
    MapFull,
    /// No stamp is left.
    #[error("the clock has ended")]
    ClockEnded,
    /// Memory was wanted.
    #[error("memory was refused")]
    Memory,
}

impl From<AllocError> for WriteError {
    ghost from_gives = { λ _ why. why ≡ Memory };

    fn from(_error: AllocError) -> WriteError {
        WriteError::Memory
    }
}
