//! What the tests of several crates begin with.
#![tactic(auto)]

ghost use Rattle.std.specs.Prelude.{IfSome};
ghost use Rattle.geo_history.specs.Stories.{IsNew};

use geo_history::Kept;
use geo_site::Setup;
use std::alloc::Global;
use std::hash::RandomState;
use std::random::RandomSource;

/// What one site of so many is told at its start. It has one page a class, room for 1,000 records, and keeps what ended for sixty
/// seconds.
pub fn setup_of(rt: &impl RandomSource, site: u8, sites: u8) -> Option<Setup> {
    Some(Setup {
        site,
        sites,
        pages: 15,
        max_records: 1000,
        reap_after: 60,
        hasher: RandomState::new(rt).ok()?,
    })
}

/// One site of so many, which knows nothing.
pub fn opened(rt: &impl RandomSource, alloc: Global, site: u8, sites: u8) -> Option<Kept>
    ensures { IfSome result IsNew }
{
    let setup = setup_of(rt, site, sites)?;
    Kept::new(alloc, setup).ok()
}
