//! From where to where a message goes, read.
ghost use Rattle.std.specs.Prelude.{◌≤◌, IfOk};
ghost use Rattle.geo_frame.specs.Reading.{Reads, sites_at};

use crate::bytes::Bytes;
use crate::fault::FrameFault;
use crate::ranges::sites_fit;

/// From which site to which a message goes, and of how many.
#[derive(Clone, Copy)]
pub(crate) struct Route {
    pub(crate) from: u8,
    pub(crate) to: u8,
    pub(crate) sites: u8,
}

/// A route.
#[tactic(auto, unfolding(crate::specs::Reading::sites_at))]
pub(crate) fn take_route(bytes: &mut Bytes) -> Result<Route, FrameFault>
    ensures read { Reads (λ x. x) result bytes.new.left.now (sites_at bytes.old.left.now) }
    ensures most { IfOk result (λ x. x.sites ≤ 16) }
{
    let from = bytes.take_u8()?;
    let to = bytes.take_u8()?;
    let sites = bytes.take_u8()?;
    if !sites_fit(from, to, sites as usize) {
        return Err(FrameFault::Field);
    }
    Ok(Route { from, to, sites })
}
