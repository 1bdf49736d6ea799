//! The sites in the order of their numbers.
ghost use Rattle.std.specs.Prelude.{◌≡◌, ◌↔◌, IfErr, IfOk, IsErr, IsTrue, IsPermutation};
ghost use Rattle.geo_config.specs.Lawful.{AreNumbered, CanBeNumbered, IsInRange, IsLawful};

use crate::fault::ConfigFault;
use crate::settings::{Config, SiteConfig};

/// A configuration with its sites in the order of their numbers, if these are 1 to the number of sites, each once.
pub fn sorted(mut config: Config) -> Result<Config, ConfigFault>
    requires { IsInRange config }
    ensures lawful { IfOk result IsLawful }
    ensures fault { IfErr result (λ e. e ≡ ConfigFault.Numbers) }
    ensures refused { IsErr result → ¬ CanBeNumbered config.sites.items }
    ensures same_sites { IfOk result (λ c. IsPermutation config.sites.items c.sites.items) }
    ensures others { IfOk result (λ c. c ≡ record config { sites = c.sites }) }
{
    config.sites.sort_unstable_by_key(|site| site.number);
    if !are_numbered(config.sites.as_slice()) {
        return Err(ConfigFault::Numbers);
    }
    Ok(config)
}

/// Whether site `k` stands at index `k - 1`, for each of the sites.
fn are_numbered(sites: &[SiteConfig]) -> bool
    ensures { IsTrue result ↔ AreNumbered sites.now }
{
    sites
        .iter()
        .enumerate()
        .all(|(index, site)| usize::from(site.number) == index + 1)
}
