//! A site of one session alone.
ghost use Rattle.std.specs.Prelude.{◌≡◌, ◌≤◌, ◌^◌};

use geo_dialogue::Backend;
use geo_requests::{Reply, Request};
use geo_site::Site;
use std::alloc::Global;
use std::rt::Clock;
use std::sync::Wait;

/// A backend that is a site, asked by nobody else, at a moment that doesn't change. It answers every request.
#[derive(Drop)]
pub struct Bare {
    site: Site,
    moment: u64,
    ghost timely: { moment ≤ 2 ^ 40 },
}

impl Bare {
    ghost use Rattle.geo_session.specs.Bares.{site_in, moment_in};

    /// A site at a moment in seconds, 1 to 2^40.
    pub fn new(site: Site, moment: u64) -> Bare
        requires least { 1 ≤ moment }
        requires most { moment ≤ 2 ^ 40 }
        ensures site { site_in result ≡ site }
        ensures moment { moment_in result ≡ moment }
    {
        Bare { site, moment }
    }

    /// The site as its sessions have left it.
    pub fn site(&self) -> &Site
        ensures { result.now ≡ site_in self.now }
    {
        &self.site
    }

    /// The site, taken out.
    pub fn into_site(self) -> Site
        ensures { result ≡ site_in self }
    {
        let Bare { site, .. } = self;
        site
    }
}

impl Backend for Bare {
    ghost use Rattle.geo_session.specs.Bares.{ActsAtMoment};

    ghost answers = { λ old request reply new. ActsAtMoment old request reply new };

    ghost refuses = { λ old request new. ⊥ };

    fn act<R: Wait + Clock>(&mut self, _rt: &R, alloc: Global, request: Request) -> Option<Reply> {
        Some(self.site.act(alloc, self.moment, &request))
    }
}
