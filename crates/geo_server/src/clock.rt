//! The system's clock.
ghost use Rattle.std.specs.Prelude.{◌≤◌, ◌^◌};

use geo_session::clock::Clock;
use geo_site::LAST_MOMENT;
use std::rt;
use std::time::{SystemTime, UNIX_EPOCH};

/// The system's clock, in seconds since 1970. Where it can't be read, or is set before 1970, the moment is 1.
#[derive(Clone, Copy, Debug)]
pub struct SystemClock;

/// The moment that the system's clock shows.
fn shown<R: rt::Clock>(rt: &R) -> u64 {
    let Ok(now) = SystemTime::now(rt) else {
        return 1;
    };
    match now.duration_since(UNIX_EPOCH) {
        Ok(since) => since.as_secs(),
        Err(_) => 1,
    }
}

impl Clock for SystemClock {
    ghost use Rattle.geo_server.specs.Moments.{IsMoment};

    ghost shows = { λ _. IsMoment };

    fn now<R: rt::Clock>(&self, rt: &R) -> u64 {
        shown(rt).clamp(1, LAST_MOMENT)
    }
}
