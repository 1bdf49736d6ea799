//! When entries end.
ghost use Rattle.std.specs.Prelude.{◌≡◌, ◌≤◌, ◌^◌};
ghost use Rattle.geo_memcache.specs.Entries.{expiry_at, is_live};

/// Up to this many seconds, thirty days, an exptime counts from now (memcached's protocol.txt).
const THIRTY_DAYS: i64 = 2_592_000;

/// The moment, in seconds, at which an exptime that is given at another moment (at most 2^40) ends an entry: 0 is never, a
/// negative one is 1 and so at once, up to thirty days count from now, and a greater one is itself.
pub fn expiry_of(exptime: i64, now: u64) -> u64
    requires { now ≤ 2 ^ 40 }
    ensures { result ≡ expiry_at exptime now }
{
    if exptime == 0 {
        0
    } else if exptime < 0 {
        1
    } else if exptime <= THIRTY_DAYS {
        now + exptime as u64
    } else {
        exptime as u64
    }
}

/// Whether an entry with this expiry is live at a moment: it is 0, or the moment is before it.
pub fn live(expiry: u64, now: u64) -> bool
    ensures { result ≡ is_live expiry now }
{
    expiry == 0 || now < expiry
}
