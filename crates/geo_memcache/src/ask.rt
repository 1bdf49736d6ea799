//! One key's part of a request.
ghost use Rattle.std.specs.Prelude.{◌≡◌, is_some, IfSome};
ghost use Rattle.geo_requests.specs.Requests.{is_noreply, is_of_one_key};
ghost use Rattle.geo_memcache.specs.Asks.{request_of};

use geo_records::Key;
use geo_requests::{Request, ValueBytes, Verb};

/// What a request asks of one key.
#[derive(Clone, Copy)]
pub enum Ask<'a> {
    /// Store these bytes. A positive `exptime` is in seconds, 0 never expires, a negative one has expired. `unique` is the
    /// number that the client saw, which [`Verb::Cas`] alone looks at; without one it answers as with one that differs.
    Store {
        verb: Verb,
        flags: u32,
        exptime: i64,
        unique: Option<u64>,
        bytes: &'a ValueBytes,
    },
    /// Fetch the value, with its unique number where `numbers`.
    Fetch {
        numbers: bool,
    },
    /// Fetch the value, with its unique number where `numbers`, and give it the time to live that `exptime` says.
    FetchTouch {
        exptime: i64,
        numbers: bool,
    },
    /// Delete the value.
    Delete,
    /// Give the value the time to live that `exptime` says.
    Touch {
        exptime: i64,
    },
    /// Add `by` to a value that is a decimal number where `up`, else take it away.
    Arith {
        up: bool,
        by: u64,
    },
}

/// The key of a request about one key, and what it asks of it; None for another request.
pub fn ask_of<'a>(request: &'a Request) -> Option<(&'a Key, Ask<'a>)>
    ensures one_key { is_some result ≡ is_of_one_key request.now }
    ensures asks { IfSome result (λ x. request.now ≡ request_of x.0.now x.1 (is_noreply request.now)) }
{
    match request {
        Request::Store {
            verb,
            key,
            flags,
            exptime,
            unique,
            bytes,
            ..
        } => {
            let ask = Ask::Store {
                verb: *verb,
                flags: *flags,
                exptime: *exptime,
                unique: *unique,
                bytes,
            };
            Some((key, ask))
        }
        Request::Delete { key, .. } => Some((key, Ask::Delete)),
        Request::Touch { key, exptime, .. } => Some((key, Ask::Touch { exptime: *exptime })),
        Request::Arith { up, key, by, .. } => Some((key, Ask::Arith { up: *up, by: *by })),
        Request::Fetch { .. }
        | Request::FetchTouch { .. }
        | Request::FlushAll { .. }
        | Request::ShowVersion
        | Request::Verbosity { .. }
        | Request::Stats
        | Request::Quit => None,
    }
}
