//! Requests.
ghost use Rattle.std.specs.Prelude.{◌≡◌, false, IfOk};
ghost use Rattle.geo_requests.specs.Requests.{is_noreply, is_of_one_key};
ghost use Rattle.geo_requests.specs.declared.request.Request.TheVariants.{FetchTouch, Touch, Arith};

use crate::value::ValueBytes;
use geo_lattice::{Items, Twin};
use geo_records::Key;
use std::alloc::{AllocError, Global};

/// How a storage command treats what is there (memcached's protocol.txt, "Storage commands").
#[derive(Clone, Copy, Debug, PartialEq, Eq)]
pub enum Verb {
    /// Stores the data, whatever is there.
    Set,
    /// Stores it where there is no value of the key.
    Add,
    /// Stores it where there is a value of the key.
    Replace,
    /// Stores it behind the value that is there.
    Append,
    /// Stores it in front of the value that is there.
    Prepend,
    /// Stores it where the value is still the one that has the client's number ("check and set").
    Cas,
}

/// What a client asks for (memcached's protocol.txt).
#[derive(Drop)]
pub enum Request {
    /// Store a value. A positive `exptime` is in seconds, 0 never expires, a negative one has expired. `unique` is the number
    /// of the value that is to be replaced, and there for [`Verb::Cas`] alone. With `noreply` no answer is written.
    Store {
        verb: Verb,
        key: Key,
        flags: u32,
        exptime: i64,
        unique: Option<u64>,
        bytes: ValueBytes,
        noreply: bool,
    },
    /// Fetch values, in this order; with `numbers` each comes with its unique number.
    Fetch {
        keys: Items<Key>,
        numbers: bool,
    },
    /// Fetch values, and give each that is found the time to live that `exptime` says ("get and touch").
    FetchTouch {
        exptime: i64,
        keys: Items<Key>,
        numbers: bool,
    },
    /// Delete a value.
    Delete {
        key: Key,
        noreply: bool,
    },
    /// Give a value the time to live that `exptime` says.
    Touch {
        key: Key,
        exptime: i64,
        noreply: bool,
    },
    /// Add `by` to a value that is a decimal number where `up`, else take it away.
    Arith {
        up: bool,
        key: Key,
        by: u64,
        noreply: bool,
    },
    /// Forget all values: at once where `delay` is 0, else at the moment that it says, read as an exptime is.
    FlushAll {
        delay: i64,
        noreply: bool,
    },
    /// Show the version of the server.
    ShowVersion,
    /// Set how much the server logs. It is answered, and nothing more.
    Verbosity {
        noreply: bool,
    },
    /// Show the site's numbers.
    Stats,
    /// End the connection.
    Quit,
}

impl Request {
    /// Whether the client wants no answer to it.
    pub fn is_noreply(&self) -> bool
        ensures { result ≡ is_noreply self.now }
    {
        match self {
            Request::Store { noreply, .. }
            | Request::Delete { noreply, .. }
            | Request::Touch { noreply, .. }
            | Request::Arith { noreply, .. }
            | Request::FlushAll { noreply, .. }
            | Request::Verbosity { noreply } => *noreply,
            Request::Fetch { .. }
            | Request::FetchTouch { .. }
            | Request::ShowVersion
            | Request::Stats
            | Request::Quit => false,
        }
    }

    /// Computes the SHA-256 of the data, if it brings any, which [`ValueBytes`] knows from then on unless there is no memory to keep
    /// it in. Whoever is about to wait for a site's lock does it before.
    pub fn know_digest(&mut self, alloc: Global)
        ensures { self.new ≡ self.old }
    {
        if let Request::Store { bytes, .. } = self {
            bytes.know_digest(alloc);
        }
    }

    /// Lets go of that SHA-256, so that it takes no memory where the request is kept.
    pub fn forget_digest(&mut self)
        ensures { self.new ≡ self.old }
    {
        if let Request::Store { bytes, .. } = self {
            bytes.forget_digest();
        }
    }
}

fn twin_of_touches(
    alloc: Global,
    exptime: i64,
    keys: &Items<Key>,
    numbers: bool,
) -> Result<Request, AllocError>
    ensures { IfOk result (λ r. r ≡ FetchTouch exptime keys.now numbers) }
{
    Ok(Request::FetchTouch {
        exptime,
        keys: keys.twin(alloc)?,
        numbers,
    })
}

fn twin_of_touch(
    alloc: Global,
    key: &Key,
    exptime: i64,
    noreply: bool,
) -> Result<Request, AllocError>
    ensures { IfOk result (λ r. r ≡ Touch key.now exptime noreply) }
{
    Ok(Request::Touch {
        key: key.twin(alloc)?,
        exptime,
        noreply,
    })
}

fn twin_of_arith(
    alloc: Global,
    up: bool,
    key: &Key,
    by: u64,
    noreply: bool,
) -> Result<Request, AllocError>
    ensures { IfOk result (λ r. r ≡ Arith up key.now by noreply) }
{
    Ok(Request::Arith {
        up,
        key: key.twin(alloc)?,
        by,
        noreply,
    })
}

/// The twin of a request that is not about one key.
fn twin_of_keyless(alloc: Global, request: &Request) -> Result<Request, AllocError>
    requires { is_of_one_key request.now ≡ false }
    ensures { IfOk result (λ r. r ≡ request.now) }
{
    Ok(match request {
        Request::Fetch { keys, numbers } => Request::Fetch {
            keys: keys.twin(alloc)?,
            numbers: *numbers,
        },
        Request::FetchTouch {
            exptime,
            keys,
            numbers,
        } => twin_of_touches(alloc, *exptime, keys, *numbers)?,
        Request::FlushAll { delay, noreply } => Request::FlushAll {
            delay: *delay,
            noreply: *noreply,
        },
        Request::ShowVersion => Request::ShowVersion,
        Request::Verbosity { noreply } => Request::Verbosity { noreply: *noreply },
        Request::Stats => Request::Stats,
        Request::Quit => Request::Quit,
        Request::Store { .. }
        | Request::Delete { .. }
        | Request::Touch { .. }
        | Request::Arith { .. } => unreachable!(),
    })
}

impl Twin for Request {
    fn twin(&self, alloc: Global) -> Result<Self, AllocError> {
        Ok(match self {
            Request::Store {
                verb,
                key,
                flags,
                exptime,
                unique,
                bytes,
                noreply,
            } => Request::Store {
                verb: *verb,
                key: key.twin(alloc)?,
                flags: *flags,
                exptime: *exptime,
                unique: *unique,
                bytes: bytes.twin(alloc)?,
                noreply: *noreply,
            },
            Request::Delete { key, noreply } => Request::Delete {
                key: key.twin(alloc)?,
                noreply: *noreply,
            },
            Request::Touch {
                key,
                exptime,
                noreply,
            } => twin_of_touch(alloc, key, *exptime, *noreply)?,
            Request::Arith {
                up,
                key,
                by,
                noreply,
            } => twin_of_arith(alloc, *up, key, *by, *noreply)?,
            _ => twin_of_keyless(alloc, self)?,
        })
    }
}
