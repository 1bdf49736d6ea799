//! What a storage line announces.
ghost use Rattle.std.specs.Prelude.{◌≡◌};
ghost use Rattle.geo_grammar.specs.Commands.{stored};

use geo_records::Key;
use geo_requests::{Request, ValueBytes, Verb};

/// What a storage line announces: a store whose data, of `size` bytes, is still to come.
#[derive(Drop)]
pub struct Head {
    pub verb: Verb,
    pub key: Key,
    pub flags: u32,
    pub exptime: i64,
    pub unique: Option<u64>,
    pub size: usize,
    pub noreply: bool,
}

impl Head {
    /// The request, now that its data is there.
    pub fn request(self, bytes: ValueBytes) -> Request
        ensures { result ≡ stored self bytes }
    {
        let Head {
            verb,
            key,
            flags,
            exptime,
            unique,
            noreply,
            ..
        } = self;
        Request::Store {
            verb,
            key,
            flags,
            exptime,
            unique,
            bytes,
            noreply,
        }
    }
}
