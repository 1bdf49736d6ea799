//! What one site sends another.
ghost use Rattle.std.specs.Prelude.{◌≡◌};
ghost use Rattle.geo_frame.specs.Payloads.{payload_of, sender_of};

use geo_delta::Parcel;
use geo_versions::{Digest, Key};

/// What one site sends another: what was written, or a fill of what it lacks. `from` and `to` are the numbers of the sender and the
/// receiver, from 1, and `sites` is how many sites there are.
#[derive(Drop)]
pub enum Message {
    /// What was written.
    Parcel(Parcel),
    /// For the bytes that a version of the key names by their SHA-256, of which the sender has the version alone.
    Ask {
        from: u8,
        to: u8,
        sites: u8,
        key: Key,
        digest: Digest,
    },
    /// The answer to an ask for this key and this SHA-256: the bytes, or none where the sender hasn't them. Whoever takes them looks
    /// whether the SHA-256 is theirs.
    Offer {
        from: u8,
        to: u8,
        sites: u8,
        key: Key,
        digest: Digest,
        bytes: Option<Vec<u8>>,
    },
}

impl Message {
    /// The number of the site that sends it.
    pub fn sender(&self) -> u8
        ensures { result ≡ sender_of (payload_of self.now) }
    {
        match self {
            Message::Parcel(parcel) => parcel.from,
            Message::Ask { from, .. } | Message::Offer { from, .. } => *from,
        }
    }
}
