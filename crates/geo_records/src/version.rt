//! The version of a key.
ghost use Rattle.std.specs.Prelude.{◌≡◌, None, Some};
ghost use Rattle.geo_records.specs.Operations.{version_in};

use crate::body::{Body, Rec};
use crate::digest::Digest;
use geo_stamp::Stamp;

/// What a site knows of a key's value: the stamp of its write, SHA-256, flags, length in bytes, and the expiry (in seconds, 0
/// for never) with the stamp of the operation that set it.
#[derive(Clone, Copy, Debug, PartialEq, Eq)]
pub struct Version {
    pub stamp: Stamp,
    pub digest: Digest,
    pub flags: u32,
    pub length: u32,
    pub expiry_stamp: Stamp,
    pub expiry: u64,
}

/// The version that a record shows: None where it has no value.
pub fn shown_version(rec: &Rec) -> Option<Version>
    ensures { result ≡ version_in (rec.now.left.register, rec.now.right.register) }
{
    match rec.left.get() {
        None | Some((_, Body::Gone)) => None,
        Some(
            (
                stamp,
                Body::Value {
                    digest,
                    flags,
                    length,
                },
            ),
        ) => {
            let (expiry_stamp, expiry) = match rec.right.get() {
                None => (*stamp, 0),
                Some((stamp, expiry)) => (*stamp, *expiry),
            };
            Some(Version {
                stamp: *stamp,
                digest: *digest,
                flags: *flags,
                length: length.get(),
                expiry_stamp,
                expiry,
            })
        }
    }
}
