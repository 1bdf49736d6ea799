//! Whether records come by rising key.
ghost use Rattle.std.specs.Prelude.{◌↔◌, IsTrue};
ghost use Rattle.geo_versions.specs.Maps.{Rising};

use geo_records::{Key, Rec};

/// Whether each key is greater than the one before it, byte by byte, so that no key is listed twice.
pub fn are_rising(records: &[(Key, Rec)]) -> bool
    ensures { IsTrue result ↔ Rising records.now }
{
    records.is_sorted_by(|one, next| one.0 < next.0)
}
