//! What tells the record of a key.
ghost use Rattle.std.specs.Prelude.{◌≡◌, ◌↔◌, None, IsSome, List, ℕ, option_copied};
ghost use Rattle.geo_maps.specs.Maps.{meaning_or};
ghost use Rattle.geo_versions.specs.Maps.{rec_means};
ghost use Rattle.geo_records.specs.Operations.{Record};

use geo_versions::{Key, Rec, Versions};

/// What tells the record of a key, and nothing else: whoever is handed one can look keys up, and can't pass over all records.
pub trait Lookup {
    // What is kept of each key: no register where there is no record.
    ghost record_of: { Self → List ℕ → Record };

    /// The record of a key, which has some register.
    fn record(&self, key: &Key) -> Option<&Rec>
        ensures value { meaning_or (None, None) rec_means (option_copied result) ≡ record_of self.now key.now }
        ensures there { IsSome result ↔ (record_of self.now key.now ≡ (None, None) → ⊥) };
}

impl Lookup for Versions {
    ghost use Rattle.geo_versions.specs.Maps.{record_in};

    ghost record_of = { record_in };

    fn record(&self, key: &Key) -> Option<&Rec> {
        Versions::record(self, key)
    }
}
