//! Which of the records that come bring something.
ghost use Rattle.std.specs.Prelude.{◌≡◌, ◌↔◌, List, ℕ, Bool, false};
ghost use Rattle.std.specs.List.{All, items_where_true};
ghost use Rattle.geo_records.specs.Operations.{record_joined};
ghost use Rattle.geo_versions.specs.Maps.{record_in, rec_means, listed_at};

use crate::versions::Versions;
use geo_lattice::{Bottom, Lattice};
use geo_records::{Key, Rec};
use std::cell::Cell;

impl Versions {
    /// Whether a record of a key changes something where it is joined, and the place before the one where the key stands: it is found
    /// without a look-up where it stands at the place that is told.
    fn brings(&self, place: usize, key: &Key, rec: &Rec) -> (bool, usize)
        ensures { (result.0 ≡ false) ↔ (record_joined (record_in self.now key.now) (rec_means rec.now) ≡ record_in self.now key.now) }
    {
        let (own, before) = self.record_near(place, key);
        let brings = match own {
            None => !rec.is_bottom(),
            Some(own) => !own.covers(rec),
        };
        (brings, before)
    }

    /// Leaves out of records those that would change nothing here: what they tell is known. It takes no memory.
    pub fn leave_news(&self, records: &mut Vec<(Key, Rec)>)
        ensures left { (bs : List Bool) × (records.new.items ≡ items_where_true bs records.old.items) }
        ensures news { All (λ e. record_joined (record_in self.now e.0) (rec_means e.1) ≡ record_in self.now e.0 → ⊥) records.new.items }
        ensures same { (q : List ℕ) → record_joined (record_in self.now q) (listed_at records.new.items q)
            ≡ record_joined (record_in self.now q) (listed_at records.old.items q) }
    {
        // What came together once stands together, the greatest key first.
        let place = Cell::new(usize::MAX);
        records.retain(|(key, rec)| {
            let (brings, before) = self.brings(place.get(), key, rec);
            place.set(before);
            brings
        });
    }
}
