//! Values that a line shows more than once.
ghost use Rattle.std.specs.Prelude.{◌≡◌, ◌++◌, [], Some, IfOk, OnOk};
ghost use Rattle.std.specs.List.{All};
ghost use Rattle.geo_memcache.specs.Entries.{entry_of};
ghost use Rattle.geo_site.specs.Entries.{found_at};
ghost use Rattle.geo_site.specs.Repeats.{Agrees};

use crate::places::Places;
use geo_lattice::Twin;
use geo_memcache::Entry;
use geo_requests::{Found, Shown};
use geo_versions::Key;
use std::alloc::{AllocError, Global};
use std::collections::HashMap;
use std::hash::RandomState;

/// A shorter value is copied each time that it is shown: an owner more takes as much memory.
const LONG: usize = 64;

/// At the long value of this number the places are put into a map. Up to there all of them are looked through, so that a line that
/// finds fewer pays for none.
const MANY: usize = 32;

/// The numbers of the values that stand at these places.
fn numbers_at(
    alloc: Global,
    hasher: RandomState,
    places: &Places,
) -> Result<HashMap<usize, usize, RandomState>, AllocError> {
    let mut numbers = HashMap::with_capacity_and_hasher(alloc, places.len(), hasher)?;
    for number in 0..places.len() {
        numbers.insert(places.of(number), number)?;
    }
    Ok(numbers)
}

/// Which of the values that a line found stands at a place. It is a hint: whoever asks sees by the key whether it is that value.
#[derive(Drop)]
struct Repeats {
    hasher: RandomState,
    /// How many long values were looked for, counted up to the one at which the map is made.
    count: usize,
    /// It takes 30 to 60 bytes for each place, until the answer is made.
    numbers: Option<HashMap<usize, usize, RandomState>>,
}

impl Repeats {
    /// Counts a long value, and makes the map once enough are. Where memory for it is refused there is none, and it isn't tried again:
    /// then all places are looked through for each long value.
    fn count_long(&mut self, alloc: Global, places: &Places) {
        if self.count >= MANY {
            return;
        }
        self.count += 1;
        if self.count == MANY {
            self.numbers = numbers_at(alloc, self.hasher, places).ok();
        }
    }

    /// The number of a value that was found at this place, if one was. The next that is found stands there: it shows the same bytes.
    fn number_of(&mut self, alloc: Global, places: &Places, place: usize) -> Option<usize> {
        self.count_long(alloc, places);
        let Some(numbers) = &mut self.numbers else {
            return places.number_of(place);
        };
        match numbers.insert(place, places.len()) {
            Ok(number) => number,
            Err(_) => {
                self.numbers = None;
                None
            }
        }
    }
}

/// What a line finds, one key after the other, and where it stands.
#[derive(Drop)]
pub(crate) struct Findings {
    all: Vec<Found>,
    places: Places,
    repeats: Repeats,
}

impl Findings {
    /// Nothing. Strangers choose the keys, so the hasher is the site's own.
    pub(crate) fn none(alloc: Global, hasher: RandomState) -> Findings
        ensures { result.all.items ≡ [] }
    {
        Findings {
            all: Vec::new(alloc),
            places: Places::new(alloc),
            repeats: Repeats {
                hasher,
                count: 0,
                numbers: None,
            },
        }
    }

    /// The bytes of a key's value: those that the value of this number shows already, if it is this key's, or a copy.
    fn shared(
        &mut self,
        alloc: Global,
        hint: Option<usize>,
        key: &Key,
        bytes: &[u8],
    ) -> Result<Shown, AllocError>
        requires alike { All (Agrees key.now bytes.now) self.old.all.items }
        ensures bytes { IfOk result (λ shown. shown ≡ bytes.now) }
        ensures stays { OnOk result (self.new.all.items ≡ self.old.all.items) }
    {
        if let Some(number) = hint {
            if number < self.all.len() && self.all[number].key == *key {
                let found = &mut self.all[number];
                return found.bytes.again(alloc);
            }
        }
        Ok(Shown::of(Vec::from_slice(alloc, bytes)?))
    }

    /// The bytes of a key's value that stands at this place. Those of a long one stand in memory once, however often it is shown.
    fn bytes_at(
        &mut self,
        alloc: Global,
        place: usize,
        key: &Key,
        bytes: &[u8],
    ) -> Result<Shown, AllocError>
        requires alike { All (Agrees key.now bytes.now) self.old.all.items }
        ensures bytes { IfOk result (λ shown. shown ≡ bytes.now) }
        ensures stays { OnOk result (self.new.all.items ≡ self.old.all.items) }
    {
        let hint = if bytes.len() < LONG {
            None
        } else {
            self.repeats.number_of(alloc, &self.places, place)
        };
        self.shared(alloc, hint, key, bytes)
    }

    /// One key more, of which this is visible at this place.
    pub(crate) fn push(
        &mut self,
        alloc: Global,
        place: usize,
        key: &Key,
        entry: &Entry<'_>,
        numbers: bool,
    ) -> Result<(), AllocError>
        requires alike { All (Agrees key.now (entry_of entry.now).bytes) self.old.all.items }
        ensures { OnOk result (self.new.all.items ≡ self.old.all.items ++ found_at numbers key.now (Some (entry_of entry.now))) }
    {
        let bytes = self.bytes_at(alloc, place, key, entry.bytes)?;
        let found = Found {
            key: key.twin(alloc)?,
            flags: entry.flags,
            unique: if numbers { Some(entry.unique) } else { None },
            bytes,
        };
        self.places.push(place)?;
        self.all.push(found)?;
        Ok(())
    }

    /// All that was found, and where it stands.
    pub(crate) fn parts(self) -> (Vec<Found>, Places)
        ensures { result.0 ≡ self.all }
    {
        let Findings { all, places, .. } = self;
        (all, places)
    }
}
