//! What a site notes of its changes, so that a parcel finds them without a look at all records.
ghost use Rattle.std.specs.Prelude.{ℕ, List};
ghost use Rattle.geo_records.specs.Operations.{Record};
ghost use Rattle.geo_delta.specs.Changes.{KnowsBut, Traced, nothing_pending};
ghost use Rattle.geo_delta.specs.Telling.{Tells};
ghost use Rattle.geo_delta.specs.Trails.{Trailed};
ghost use Rattle.geo_site.specs.Noting.{is_key, is_listed};

use geo_delta::{Buffer, Changes, MOST_CHANGES, Trail};
use geo_stamp::Vector;
use geo_versions::{Key, Rec};

/// One in so many of a map's records: behind more changes than that a parcel is found as soon by a look at all records.
const PART: usize = 8;

/// How many changes further back than the newest ones are kept where a map may have so many records.
pub(crate) fn kept_behind(max_records: u32) -> usize {
    max_records as usize / PART
}

/// Notes that the record of a key changed, and what is known after that.
pub(crate) fn note(changes: &mut Changes, key: &Key, after: &Vector)
    ensures { (map : List ℕ → Record) → KnowsBut nothing_pending after.now map → Tells (is_key key.now) map changes.old
        → Tells nothing_pending map changes.new }
{
    changes.newest.note(key, after);
    changes.trail.note(key, after);
}

/// Notes among the newest changes that these records changed. Of more than there is a place for none is noted: who does not
/// know what is known after them may lack one that would have fallen out, and who knows it lacks none.
fn note_newest(changes: &mut Buffer, records: &[(Key, Rec)], after: &Vector)
    ensures { (map : List ℕ → Record) → KnowsBut nothing_pending after.now map → Traced (is_listed records.now) map changes.old
        → Traced nothing_pending map changes.new }
{
    if records.len() > MOST_CHANGES {
        changes.lose(after);
        return;
    }
    for (changed, _) in records {
        changes.note(changed, after);
    }
}

/// The same among those further back.
fn note_behind(trail: &mut Trail, records: &[(Key, Rec)], after: &Vector)
    ensures { (map : List ℕ → Record) → KnowsBut nothing_pending after.now map → Trailed (is_listed records.now) map trail.old
        → Trailed nothing_pending map trail.new }
{
    if records.len() > trail.most() {
        trail.lose();
        return;
    }
    for (changed, _) in records {
        trail.note(changed, after);
    }
}

/// Notes that these records changed, and what is known after that.
pub(crate) fn note_each(changes: &mut Changes, records: &[(Key, Rec)], after: &Vector)
    ensures { (map : List ℕ → Record) → KnowsBut nothing_pending after.now map → Tells (is_listed records.now) map changes.old
        → Tells nothing_pending map changes.new }
{
    note_newest(&mut changes.newest, records, after);
    note_behind(&mut changes.trail, records, after);
}
