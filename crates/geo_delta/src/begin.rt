//! With which bytes the keys of many changes begin.
use crate::headed::shared;

/// So few are soon sorted, whatever their keys begin with.
const FEW_CHANGES: usize = 32;

/// Where keys share fewer bytes, their first sixteen tell most of them apart.
const LEAST_SHARED: usize = 14;

/// A prime above the most changes, so that steps of it come to each kind of changes that follow one another in turn.
const STRIDE: usize = 2_654_435_761;

/// Changes, each at a place, oldest first.
pub(crate) trait Changed {
    /// How many there are.
    fn count(&self) -> usize;

    /// The bytes of the key of the change at a place; none where there is no such place.
    fn bytes_at(&self, place: usize) -> &[u8];
}

/// With which bytes the keys of the changes from this one on begin, as far as a few of them tell; none where that are too few to
/// leave out, or a whole key. Keys that begin otherwise take more time, and are sorted as well.
pub(crate) fn begin_from<C: Changed>(changes: &C, first: usize) -> &[u8] {
    let count = changes.count().saturating_sub(first);
    if count < FEW_CHANGES {
        return &[];
    }
    let key = changes.bytes_at(first);
    let mut begin = key;
    for sample in 1..8 + count / 128 {
        let place = first.saturating_add(sample.wrapping_mul(STRIDE) % count);
        begin = &begin[..shared(begin, changes.bytes_at(place))];
        if begin.len() < LEAST_SHARED {
            return &[];
        }
    }
    // One key that changes over and over leaves nothing to go by behind it.
    if begin.len() == key.len() {
        return &[];
    }
    begin
}
