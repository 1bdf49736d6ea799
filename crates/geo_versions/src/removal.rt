//! What every site knows already, and need not keep.
ghost use Rattle.std.specs.Prelude.{◌≡◌, ◌≤◌, is_some};
ghost use Rattle.std.specs.List.{All};
ghost use Rattle.geo_versions.specs.Maps.{is_old, sifted};
ghost use Rattle.geo_records.specs.Operations.{above_both, version_in};
ghost use Rattle.geo_versions.specs.Records.{rec_means, rec_recent, rec_remaining, time_in, lasting_of};

use crate::floor::counts;
use geo_lattice::{Bottom, Change, Exact, Lww, Measure, Test};
use geo_records::{Body, Key, Rec, shown_version};
use geo_stamp::Stamp;

/// Whether a register is empty, or every site knows its operation.
fn is_known<V: Exact + Drop>(horizon: u64, register: &Lww<Stamp, V>) -> bool
    ensures { result ≡ is_old horizon register.now.register }
{
    match register.get() {
        None => true,
        Some((stamp, _)) => stamp.time() <= horizon,
    }
}

/// Leaves registers out that every site knows.
#[derive(Clone, Copy)]
struct Recent {
    horizon: u64,
}

impl Change<Rec> for Recent {
    ghost changed = { λ c r. rec_recent c.horizon r };

    fn change(&self, value: &mut Rec) {
        if is_known(self.horizon, &value.left) {
            value.left = Lww::none();
        }
        if is_known(self.horizon, &value.right) {
            value.right = Lww::none();
        }
    }
}

/// The records without a version of which every site knows all, which a removal drops.
#[derive(Clone, Copy)]
pub(crate) struct Over {
    pub horizon: u64,
}

impl Test<Rec> for Over {
    ghost use Rattle.std.specs.Prelude.{◌&&◌};
    ghost use Rattle.geo_versions.specs.Records.{has_register, is_over, rec_means};

    ghost passing = { λ o r. has_register (rec_means r) && is_over o.horizon (rec_means r) };

    fn passes(&self, value: &Rec) -> bool {
        !value.is_bottom()
            && shown_version(value).is_none()
            && is_known(self.horizon, &value.left)
            && is_known(self.horizon, &value.right)
    }
}

impl Change<Rec> for Over {
    ghost changed = { λ o r. rec_remaining o.horizon r };

    fn change(&self, value: &mut Rec) {
        if self.passes(value) {
            *value = Rec::bottom();
        }
    }
}

/// The time of a register, the greatest number where it is empty.
fn time_of<V: Exact + Drop>(register: &Lww<Stamp, V>) -> u64
    ensures { result ≡ time_in register.now.register }
{
    match register.get() {
        None => u64::MAX,
        Some((stamp, _)) => stamp.time(),
    }
}

/// Whether a record has a version above a floor.
fn is_shown(floor: Option<Stamp>, rec: &Rec) -> bool
    ensures { result ≡ is_some (version_in (above_both floor (rec_means rec.now))) }
{
    match rec.left.get() {
        None | Some((_, Body::Gone)) => false,
        Some((stamp, Body::Value { .. })) => counts(floor, *stamp),
    }
}

/// The time up to which no removal drops a record that is cut at a floor.
#[derive(Clone, Copy)]
pub(crate) struct Lasting {
    pub floor: Option<Stamp>,
}

impl Measure<Rec> for Lasting {
    ghost use Rattle.geo_versions.specs.Records.{rec_means, lasting_of};

    ghost measured = { λ l r. lasting_of l.floor (rec_means r) };

    fn measure(&self, value: &Rec) -> u64 {
        if is_shown(self.floor, value) {
            u64::MAX
        } else {
            time_of(&value.left).min(time_of(&value.right))
        }
    }
}

impl Lasting {
    /// The least of a time and those of records.
    pub(crate) fn least(&self, most: u64, records: &[(Key, Rec)]) -> u64
        ensures most { result ≤ most }
        ensures each { All (λ e. result ≤ lasting_of self.now.floor (rec_means e.1)) records.now }
    {
        let mut least = most;
        for (_, rec) in records {
            least = least.min(self.measure(rec));
        }
        least
    }
}

/// Leaves out of records each register with a time of at most the horizon, and each record that is left without one: what stood there
/// is known to every site, and may have been dropped here since. It takes no memory.
pub fn sift(records: &mut Vec<(Key, Rec)>, horizon: u64)
    ensures { records.new.items ≡ sifted horizon records.old.items }
{
    let recent = Recent { horizon };
    records.retain_mut(|(_, rec)| {
        recent.change(rec);
        !rec.is_bottom()
    });
}
