//! What a flush leaves: the operations above its stamp.
ghost use Rattle.std.specs.Prelude.{◌≡◌, Option, not, is_some};
ghost use Rattle.geo_records.specs.Operations.{above, is_above, floor_joined};
ghost use Rattle.geo_versions.specs.Records.{rec_above};

use crate::shown::copied;
use geo_lattice::{Change, Exact, Lww, Show, Test};
use geo_records::Rec;
use geo_stamp::Stamp;

/// Whether an operation with this stamp counts: where it is above the floor.
pub(crate) fn counts(floor: Option<Stamp>, stamp: Stamp) -> bool
    ensures { result ≡ is_above floor stamp }
{
    match floor {
        None => true,
        Some(floor) => floor < stamp,
    }
}

/// The greater of two floors.
pub(crate) fn later(mine: Option<Stamp>, theirs: Option<Stamp>) -> Option<Stamp>
    ensures { result ≡ floor_joined mine theirs }
{
    match (mine, theirs) {
        (None, theirs) => theirs,
        (Some(mine), None) => Some(mine),
        (Some(mine), Some(theirs)) => Some(if mine < theirs { theirs } else { mine }),
    }
}

fn drop_below<V: Exact + Drop>(floor: Option<Stamp>, register: &mut Lww<Stamp, V>)
    ensures { register.new.register ≡ above floor register.old.register }
{
    if let Some((stamp, _)) = register.get() {
        if !counts(floor, *stamp) {
            *register = Lww::none();
        }
    }
}

/// Drops the registers that are not above the floor.
#[derive(Clone, Copy)]
pub(crate) struct AboveFloor {
    pub floor: Option<Stamp>,
}

impl Change<Rec> for AboveFloor {
    ghost changed = { λ c r. rec_above c.floor r };

    fn change(&self, value: &mut Rec) {
        drop_below(self.floor, &mut value.left);
        drop_below(self.floor, &mut value.right);
    }
}

fn is_below<V: Exact + Drop>(floor: Option<Stamp>, register: &Lww<Stamp, V>) -> bool
    ensures { result ≡ not (is_some (above floor register.now.register)) }
{
    match register.get() {
        None => true,
        Some((stamp, _)) => !counts(floor, *stamp),
    }
}

/// The records of which nothing is above the floor.
impl Test<Rec> for AboveFloor {
    ghost use Rattle.std.specs.Prelude.{not};
    ghost use Rattle.geo_versions.specs.Records.{has_register, rec_above, rec_means};

    ghost passing = { λ c r. not (has_register (rec_means (rec_above c.floor r))) };

    fn passes(&self, value: &Rec) -> bool {
        is_below(self.floor, &value.left) && is_below(self.floor, &value.right)
    }
}

impl Show<Rec> for AboveFloor {
    type Item = Rec;

    ghost use Rattle.std.specs.Prelude.{Some};
    ghost use Rattle.geo_versions.specs.Records.{rec_above};

    ghost shown = { λ c r. Some (rec_above c.floor r) };

    fn show(&self, value: &Rec) -> Option<Rec> {
        let mut record = copied(value);
        self.change(&mut record);
        Some(record)
    }
}
