//! What a pass brings to its end.
ghost use Rattle.std.specs.Prelude.{◌≡◌, ◌+◌, ◌<◌};
ghost use Rattle.geo_crowd.specs.Standings.{ends_by, faults_by};

use crate::standing::Standing;

/// What a pass brought to its end.
#[derive(Clone, Copy, Debug, PartialEq, Eq)]
pub struct Passed {
    /// How many connections ended.
    pub ended: usize,
    /// How many of them by a fault.
    pub faults: usize,
    /// Whether some connection can go on at once.
    pub goes_on: bool,
}

impl Passed {
    /// Counts a connection that has ended, if it has.
    pub(crate) fn count(&mut self, standing: Option<Standing>)
        requires ended { self.old.ended < usize.MAX }
        requires faults { self.old.faults < usize.MAX }
        ensures ended { self.new.ended ≡ self.old.ended + ends_by standing }
        ensures faults { self.new.faults ≡ self.old.faults + faults_by standing }
    {
        match standing {
            Some(Standing::Over(Ok(_))) => self.ended += 1,
            Some(Standing::Over(Err(_))) => {
                self.ended += 1;
                self.faults += 1;
            }
            Some(Standing::Again | Standing::Waits) | None => {}
        }
    }
}
