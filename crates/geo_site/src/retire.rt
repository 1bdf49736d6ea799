//! That another site is gone for good.
ghost use Rattle.geo_site.specs.Sites.{Remains, Rests, RetireDoes};
ghost use Rattle.geo_site.specs.Steps.{RetireSteps};

use crate::refusal::RetireError;
use crate::site::Site;

impl Site {
    /// Holds another site for gone for good from now on, and tells whether it did not before: nothing is taken from it or sent to it any
    /// more, and the horizon does not wait for it once each other site has told the same. Nothing says that it has stopped: the
    /// sites that hold it for gone go on without it, whatever it does. NoSuchSite exactly for its own number and for one that is not
    /// configured. It takes no memory.
    pub fn retire(&mut self, other: u8) -> Result<bool, RetireError>
        ensures does { RetireDoes self.old self.new other result }
        ensures rests { Rests self.old self.new }
        ensures remains { Remains self.old self.new }
        ensures step { RetireSteps self.old self.new other result }
    {
        self.hold_for_gone(other)
    }

    /// The same, by what becomes of what was heard.
    fn hold_for_gone(&mut self, other: u8) -> Result<bool, RetireError>
        ensures does { RetireDoes self.old self.new other result }
        ensures rests { Rests self.old self.new }
        ensures remains { Remains self.old self.new }
    {
        let sites = self.vector.sites();
        if other == 0 || other as usize > sites || other == self.number {
            return Err(RetireError::NoSuchSite);
        }
        // The horizon that it answers is not to fall by this.
        let number = self.number;
        self.heard.look(number, &self.vector);
        let is_new = self.heard.retire(other);
        self.heard.look(self.number, &self.vector);
        Ok(is_new)
    }
}
