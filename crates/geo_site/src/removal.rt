//! What every site knows, and this one need not keep.
ghost use Rattle.std.specs.Prelude.{◌≡◌};
ghost use Rattle.geo_versions.specs.Maps.{Rec, sifted};
ghost use Rattle.geo_site.specs.declared.event.Event.TheVariants.{Remove};
ghost use Rattle.geo_site.specs.declared.event.Answer.TheVariants.{Removed};
ghost use Rattle.geo_site.specs.Sites.{horizon_in, RemoveDoes};
ghost use Rattle.geo_site.specs.Steps.{IsStep};

use crate::site::Site;
use geo_lattice::Items;
use geo_versions::{Key, Rec, sift};

impl Site {
    /// The horizon: the time up to which every site that this one does not hold for retired is known to know each operation that one of
    /// them knows, as far as it was heard, and behind which none of them issues another (stable operations: Almeida et al. 2018). It never
    /// falls, and takes no memory.
    pub fn horizon(&self) -> u64
        ensures { result ≡ horizon_in self.now }
    {
        self.heard.horizon(self.number, &self.vector)
    }

    /// Drops the records that have no version and no operation with a time above the horizon, and tells how many. What it drops no
    /// site misses: a parcel that still brings it is sifted. Where it knows that there is none, it tells so at once; else it looks for
    /// them as [`geo_versions::Versions::remove_below`] does. It takes no memory but what notes measures and order, the want of which
    /// fails nothing.
    pub fn remove(&mut self) -> usize
        ensures does { RemoveDoes self.old self.new result }
        ensures step { IsStep self.old self.new Remove (Removed result) }
    {
        // The step tells of the records before and after, which are counted as they come and go.
        let _before = self.records();
        let count = self.drop_known();
        let _after = self.records();
        count
    }

    /// The same, by what becomes of what is kept.
    fn drop_known(&mut self) -> usize
        ensures { RemoveDoes self.old self.new result }
    {
        let horizon = self.horizon();
        self.versions.remove_below(horizon)
    }

    /// Of records that come, what not every site is known to know.
    pub(crate) fn sifted(&self, records: Items<(Key, Rec)>) -> Items<(Key, Rec)>
        ensures { result ≡ sifted (horizon_in self.now) records }
    {
        let mut all = records.into_vec();
        sift(&mut all, self.horizon());
        Items::of(all)
    }
}
