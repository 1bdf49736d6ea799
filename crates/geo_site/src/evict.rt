//! What a site holds no longer, and what it will let go next.
ghost use Rattle.std.specs.Prelude.{◌<◌};
ghost use Rattle.geo_slabs.specs.Storage.{class_count};
ghost use Rattle.geo_site.specs.declared.event.Event.TheVariants.{Evict};
ghost use Rattle.geo_site.specs.declared.event.Answer.TheVariants.{Evicted};
ghost use Rattle.geo_site.specs.Sites.{Rests, Stays, EvictDoes, JuggleDoes};
ghost use Rattle.geo_site.specs.Steps.{IsStep, StandsAsBefore};

use crate::site::Site;
use geo_versions::Key;
use std::alloc::AllocError;

impl Site {
    /// Drops the bytes of a key, and tells whether it held any. No version changes, and no other site learns of it: the key is
    /// missing here until it is written again. It takes no memory.
    pub fn evict(&mut self, key: &Key) -> bool
        ensures does { EvictDoes self.old self.new key.now result }
        ensures step { IsStep self.old self.new (Evict key.now) (Evicted result) }
    {
        self.drop_held(key)
    }

    /// The same, by what becomes of what is held, too.
    fn drop_held(&mut self, key: &Key) -> bool
        ensures { EvictDoes self.old self.new key.now result }
    {
        let held = self.values.drop_key(key);
        if held {
            self.evictions = self.evictions.saturating_add(1);
        }
        held
    }

    /// Makes the one move that is due in a slab class, 0 to 14, and tells whether there was one (memcached's doc/new_lru.txt). What
    /// is held stays. Only a move to another list asks for memory.
    pub fn juggle(&mut self, class: usize) -> Result<bool, AllocError>
        requires { class < class_count }
        ensures does { JuggleDoes self.old self.new class result }
        ensures rests { Rests self.old self.new }
        ensures stays { Stays self.old self.new }
        ensures stands { StandsAsBefore self.old self.new }
    {
        self.move_one(class)
    }

    /// The same, by what becomes of the order in which bytes go.
    fn move_one(&mut self, class: usize) -> Result<bool, AllocError>
        requires { class < class_count }
        ensures does { JuggleDoes self.old self.new class result }
        ensures rests { Rests self.old self.new }
        ensures stays { Stays self.old self.new }
    {
        self.values.juggle(class)
    }
}
