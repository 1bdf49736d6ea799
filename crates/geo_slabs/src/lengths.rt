//! The lengths of the values in chunks, which only contracts and proofs read. They take no memory, and nothing is done for them when the
//! program runs: whoever has a chunk knows how many bytes it holds.
ghost use Rattle.std.specs.Prelude.{◌≡◌, ℕ, List, [], Option};
ghost use Rattle.std.specs.Borrow.{ftrue};
ghost use Rattle.geo_slabs.specs.Chunks.{noted};

use std::marker::{Model, PhantomData};

/// The length of the value in each chunk that was used, or None where it is free. No number of them is kept.
#[derive(Drop)]
pub struct Lengths {
    marker: PhantomData<u8>,
    pub ghost each: { List (Option ℕ) },
}

impl Model for Lengths {
    ghost also_owns = { λ _. ftrue };
}

// A struct with `also_owns` has neither by itself. This one owns nothing.
unsafe impl Send for Lengths {}

unsafe impl Sync for Lengths {}

impl Lengths {
    /// No chunk was used.
    pub fn new() -> Lengths
        ensures { result.each ≡ [] }
    {
        Lengths {
            marker: PhantomData,
        }
    }

    /// A chunk's number, and the length of the value that was put there; the number alone where the chunk was freed.
    pub fn note(&mut self, _cell: &[u32])
        ensures { self.new.each ≡ noted self.old.each _cell.now }
    {}
}
