//! A text that only contracts and proofs read. It takes no memory, and nothing is done for it when the program runs.
ghost use Rattle.std.specs.Prelude.{◌≡◌, ℕ, List, [], ◌++◌};
ghost use Rattle.std.specs.Borrow.{ftrue};

use std::marker::{Model, PhantomData};

/// The text that came so far. No byte of it is kept.
#[derive(Drop)]
pub struct Transcript {
    marker: PhantomData<u8>,
    pub ghost text: { List ℕ },
}

impl Model for Transcript {
    ghost also_owns = { λ _. ftrue };
}

// A struct with `also_owns` has neither by itself. This one owns nothing.
unsafe impl Send for Transcript {}

unsafe impl Sync for Transcript {}

impl Transcript {
    /// Nothing came yet.
    pub fn new() -> Transcript
        ensures { result.text ≡ [] }
    {
        Transcript {
            marker: PhantomData,
        }
    }

    /// A piece came.
    pub fn add(&mut self, _piece: &[u8])
        ensures { self.new.text ≡ self.old.text ++ _piece.now }
    {}
}
