//! A link that counts the frames that it refuses.
ghost use Rattle.std.specs.Prelude.{◌≡◌};
ghost use Rattle.geo_link.specs.Tallies.{CountsError};

use crate::fault::LinkError;
use crate::link::Link;
use geo_frame::Message;
use geo_tally::{Counter, Tally, TallySeat};
use std::alloc::Global;
use std::sync::Wait;

/// A link that adds one to a tally's refused frames for each that its link refuses, and else passes on.
#[derive(Drop)]
pub struct Tallied<'a, L> {
    link: L,
    tally: &'a Tally,
    seat: TallySeat,
    ghost given: { seat.tally ≡ tally.now.tally },
}

impl<'a, L: Link> Tallied<'a, L> {
    /// A link and a tally's seat.
    pub fn new(link: L, tally: &'a Tally, seat: TallySeat) -> Tallied<'a, L>
        requires { seat.tally ≡ tally.now.tally }
        ensures link { result.link ≡ link }
        ensures seat { result.seat ≡ seat }
    {
        Tallied { link, tally, seat }
    }

    /// The link and the seat.
    pub fn into_parts(self) -> (L, TallySeat)
        ensures link { result.0 ≡ self.entry.link }
        ensures seat { result.1 ≡ self.entry.seat }
    {
        let Tallied { link, seat, .. } = self;
        (link, seat)
    }

    /// Counts what a call answered. A seat that has added 2^40 times adds no more.
    fn count(&mut self, error: LinkError)
        ensures seat { CountsError error self.old.seat self.new.seat }
        ensures link { self.new.link ≡ self.old.link }
    {
        if let LinkError::Frame(_) = error {
            let _ = self.tally.add(&mut self.seat, Counter::FramesRefused);
        }
    }
}

impl<L: Link> Link for Tallied<'_, L> {
    ghost use Rattle.std.specs.Prelude.{◌≡◌};
    ghost use Rattle.geo_link.specs.Tallies.{CountsError};

    ghost puts = { λ old message new. L.puts old.link message new.link × (new.seat ≡ old.seat) };

    ghost gets = { λ old message new. L.gets old.link message new.link × (new.seat ≡ old.seat) };

    ghost put_fails = { λ old message error new. L.put_fails old.link message error new.link × CountsError error old.seat new.seat };

    ghost get_fails = { λ old error new. L.get_fails old.link error new.link × CountsError error old.seat new.seat };

    ghost closes = { λ old new. L.closes old.link new.link × (new.seat ≡ old.seat) };

    fn put<R: Wait>(&mut self, rt: &R, alloc: Global, message: Message) -> Result<(), LinkError> {
        match self.link.put(rt, alloc, message) {
            Ok(()) => Ok(()),
            Err(error) => {
                self.count(error);
                Err(error)
            }
        }
    }

    fn get<R: Wait>(&mut self, rt: &R, alloc: Global) -> Result<Message, LinkError> {
        match self.link.get(rt, alloc) {
            Ok(message) => Ok(message),
            Err(error) => {
                self.count(error);
                Err(error)
            }
        }
    }

    fn close(&mut self) {
        self.link.close();
    }
}
