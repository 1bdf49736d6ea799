//! Connections under their numbers.
ghost use Rattle.std.specs.Prelude.{◌≡◌, ◌∷◌, [], true, false, is_some, IfOk, OnErr, MatchBool, None, Some};
ghost use Rattle.slab.specs.Slab.{get, slab_len};

use crate::carried::Carried;
use crate::polling::Ready;
use crate::standing::Standing;
use geo_dialogue::{Backend, Gate};
use geo_socket::Stream;
use slab::Slab;
use std::alloc::{AllocError, Global};
use std::mem;
use std::rt::Clock;
use std::sync::Wait;

/// A read brings so many bytes at most.
const PIECE: usize = 16_384;

/// A connection, and whether it is listed for the next pass.
#[derive(Drop)]
pub(crate) struct Member<S: Stream + Drop> {
    carried: Carried<S>,
    is_listed: bool,
}

/// The connections, what each is read into, and the streams of those that are over, until somebody fetches them.
#[derive(Drop)]
pub(crate) struct Roster<S: Stream + Drop> {
    alloc: Global,
    members: Slab<Member<S>>,
    buffer: Vec<u8>,
    left: Vec<S>,
}

impl<S: Stream + Drop> Roster<S> {
    ghost use Rattle.geo_crowd.specs.Crowds.{carried_in, BeginsThere, EndsAt, GoesOnThere, IsNotThere, Stand};
    ghost use Rattle.geo_crowd.specs.Listing.{OthersKeep, Same, is_listed_at, is_unlisted};
    ghost use Rattle.geo_crowd.specs.Standings.{goes_on};

    /// No connections.
    pub(crate) fn new(alloc: Global) -> Result<Roster<S>, AllocError>
        ensures { IfOk result (λ roster. roster.members.slots ≡ []) }
    {
        let buffer = vec![in alloc; 0u8; PIECE]?;
        Ok(Roster {
            alloc,
            members: Slab::new(alloc),
            buffer,
            left: Vec::new(alloc),
        })
    }

    /// How many connections there are.
    pub(crate) fn len(&self) -> usize
        ensures { result ≡ slab_len self.now.members }
    {
        self.members.len()
    }

    /// The number of the connection that is taken in next.
    pub(crate) fn next_number(&self) -> usize {
        self.members.vacant_key()
    }

    /// Takes a connection in, which is to be listed, and says under which number.
    pub(crate) fn insert(&mut self, carried: Carried<S>) -> Result<usize, AllocError>
        ensures free { IfOk result (λ number. get self.old.members number ≡ None) }
        ensures added { IfOk result (λ number. carried_in self.new.members number ≡ Some carried) }
        ensures listed { IfOk result (λ number. is_listed_at self.new.members number ≡ true) }
        ensures others { IfOk result (λ number. OthersKeep number self.old.members self.new.members) }
        ensures unchanged { OnErr result (Same self.old.members self.new.members) }
    {
        let member = Member {
            carried,
            is_listed: true,
        };
        match self.members.insert(member) {
            Ok(number) => Ok(number),
            Err(_) => Err(AllocError),
        }
    }

    /// A connection is ready, and is listed from now on, if it is there. Whether it was there, and not listed yet.
    pub(crate) fn wake(&mut self, ready: Ready) -> bool
        ensures fresh { result ≡ is_unlisted (get self.old.members ready.number) }
        ensures listed { is_listed_at self.new.members ready.number ≡ is_some (carried_in self.old.members ready.number) }
        ensures none { is_unlisted (get self.new.members ready.number) ≡ false }
        ensures stand { Stand (carried_in self.old.members) (carried_in self.new.members) }
        ensures others { OthersKeep ready.number self.old.members self.new.members }
    {
        let Some(member) = self.members.get_mut(ready.number) else {
            return false;
        };
        member
            .carried
            .is_ready(ready.readable, ready.writable, ready.ending);
        let is_fresh = !member.is_listed;
        member.is_listed = true;
        is_fresh
    }

    /// Begins a connection's turn. Whether it is there.
    pub(crate) fn begin(&mut self, number: usize) -> bool
        ensures begins { MatchBool result (BeginsThere number (carried_in self.old.members) (carried_in self.new.members))
            (IsNotThere number (carried_in self.old.members) (carried_in self.new.members)) }
        ensures listed { is_listed_at self.new.members number ≡ is_listed_at self.old.members number }
        ensures unlisted { is_unlisted (get self.new.members number) ≡ is_unlisted (get self.old.members number) }
        ensures others { OthersKeep number self.old.members self.new.members }
    {
        let Some(member) = self.members.get_mut(number) else {
            return false;
        };
        member.carried.begin(self.buffer.as_mut_slice());
        true
    }

    /// Has what waits at a connection answered. Whether it is there.
    pub(crate) fn go_on<R: Wait + Clock, B: Backend, G: Gate>(
        &mut self,
        rt: &R,
        backend: &mut B,
        gate: &G,
        number: usize,
    ) -> bool
        ensures goes { MatchBool result
            (GoesOnThere B.answers B.refuses number (carried_in self.old.members) (carried_in self.new.members) backend.old backend.new)
            (IsNotThere number (carried_in self.old.members) (carried_in self.new.members) × (backend.new ≡ backend.old)) }
        ensures listed { is_listed_at self.new.members number ≡ is_listed_at self.old.members number }
        ensures unlisted { is_unlisted (get self.new.members number) ≡ is_unlisted (get self.old.members number) }
        ensures others { OthersKeep number self.old.members self.new.members }
    {
        let Some(member) = self.members.get_mut(number) else {
            return false;
        };
        member.carried.go_on(rt, backend, gate);
        true
    }

    /// Ends a connection's turn, and lets go of it where that was the last. One that goes on is to be listed.
    pub(crate) fn end(&mut self, number: usize) -> Option<Standing>
        ensures ends { EndsAt number result (carried_in self.old.members) (carried_in self.new.members) }
        ensures listed { is_listed_at self.new.members number ≡ goes_on result }
        ensures others { OthersKeep number self.old.members self.new.members }
    {
        let member = self.members.get_mut(number)?;
        let standing = member.carried.end();
        member.is_listed = standing == Standing::Again;
        if matches!(standing, Standing::Over(_)) {
            if let Some(member) = self.members.try_remove(number) {
                // where memory is refused the stream is closed at once
                let _ = self.left.push(member.carried.into_stream());
            }
        }
        Some(standing)
    }

    /// The streams of the connections that were over since it was asked last.
    pub(crate) fn take_left(&mut self) -> Vec<S>
        ensures { self.new.members ≡ self.old.members }
    {
        mem::replace(&mut self.left, Vec::new(self.alloc))
    }
}
