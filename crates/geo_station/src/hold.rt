//! A station that a thread holds from one request to the next.
ghost use Rattle.std.specs.Prelude.{◌≡◌, ◌⊎◌, ◌+◌, ◌≤◌, ◌^◌, IfOk, IsErr};
ghost use Rattle.geo_history.specs.Keeping.{most_steps};

use crate::desk::{Desk, Unmade};
use crate::refusal::SeatSpent;
use crate::seat::Seat;
use crate::station::Station;
use geo_journal::Room;
use geo_requests::{Reply, Request};
use std::alloc::Global;
use std::marker::Model;
use std::sync::{MutexGuard, Wait};

/// How many requests a station is held for at most.
const MOST_HELD: usize = 64;

/// Once they brought and showed so many bytes it is let go, so that nobody waits long.
const MOST_DATA: usize = 262_144;

/// How many bytes of data a request brings.
fn brought(request: &Request) -> usize {
    match request {
        Request::Store { bytes, .. } => bytes.len(),
        _ => 0,
    }
}

/// How many bytes of data a reply shows.
fn shown(reply: &Reply) -> usize {
    let Reply::Values(found) = reply else {
        return 0;
    };
    let mut sum = 0usize;
    for one in found.as_slice() {
        sum = sum.saturating_add(one.bytes.len());
    }
    sum
}

/// A station that a thread may hold from one request to the next, so that the lock is taken once for many and nobody comes between them. At
/// a station whose history is logged each request takes the lock alone. Contracts see nothing of it. A thread that holds a station asks
/// it by this hold alone until [`Hold::rest`]: any other call would wait for itself.
#[derive(Drop)]
pub struct Hold<'a, L: Room> {
    desk: Option<MutexGuard<'a, Desk<L>>>,
    // So many requests more, and so many bytes.
    left: usize,
    data: usize,
}

impl<'a, L: Room> Model for Hold<'a, L> {
    ghost use Rattle.std.specs.Prelude.{ℕ};

    ghost Value = { ℕ };

    ghost view = { λ _. 0 };
}

impl<'a, L: Room> Hold<'a, L> {
    ghost use Rattle.geo_requests.specs.declared.reply.Reply.TheVariants.{OutOfMemory};
    ghost use Rattle.geo_station.specs.Calls.{ActsBy};
    ghost use Rattle.geo_station.specs.Receipts.{IsAnswer};
    ghost use Rattle.geo_station.specs.Wholes.{AddsReply};

    /// Nothing is held.
    pub fn none() -> Hold<'a, L> {
        Hold {
            desk: None,
            left: 0,
            data: 0,
        }
    }

    /// Lets the station go, if it is held.
    pub fn rest(&mut self)
        ensures { self.new ≡ self.old }
    {
        self.desk = None;
    }

    /// What lies under the lock, which is taken where it isn't held, or was for long.
    fn taken(&mut self, rt: &impl Wait, station: &'a Station<L>) -> MutexGuard<'a, Desk<L>> {
        if self.left == 0 || self.data == 0 {
            self.desk = None;
            self.left = MOST_HELD;
            self.data = MOST_DATA;
        }
        self.left = self.left.saturating_sub(1);
        match self.desk.take() {
            Some(desk) => desk,
            None => station.held(rt),
        }
    }

    /// Answers a request as [`Station::act`] does, and holds the station where it logs no history. The SHA-256 of a value is computed under
    /// the lock where it isn't known.
    pub fn act(
        &mut self,
        rt: &impl Wait,
        station: &'a Station<L>,
        alloc: Global,
        seat: &mut Seat<L>,
        now: u64,
        request: Request,
    ) -> Result<Reply, SeatSpent>
        requires { now ≤ 2 ^ 40 }
        ensures acts { ActsBy seat.old seat.new now request result }
        ensures adds { AddsReply seat.old.mark seat.new.mark now request result }
        ensures answered { IfOk result (λ reply. (reply ≡ OutOfMemory) ⊎ IsAnswer seat.old.mark.number now request reply) }
        ensures limit { seat.old.steps ≡ most_steps → IsErr result }
        ensures spent { IsErr result → most_steps ≤ seat.old.steps + 1 }
    {
        if seat.calls.logged {
            self.rest();
            return station.act(rt, alloc, seat, now, request);
        }
        let Seat { account, .. } = seat;
        if account.is_spent() {
            return Err(SeatSpent);
        }
        let mut desk = self.taken(rt, station);
        self.data = self.data.saturating_sub(brought(&request));
        let mut ended = Ok(Vec::new(alloc));
        let done = desk.act(alloc, account, now, request, &mut ended);
        self.desk = Some(desk);
        station.leave(rt, ended);
        match done {
            Ok((reply, _)) => {
                self.data = self.data.saturating_sub(shown(&reply));
                Ok(reply)
            }
            Err(Unmade::Memory) => Ok(Reply::OutOfMemory),
            Err(Unmade::Spent) => Err(SeatSpent),
        }
    }
}
