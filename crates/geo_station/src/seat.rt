//! What a thread calls a station with.
ghost use Rattle.std.specs.Prelude.{◌≡◌, [], true};
ghost use Rattle.geo_station.specs.Seats.{trimmed};

use crate::account::Account;
use crate::call::Call;
use crate::calls::Calls;
use geo_journal::Room;
use std::marker::Model;

/// What a thread calls a station with. It keeps its requests, sends and takes with the answers that it was handed, in order, until
/// [`Seat::forget`]; at a station whose history is not logged it keeps none.
#[derive(Drop)]
pub struct Seat<L: Room> {
    pub(crate) account: Account<L>,
    pub(crate) calls: Calls,
    pub(crate) forgot: bool,
}

impl<L: Room> Model for Seat<L> {
    ghost use Rattle.geo_station.specs.Seats.{Seated};

    ghost Value = { Seated };

    ghost view = { λ s. record { mark = s.account.mark; steps = s.account.count; calls = s.calls.list.items; forgot = s.forgot; logged = s.calls.logged } };
}

impl<L: Room> Seat<L> {
    /// The calls that it keeps.
    pub fn calls(&self) -> &[Call]
        ensures { result.now ≡ self.now.calls }
    {
        self.calls.as_slice()
    }

    /// Lets go of the calls that it keeps. It takes no memory.
    pub fn forget(&mut self)
        ensures { self.new ≡ record self.old { calls = []; forgot = true } }
    {
        self.calls.clear();
        self.forgot = true;
    }

    /// Lets go of the calls that it keeps where they are 1,024 or more, or keep 4 MiB or more, as whoever calls for long does before
    /// each call.
    pub fn trim(&mut self)
        ensures { self.new ≡ trimmed self.old }
    {
        if self.calls.is_long() {
            self.forget();
        }
    }
}
