//! Holding other sites for gone, as an operator orders it.
use geo_site::RetireError;
use geo_station::{CallError, Room, Seat, Station};
use std::alloc::Global;
use std::sync::Wait;

/// What came of an order to retire a site.
#[derive(Clone, Copy, Debug, PartialEq, Eq)]
pub(crate) enum Retiring {
    /// It is held for gone from now on.
    Done,
    /// It was already.
    Nothing,
    /// By the number of the cause: 1 there is no such other site, 2 memory was refused, 3 the seat has made as many steps as it may.
    Refused(u8),
}

impl Retiring {
    /// The line that the operator is told.
    pub(crate) fn line(self) -> &'static [u8] {
        match self {
            Retiring::Done => b"retired\n",
            Retiring::Nothing => b"nothing\n",
            Retiring::Refused(1) => b"refused 1\n",
            Retiring::Refused(2) => b"refused 2\n",
            Retiring::Refused(_) => b"refused 3\n",
        }
    }
}

/// A seat of a site's station, by which whoever hears the operator has other sites held for gone.
#[derive(Drop)]
pub(crate) struct Registrar<'a, L: Room> {
    station: &'a Station<L>,
    seat: Seat<L>,
}

impl<'a, L: Room> Registrar<'a, L> {
    pub(crate) fn new(station: &'a Station<L>, seat: Seat<L>) -> Registrar<'a, L> {
        Registrar { station, seat }
    }

    /// Has another site held for gone.
    pub(crate) fn retire<R: Wait>(&mut self, rt: &R, alloc: Global, other: u8) -> Retiring {
        match self.station.retire(rt, alloc, &mut self.seat, other) {
            Ok(true) => Retiring::Done,
            Ok(false) => Retiring::Nothing,
            Err(CallError::Site(RetireError::NoSuchSite)) => Retiring::Refused(1),
            Err(CallError::Site(RetireError::Memory)) => Retiring::Refused(2),
            Err(CallError::SeatSpent) => Retiring::Refused(3),
        }
    }

    /// The seat, as it was left.
    pub(crate) fn into_seat(self) -> Seat<L> {
        let Registrar { seat, .. } = self;
        seat
    }
}
