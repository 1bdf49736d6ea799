//! The right of one thread to add.
ghost use Rattle.std.specs.Prelude.{◌≡◌, []};

use crate::rule::Adds;
use atomic_table::Seat;
use std::marker::Model;
use thiserror::Error;

/// How often a seat can add, to all counters together.
pub const MOST_ADDS: u64 = 1 << 40;

/// The seat has added 2^40 times.
#[derive(Clone, Copy, Debug, PartialEq, Eq, Error)]
#[error("the seat has added 2^40 times")]
pub struct Spent;

/// The right of one thread to add to the tally that gave it. It can't be copied. Contracts see it as which tally that is, and how much it
/// added to each counter. A tally whose seat is dropped can't be closed.
#[derive(Drop)]
pub struct TallySeat {
    pub(crate) seat: Seat<(), Adds>,
    pub(crate) adds: u64,
}

impl Model for TallySeat {
    ghost use Rattle.geo_tally.specs.Seats.{SeatView, IsSeat};

    ghost Value = { SeatView };

    ghost view = { λ s. record { tally = s.seat.table_id; counts = s.seat.me.0.counts } };

    ghost invariant = { λ s. IsSeat s.seat.me s.adds };
}

impl TallySeat {
    ghost use Rattle.geo_tally.specs.Words.{one_part};
    ghost use Rattle.geo_tally.specs.Seats.{unused};

    /// A seat that has added nothing.
    pub(crate) fn unused(seat: Seat<(), Adds>) -> TallySeat
        requires { seat.me ≡ (one_part, []) }
        ensures { result ≡ unused seat.table_id }
    {
        TallySeat { seat, adds: 0 }
    }
}
