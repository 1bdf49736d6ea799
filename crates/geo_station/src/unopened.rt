//! What a station is opened from.
ghost use Rattle.std.specs.Prelude.{◌≡◌, IfOk};
ghost use Rattle.geo_history.specs.Stories.{IsNew};

use geo_history::Kept;
use geo_journal::{Start, Unnamed};
use std::alloc::{AllocError, Global};
use std::marker::Model;
use std::sync::ledger::Blank;

/// A station that no type stands for yet: an empty site, a ledger with a part for each seat, and a history without steps.
#[derive(Drop)]
pub struct Unopened {
    pub(crate) blank: Blank,
    pub(crate) fresh: Unnamed,
    pub(crate) kept: Kept,
    pub(crate) seats: u64,
}

impl Model for Unopened {
    ghost use Rattle.std.specs.Prelude.{◌≡◌};
    ghost use Rattle.geo_history.specs.Stories.{setup_in, IsNew};
    ghost use Rattle.geo_journal.specs.Marks.{start_of};
    ghost use Rattle.geo_station.specs.Seats.{Named};

    ghost Value = { Named };

    ghost view = { λ u. record { name = u.blank.name; parts = u.seats; table = u.fresh.table } };

    ghost invariant = { λ u. (u.blank.parts ≡ u.seats) × (u.fresh.start ≡ start_of (setup_in u.kept))
        × IsNew u.kept };
}

impl Unopened {
    /// A station of so many seats round an empty site. It takes 8 bytes of memory.
    pub fn new(alloc: Global, kept: Kept, seats: u64) -> Result<Unopened, AllocError>
        requires { IsNew kept }
        ensures { IfOk result (λ unopened. unopened.parts ≡ seats) }
    {
        let fresh = Unnamed::new(alloc, Start::of(kept.setup()))?;
        Ok(Unopened {
            blank: Blank::new(seats),
            fresh,
            kept,
            seats,
        })
    }
}
