//! The counters.
ghost use Rattle.std.specs.Prelude.{◌≡◌, ◌↔◌, ◌⊎◌, ◌<◌, ◌≤◌, ◌*◌, All, IsErr, IfOk, IfErr, OnOk, OnErr, Err, vec_len};
ghost use Rattle.geo_tally.specs.Counts.{count_of, no_counts, all_together, in_order};
ghost use Rattle.geo_tally.specs.Words.{most_adds, most_seats};
ghost use Rattle.geo_tally.specs.Seats.{added, adds_of};

use crate::counter::Counter;
use crate::parts::{Words, cut, gather};
use crate::rule::{AddOne, Look};
use crate::seat::{MOST_ADDS, Spent, TallySeat};
use std::alloc::Global;
use std::marker::Model;
use thiserror::Error;

/// The most seats of a tally.
pub const MOST_SEATS: usize = 256;

/// Why there is no tally.
#[derive(Clone, Copy, Debug, PartialEq, Eq, Error)]
pub enum TallyError {
    /// No seat, or more than 256.
    #[error("no seat, or more than 256")]
    Seats,
    /// Memory was wanted and refused.
    #[error("out of memory")]
    Memory,
}

/// A word for each counter. Threads share it by a `&`, each with a seat of its own. Contracts see it as which tally it is, and how many
/// seats it gave.
#[derive(Drop)]
pub struct Tally {
    table: Words,
    seats: usize,
}

impl Model for Tally {
    ghost use Rattle.geo_tally.specs.Seats.{TallyView, IsTallyTable};

    ghost Value = { TallyView };

    ghost view = { λ t. record { tally = t.table.shared.table_id; seats = t.seats } };

    ghost invariant = { λ t. IsTallyTable t.table.shared.table_id t.table.shared.key t.seats };
}

impl Tally {
    /// A tally with all counters at 0, and so many seats of it, 1 to 256, which have added nothing. Seats where it is another number,
    /// Memory where memory was wanted and refused. No other call takes memory.
    pub fn new(alloc: Global, seats: usize) -> Result<(Tally, Vec<TallySeat>), TallyError>
        ensures refused { (result ≡ Err TallyError.Seats) ↔ ((seats < 1) ⊎ (most_seats < seats)) }
        ensures tally { IfOk result (λ made. made.0.seats ≡ seats) }
        ensures many { IfOk result (λ made. vec_len made.1 ≡ seats) }
        ensures given { IfOk result (λ made. All (λ s. s.tally ≡ made.0.tally) made.1.items) }
        ensures unused { IfOk result (λ made. All (λ s. s.counts ≡ no_counts) made.1.items) }
    {
        if seats < 1 || seats > MOST_SEATS {
            return Err(TallyError::Seats);
        }
        let Ok(room) = Vec::with_capacity(alloc, seats) else {
            return Err(TallyError::Memory);
        };
        let Ok((table, first)) = Words::of_words(alloc, &[0; 5], &seats) else {
            return Err(TallyError::Memory);
        };
        let all = cut(&table, first, seats, room);
        Ok((Tally { table, seats }, all))
    }

    /// Adds one to a counter. Spent where the seat has added 2^40 times. It waits for nobody, and takes no memory.
    pub fn add(&self, seat: &mut TallySeat, counter: Counter) -> Result<(), Spent>
        requires given { seat.old.tally ≡ self.now.tally }
        ensures given { seat.new.tally ≡ seat.old.tally }
        ensures spent { IsErr result ↔ (adds_of seat.old ≡ most_adds) }
        ensures added { OnOk result (seat.new ≡ added counter seat.old) }
        ensures unchanged { OnErr result (seat.new ≡ seat.old) }
    {
        if seat.adds == MOST_ADDS {
            return Err(Spent);
        }
        self.table
            .shared
            .fetch_add::<AddOne>(&mut seat.seat, counter.place(), 1);
        seat.adds += 1;
        Ok(())
    }

    /// How much all seats have added to a counter at this moment, at most 2^48. It waits for nobody, and takes no memory.
    pub fn read(&self, seat: &mut TallySeat, counter: Counter) -> u64
        requires given { seat.old.tally ≡ self.now.tally }
        ensures own { count_of counter seat.old.counts ≤ result }
        ensures range { result ≤ most_seats * most_adds }
        ensures unchanged { seat.new ≡ seat.old }
    {
        self.table
            .shared
            .load::<Look>(&mut seat.seat, counter.place())
    }

    /// The sums of what the seats added, in the counters' order. Where fewer seats are handed in than the tally gave, it and they come
    /// back.
    pub fn close(self, seats: Vec<TallySeat>) -> Result<[u64; 5], (Tally, Vec<TallySeat>)>
        requires given { All (λ s. s.tally ≡ self.tally) seats.items }
        ensures missing { IsErr result ↔ (vec_len seats < self.seats) }
        ensures sums { IfOk result (λ sums. sums ≡ in_order (all_together (λ s. s.counts) seats.items)) }
        ensures tally_back { IfErr result (λ back. back.0 ≡ self) }
        ensures seats_back { IfErr result (λ back. back.1 ≡ seats) }
    {
        if seats.len() < self.seats {
            return Err((self, seats));
        }
        let Tally { table, .. } = self;
        let all = gather(&table, seats);
        let closed = table.close_with(all);
        let sums = [
            closed.word(0),
            closed.word(1),
            closed.word(2),
            closed.word(3),
            closed.word(4),
        ];
        closed.free();
        Ok(sums)
    }
}
