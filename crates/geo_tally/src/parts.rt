//! The first seat is cut into all, and at the end all are put into one again.
ghost use Rattle.std.specs.Prelude.{◌≡◌, ◌+◌, ◌≤◌, All, [], vec_len, vec_capacity};
ghost use Rattle.geo_tally.specs.Counts.{no_counts, together, all_together};
ghost use Rattle.geo_tally.specs.Words.{adds};

use crate::rule::{Adds, OnePart, Sums, Together};
use crate::seat::TallySeat;
use atomic_table::{Seat, Table};
use std::alloc::Global;

/// A word for each counter.
pub(crate) type Words = Table<(), Adds, usize, Sums, Global>;

/// Cuts the first seat, which has all parts, into as many seats, each with one.
pub(crate) fn cut(
    table: &Words,
    mut first: Seat<(), Adds>,
    seats: usize,
    mut all: Vec<TallySeat>,
) -> Vec<TallySeat>
    requires words { table.now.shared.table_id.words ≡ 5 }
    requires given { first.table_id ≡ table.now.shared.table_id }
    requires whole { first.me ≡ (adds seats no_counts, []) }
    requires some { 1 ≤ seats }
    requires room { (all.items ≡ []) × (seats ≤ vec_capacity all) }
    ensures many { vec_len result ≡ seats }
    ensures given { All (λ s. s.tally ≡ table.now.shared.table_id) result.items }
    ensures unused { All (λ s. s.counts ≡ no_counts) result.items }
{
    for _ in 1..seats {
        let seat = table.shared.split_seat::<OnePart>(&mut first);
        all.push_reserved(TallySeat::unused(seat));
    }
    all.push_reserved(TallySeat::unused(first));
    all
}

// Puts what one seat has into another.
fn put_in(table: &Words, all: &mut Seat<(), Adds>, one: TallySeat)
    requires words { table.now.shared.table_id.words ≡ 5 }
    requires given { (all.old.table_id ≡ table.now.shared.table_id) × (one.tally ≡ table.now.shared.table_id) }
    ensures given { all.new.table_id ≡ all.old.table_id }
    ensures together { all.new.me.0 ≡ adds (all.old.me.0.parts + 1) (together all.old.me.0.counts one.counts) }
{
    let TallySeat { seat, .. } = one;
    table.shared.join_seat::<Together>(all, seat);
}

// Puts what all seats have into one.
pub(crate) fn gather(table: &Words, seats: Vec<TallySeat>) -> Seat<(), Adds>
    requires words { table.now.shared.table_id.words ≡ 5 }
    requires given { All (λ s. s.tally ≡ table.now.shared.table_id) seats.items }
    requires some { 1 ≤ vec_len seats }
    ensures given { result.table_id ≡ table.now.shared.table_id }
    ensures parts { result.me.0.parts ≡ vec_len seats }
    ensures counts { result.me.0.counts ≡ all_together (λ s. s.counts) seats.items }
{
    let mut rest = seats.into_iter();
    let Some(first) = rest.next() else {
        unreachable!()
    };
    let TallySeat { mut seat, .. } = first;
    for one in rest {
        put_in(table, &mut seat, one);
    }
    seat
}
