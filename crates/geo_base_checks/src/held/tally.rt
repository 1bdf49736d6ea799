//! That the calls succeed where there is memory, what a read finds, and sums that threads made, worked out by hand.
ghost use Rattle.std.specs.Prelude.{◌≡◌, All, IfSome};

use geo_tally::{Counter, Tally, TallyError, TallySeat};
use std::alloc::Global;
use std::process::Abort;
use std::test::Fail;
use std::thread;
use std::thread::Threads;

/// In the order of the sums.
const COUNTERS: [Counter; 5] = [
    Counter::Sessions,
    Counter::Requests,
    Counter::Faults,
    Counter::Rounds,
    Counter::FramesRefused,
];

/// How many seats are wanted, and how many are given: 1 to 256.
const SEATS: [(usize, Result<usize, TallyError>); 5] = [
    (0, Err(TallyError::Seats)),
    (1, Ok(1)),
    (2, Ok(2)),
    (256, Ok(256)),
    (257, Err(TallyError::Seats)),
];

fn given(alloc: Global, seats: usize) -> Result<usize, TallyError> {
    let (_tally, given) = Tally::new(alloc, seats)?;
    Ok(given.len())
}

/// What a seat reads of each counter.
fn reads(tally: &Tally, seat: &mut TallySeat) -> [u64; 5]
    requires { seat.old.tally ≡ tally.now.tally }
{
    [
        tally.read(seat, Counter::Sessions),
        tally.read(seat, Counter::Requests),
        tally.read(seat, Counter::Faults),
        tally.read(seat, Counter::Rounds),
        tally.read(seat, Counter::FramesRefused),
    ]
}

/// What a seat of a new tally reads of each counter.
fn new_reads(alloc: Global) -> Option<[u64; 5]> {
    let (tally, mut seats) = Tally::new(alloc, 2).ok()?;
    let mut seat = seats.pop()?;
    Some(reads(&tally, &mut seat))
}

/// The sums of a new tally.
fn new_sums(alloc: Global, seats: usize) -> Option<[u64; 5]> {
    let (tally, seats) = Tally::new(alloc, seats).ok()?;
    tally.close(seats).ok()
}

#[test]
fn a_tally_has_1_to_256_seats_and_five_counters(rt: HostRuntime) {
    for (seats, want) in SEATS {
        assert_eq!(rt; given(rt.alloc(), seats), want);
    }
    for (place, counter) in COUNTERS.into_iter().enumerate() {
        assert_eq!(rt; counter.place(), place);
    }
    assert_eq!(rt; new_reads(rt.alloc()), Some([0; 5]));
    assert_eq!(rt; new_sums(rt.alloc(), 256), Some([0; 5]));
}

/// Adds so often to one counter, and tells whether each time a read finds what the seat added, or more.
fn adds(tally: &Tally, seat: &mut TallySeat, times: u64) -> bool
    requires { seat.old.tally ≡ tally.now.tally }
    ensures { seat.new.tally ≡ seat.old.tally }
{
    for done in 0..times {
        if tally.add(seat, Counter::Requests).is_err() {
            return false;
        }
        if tally.read(seat, Counter::Requests) <= done {
            return false;
        }
    }
    true
}

fn add_often(rt: &impl Abort, tally: &Tally, mut seat: TallySeat, times: u64) -> TallySeat
    requires { seat.tally ≡ tally.now.tally }
    ensures { result.tally ≡ tally.now.tally }
{
    assert!(rt; adds(tally, &mut seat, times));
    seat
}

/// The sums after as many threads as seats added a thousand requests each.
fn sums_of_threads<R: Threads + Abort + Sync>(
    rt: &R,
    tally: Tally,
    seats: Vec<TallySeat>,
) -> Result<[u64; 5], Fail>
    requires { All (λ s. s.tally ≡ tally.tally) seats.items }
{
    let shared = &tally;
    let back = thread::map_vec(
        rt,
        seats,
        &|seat| -> TallySeat
            requires { seat.tally ≡ shared.now.tally }
            ensures { result.tally ≡ shared.entry.now.tally }
        { add_often(rt, shared, seat, 1000) },
    )?;
    Ok(tally.close(back).ok().ok_or("a seat is missing")?)
}

#[test]
fn three_threads_add_a_thousand_each(rt: HostRuntime) -> Result<(), Fail> {
    let (tally, seats) = Tally::new(rt.alloc(), 3).ok().ok_or("no tally")?;
    assert_eq!(rt; sums_of_threads(&rt, tally, seats)?, [0, 3000, 0, 0, 0]);
    Ok(())
}

/// Adds to one counter so often, and tells how much was added to it by all seats: nothing where an add was refused.
fn add_to(tally: &Tally, seat: &mut TallySeat, counter: Counter, times: usize) -> u64
    requires { seat.old.tally ≡ tally.now.tally }
    ensures { seat.new.tally ≡ seat.old.tally }
{
    for _ in 0..times {
        if tally.add(seat, counter).is_err() {
            return 0;
        }
    }
    tally.read(seat, counter)
}

/// Adds to each counter, to the first once, to the second twice, and so on, and tells how much was added to each by all seats.
fn add_to_each(tally: &Tally, seat: &mut TallySeat) -> [u64; 5]
    requires { seat.old.tally ≡ tally.now.tally }
    ensures { seat.new.tally ≡ seat.old.tally }
{
    [
        add_to(tally, seat, Counter::Sessions, 1),
        add_to(tally, seat, Counter::Requests, 2),
        add_to(tally, seat, Counter::Faults, 3),
        add_to(tally, seat, Counter::Rounds, 4),
        add_to(tally, seat, Counter::FramesRefused, 5),
    ]
}

/// What is read while two seats add to each counter, and the sums at the end.
type Added = ([u64; 5], [u64; 5], Option<[u64; 5]>);

/// Puts the seats of a tally of two together again, and closes it.
fn closed(
    tally: Tally,
    first: TallySeat,
    second: TallySeat,
    all: Vec<TallySeat>,
) -> Option<[u64; 5]>
    requires tally { (first.tally ≡ tally.tally) × (second.tally ≡ tally.tally) }
    requires all { All (λ s. s.tally ≡ tally.tally) all.items }
{
    let mut all = all;
    all.push(first).ok()?;
    all.push(second).ok()?;
    tally.close(all).ok()
}

/// Two seats add to each counter.
fn sums_of_two(alloc: Global) -> Option<Added> {
    let (tally, mut seats) = Tally::new(alloc, 2).ok()?;
    let mut first = seats.pop()?;
    let mut second = seats.pop()?;
    let one = add_to_each(&tally, &mut first);
    let two = add_to_each(&tally, &mut second);
    Some((one, two, closed(tally, first, second, seats)))
}

#[test]
fn each_counter_is_added_to_alone(rt: HostRuntime) {
    let added = sums_of_two(rt.alloc());
    let wanted = ([1, 2, 3, 4, 5], [2, 4, 6, 8, 10], Some([2, 4, 6, 8, 10]));
    assert_eq!(rt; added, Some(wanted));
}

/// What comes back where a seat is missing.
fn refused(tally: Tally, seats: Vec<TallySeat>) -> Option<(Tally, Vec<TallySeat>)>
    requires { All (λ s. s.tally ≡ tally.tally) seats.items }
    ensures tally { IfSome result (λ back. back.0 ≡ tally) }
    ensures seats { IfSome result (λ back. back.1 ≡ seats) }
{
    tally.close(seats).err()
}

/// What a seat reads after a close without it, how many seats came back, and the sums of another close with both.
type Refused = (u64, usize, Option<[u64; 5]>);

/// Closes a tally without a seat, which adds once, and then with it.
fn close_twice(tally: Tally, missing: TallySeat, others: Vec<TallySeat>) -> Option<Refused>
    requires tally { missing.tally ≡ tally.tally }
    requires others { All (λ s. s.tally ≡ tally.tally) others.items }
{
    let mut missing = missing;
    tally.add(&mut missing, Counter::Rounds).ok()?;
    let (tally, mut back) = refused(tally, others)?;
    let many = back.len();
    let read = tally.read(&mut missing, Counter::Rounds);
    back.push(missing).ok()?;
    Some((read, many, tally.close(back).ok()))
}

/// The same with a tally of two seats.
fn close_two_twice(alloc: Global) -> Option<Refused> {
    let (tally, mut seats) = Tally::new(alloc, 2).ok()?;
    let missing = seats.pop()?;
    close_twice(tally, missing, seats)
}

#[test]
fn a_missing_seat_brings_all_back(rt: HostRuntime) {
    assert_eq!(rt;
        close_two_twice(rt.alloc()),
        Some((1, 1, Some([0, 0, 0, 1, 0])))
    );
}
