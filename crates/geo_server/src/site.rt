//! One site with its threads.
ghost use Rattle.std.specs.Prelude.{◌≡◌, ℕ, [], IfOk, IfSome};
ghost use Rattle.std.specs.List.{All};
ghost use Rattle.geo_tally.specs.Counts.{all_together, in_order};
ghost use Rattle.geo_history.specs.Stories.{IsNew};

use crate::adding::add;
use crate::counting::{Clerk, Counting, Named, Rested};
use crate::duty::Duty;
use crate::mailbox::Mailbox;
use crate::registrar::Registrar;
use crate::start::Start;
use crate::threads::run_all;
use crate::worker::{HANDED_IN, Worker};
use geo_gossip::Peer;
use geo_history::{History, Kept};
use geo_link::Link;
use geo_session::Gate;
use geo_station::{Room, Seat, Station, Unopened};
use geo_tally::{Tally, TallySeat};
use geo_wires::{ClusterFault, Lead};
use mio::{Poll, Waker};
use std::alloc::Global;
use std::marker::{Brand, PhantomData};
use std::net::Net;
use std::sync::Wait;
use std::sync::atomic::{AtomicU64, Ordering};
use std::thread::Threads;
use std::time::Duration;
use std::{io, rt};

/// What the threads of all sites share.
#[derive(Drop)]
pub(crate) struct Course<'a, G> {
    /// What all sessions pass.
    pub(crate) gate: &'a G,
    /// By which all threads begin together.
    pub(crate) start: Start,
    /// How many workers there are, of all sites, for whom clients may still come.
    pub(crate) working: AtomicU64,
    /// 1 once the cluster stops.
    pub(crate) stop: &'a AtomicU64,
    /// How far it has gone in letting clients go before that, where somebody told it to stop: 1 whoever rests goes, 2 all do.
    pub(crate) closing: AtomicU64,
    /// Between two rounds, and between two maintenances.
    pub(crate) every: Duration,
    /// After how many steps a site's history begins anew.
    pub(crate) era: u64,
    /// Whether sites ask each other for bytes that they lack.
    pub(crate) fills: bool,
}

impl<G> Course<'_, G> {
    /// A thread has come. Whether it is to begin, once all have.
    pub(crate) fn comes<R: Wait>(&self, rt: &R) -> bool {
        self.start.comes(rt, self.stop)
    }

    /// Nobody begins any more.
    pub(crate) fn abandon(&self) {
        self.start.abandon(self.stop);
    }

    /// No client comes to a worker any more. After the last worker the cluster stops.
    pub(crate) fn worker_ends(&self) {
        if self.working.fetch_sub(1, Ordering::SeqCst) == 1 {
            self.stop.store(1, Ordering::SeqCst);
            self.stop.wake_all();
        }
    }

    /// Whether the cluster stops.
    pub(crate) fn stops(&self) -> bool {
        self.stop.load(Ordering::SeqCst) != 0
    }

    /// Waits until the cluster stops, for so long at most.
    pub(crate) fn waits_for_the_end<R: Wait>(&self, rt: &R, most: Duration) {
        if !self.stops() {
            self.stop.park_timeout(rt, 0, most);
        }
    }

    /// Whether the cluster stops within this time.
    pub(crate) fn stops_within<R: Wait>(&self, rt: &R, time: Duration) -> bool {
        self.waits_for_the_end(rt, time);
        self.stops()
    }

    /// Clients that rest are let go.
    pub(crate) fn closes(&self) {
        self.closing.store(1, Ordering::SeqCst);
    }

    /// All clients are let go.
    pub(crate) fn cuts_off(&self) {
        self.closing.store(2, Ordering::SeqCst);
    }
}

/// A site that knows nothing and has made no step.
#[derive(Drop)]
pub(crate) struct Fresh {
    pub(crate) kept: Kept,
    ghost empty: { IsNew kept },
}

/// Who lets the clients of a site in.
pub(crate) trait Door {
    /// Lets them in, and hands each to a worker, until no more are to come. Where an operator is heard meanwhile, sites are retired by the
    /// registrar.
    fn attend<R: Wait + rt::Clock, L: Room, G>(
        self,
        rt: &R,
        alloc: Global,
        course: &Course<'_, G>,
        registrar: &mut Registrar<'_, L>,
        mailboxes: &[Mailbox],
    );
}

/// What a site is run with: P is the kind of the links that it puts on, Q of those from which it gets, D lets its clients in.
#[derive(Drop)]
pub(crate) struct Job<P, Q, D> {
    pub(crate) fresh: Fresh,
    pub(crate) crew: Crew<P, Q>,
    pub(crate) posts: Posts,
    pub(crate) door: D,
}

/// The threads of a site beside the one that lets clients in.
#[derive(Drop)]
pub(crate) struct Crew<P, Q> {
    pub(crate) workers: usize,
    /// To the other sites: a thread puts on the links of each list.
    pub(crate) peers: Vec<Vec<Peer<P>>>,
    /// From the other sites.
    pub(crate) froms: Vec<Q>,
}

/// What is known of a site once its threads have ended.
#[derive(Drop)]
pub(crate) struct Summary {
    /// What was done at it; none where the seats tell another story.
    pub(crate) history: Option<History>,
    /// The sums of its tally, in the counters' order.
    pub(crate) sums: [u64; 5],
}

/// The next seat of a tally that wasn't used yet.
fn next_counting<'a, N: Named>(
    tally: &'a Tally,
    seats: &mut Vec<TallySeat>,
) -> Option<Counting<'a, N>>
    requires given { All (λ s. s.tally ≡ tally.now.tally) seats.old.items }
    requires named { tally.now.tally ≡ N.tally }
    ensures given { All (λ s. s.tally ≡ tally.now.tally) seats.new.items }
{
    let seat = seats.pop()?;
    Some(Counting::new(tally, seat))
}

/// What the threads of a site are given, while it is put together.
#[derive(Drop)]
struct Duties<'a, L: Room, N: Named, P: Lead + Drop, Q: Link + Drop> {
    station: &'a Station<L>,
    tally: &'a Tally,
    counts: Vec<TallySeat>,
    all: Vec<Duty<'a, L, N, P, Q>>,
    of: PhantomData<N>,
    ghost given: { All (λ s. s.tally ≡ tally.now.tally) counts.items },
    ghost named: { tally.now.tally ≡ N.tally },
}

impl<'a, L: Room, N: Named, P: Lead + Drop, Q: Link + Drop> Duties<'a, L, N, P, Q> {
    /// A seat of the station and one of the tally. There are as many of both as threads that need them.
    fn seats<R: Wait>(
        &mut self,
        rt: &R,
        alloc: Global,
    ) -> Result<(Seat<L>, Counting<'a, N>), ClusterFault> {
        let Ok(seat) = self.station.seat(rt, alloc) else {
            return Err(ClusterFault::Memory);
        };
        match next_counting(self.tally, &mut self.counts) {
            Some(counting) => Ok((seat, counting)),
            None => Err(ClusterFault::Memory),
        }
    }

    fn add(&mut self, duty: Duty<'a, L, N, P, Q>) -> Result<(), ClusterFault> {
        add(&mut self.all, duty)
    }

    /// A worker for clients.
    fn serve<R: Wait>(
        &mut self,
        rt: &R,
        alloc: Global,
        worker: Worker<'a>,
    ) -> Result<(), ClusterFault> {
        let (seat, counting) = self.seats(rt, alloc)?;
        self.add(Duty::Serve(Clerk::new(self.station, seat, counting), worker))
    }

    /// A thread that tells other sites.
    fn tell<R: Wait>(
        &mut self,
        rt: &R,
        alloc: Global,
        peers: Vec<Peer<P>>,
    ) -> Result<(), ClusterFault> {
        let (seat, counting) = self.seats(rt, alloc)?;
        self.add(Duty::Gossip(seat, counting, peers))
    }

    /// The thread that maintains the site.
    fn keep_up<R: Wait>(&mut self, rt: &R, alloc: Global) -> Result<(), ClusterFault> {
        let (seat, counting) = self.seats(rt, alloc)?;
        self.add(Duty::Maintain(seat, counting))
    }

    /// A thread that takes what another site tells.
    fn receive<R: Wait>(&mut self, rt: &R, alloc: Global, from: Q) -> Result<(), ClusterFault> {
        let (seat, counting) = self.seats(rt, alloc)?;
        self.add(Duty::Receive(seat, counting, from))
    }
}

/// Who does what at a site.
#[derive(Drop)]
struct Roles<'a, L: Room, N: Named, P: Lead + Drop, Q: Link + Drop> {
    /// One for each thread beside the one that lets clients in.
    duties: Vec<Duty<'a, L, N, P, Q>>,
    /// The seats of that one.
    seat: Seat<L>,
    counting: Counting<'a, N>,
}

/// Gives each thread its duty, in the order of workers, gossip, maintenance and links, and the one that lets clients in its seats.
fn assigned<'a, R: Wait, L: Room, N: Named, P: Lead + Drop, Q: Link + Drop>(
    rt: &R,
    alloc: Global,
    mut given: Duties<'a, L, N, P, Q>,
    peers: Vec<Vec<Peer<P>>>,
    froms: Vec<Q>,
    workers: Vec<Worker<'a>>,
) -> Result<Roles<'a, L, N, P, Q>, ClusterFault> {
    for worker in workers {
        given.serve(rt, alloc, worker)?;
    }
    for some in peers {
        given.tell(rt, alloc, some)?;
    }
    given.keep_up(rt, alloc)?;
    for from in froms {
        given.receive(rt, alloc, from)?;
    }
    let (seat, counting) = given.seats(rt, alloc)?;
    let Duties { all, .. } = given;
    Ok(Roles {
        duties: all,
        seat,
        counting,
    })
}

/// Lets clients in while the threads do their duties, and gives the seats back once all have ended.
fn work<
    R: Threads + Wait + rt::Clock + Sync,
    L: Room + Send + Sync,
    N: Named + Send,
    P: Lead + Send + Drop,
    Q: Link + Send + Drop,
    D: Door + Drop,
    G: Gate,
>(
    rt: &R,
    alloc: Global,
    course: &Course<'_, G>,
    station: &Station<L>,
    roles: Roles<'_, L, N, P, Q>,
    door: D,
    mailboxes: &[Mailbox],
) -> Result<Vec<Rested<L, N>>, ClusterFault> {
    let Roles {
        duties,
        seat,
        counting,
    } = roles;
    let mut registrar = Registrar::new(station, seat);
    let mut rested = run_all(
        rt,
        alloc,
        &course.start,
        course.stop,
        duties,
        &|duty: Duty<'_, L, N, P, Q>| -> Rested<L, N> { duty.run(rt, alloc, course, station) },
        || {
            if course.comes(rt) {
                door.attend(rt, alloc, course, &mut registrar, mailboxes);
            }
        },
    )?;
    add(&mut rested, counting.into_rested(registrar.into_seat()))?;
    Ok(rested)
}

/// What waits for the workers' sockets, and where each gets its clients.
#[derive(Drop)]
pub(crate) struct Posts {
    polls: Vec<Poll>,
    mailboxes: Vec<Mailbox>,
}

/// What waits for the sockets of one worker, and where it gets its clients.
fn post<R: Net>(rt: &R, alloc: Global) -> io::Result<(Poll, Mailbox)> {
    let poll = Poll::new(rt)?;
    let waker = Waker::new(poll.registry(), HANDED_IN)?;
    Ok((poll, Mailbox::new(alloc, waker)))
}

/// What waits for so many workers' sockets, and where each gets its clients.
pub(crate) fn made_posts<R: Net>(
    rt: &R,
    alloc: Global,
    workers: usize,
) -> Result<Posts, ClusterFault> {
    let mut polls = Vec::new(alloc);
    let mut mailboxes = Vec::new(alloc);
    for _worker in 0..workers {
        match post(rt, alloc) {
            Ok((poll, mailbox)) => {
                add(&mut polls, poll)?;
                add(&mut mailboxes, mailbox)?;
            }
            Err(error) => return Err(ClusterFault::of_socket(&error)),
        }
    }
    Ok(Posts { polls, mailboxes })
}

/// A worker for each mailbox.
fn workers_of<'a>(
    alloc: Global,
    polls: Vec<Poll>,
    mailboxes: &'a [Mailbox],
    closing: &'a AtomicU64,
) -> Result<Vec<Worker<'a>>, ClusterFault> {
    let mut all = Vec::new(alloc);
    for (poll, mailbox) in polls.into_iter().zip(mailboxes) {
        add(&mut all, Worker::new(alloc, poll, mailbox, closing)?)?;
    }
    Ok(all)
}

/// How many seats a site needs: one for each worker, each thread that tells others and each link from another site, one for maintenance,
/// and one for whoever lets clients in and hears the operator.
fn seats_of<P, Q, D>(job: &Job<P, Q, D>) -> usize {
    let crew = &job.crew;
    crew.workers
        .saturating_add(crew.peers.len())
        .saturating_add(crew.froms.len())
        .saturating_add(2)
}

/// The seats that a site's threads have left.
#[derive(Drop)]
struct Left<L: Room> {
    seats: Vec<Seat<L>>,
    counts: Vec<TallySeat>,
}

/// The seats of the station, and those of the tally.
fn parted<L: Room, N: Named>(
    alloc: Global,
    rested: Vec<Rested<L, N>>,
) -> Result<Left<L>, ClusterFault>
    ensures { IfOk result (λ left. All (λ s. s.tally ≡ N.tally) left.counts.items) }
{
    let mut seats = Vec::new(alloc);
    let mut counts = Vec::new(alloc);
    for one in rested {
        let Rested {
            seat,
            counts: count,
            ..
        } = one;
        let (Ok(()), Ok(())) = (seats.push(seat), counts.push(count)) else {
            return Err(ClusterFault::Memory);
        };
    }
    Ok(Left { seats, counts })
}

/// The sums of what all seats of a tally have added. Where seats are missing, memory was refused for them.
fn sums_of(tally: Tally, seats: Vec<TallySeat>) -> Result<[u64; 5], ClusterFault>
    requires given { All (λ s. s.tally ≡ tally.tally) seats.items }
    ensures exact { IfOk result (λ sums. sums ≡ in_order (all_together (λ s. s.counts) seats.items)) }
{
    match tally.close(seats) {
        Ok(sums) => Ok(sums),
        Err(_) => Err(ClusterFault::Memory),
    }
}

/// Runs a site whose ledger and whose tally are named.
fn run_counted<
    R: Net + Threads + Wait + rt::Clock + Sync,
    L: Room + Send + Sync,
    N: Named + Send,
    P: Lead + Send + Drop,
    Q: Link + Send + Drop,
    D: Door + Drop,
    G: Gate,
>(
    rt: &R,
    alloc: Global,
    course: &Course<'_, G>,
    station: &Station<L>,
    tally: &Tally,
    counts: Vec<TallySeat>,
    job: Plan<P, Q, D>,
) -> Result<Left<L>, ClusterFault>
    requires given { All (λ s. s.tally ≡ tally.now.tally) counts.items }
    requires named { tally.now.tally ≡ N.tally }
    ensures { IfOk result (λ left. All (λ s. s.tally ≡ N.tally) left.counts.items) }
{
    let Plan { crew, posts, door } = job;
    let Crew { peers, froms, .. } = crew;
    let Posts { polls, mailboxes } = posts;
    let workers = workers_of(alloc, polls, mailboxes.as_slice(), &course.closing)?;
    let given: Duties<'_, L, N, P, Q> = Duties {
        station,
        tally,
        counts,
        all: Vec::new(alloc),
        of: PhantomData,
    };
    let roles = assigned(rt, alloc, given, peers, froms, workers)?;
    let rested = work(
        rt,
        alloc,
        course,
        station,
        roles,
        door,
        mailboxes.as_slice(),
    )?;
    parted(alloc, rested)
}

/// What a site's threads do.
#[derive(Drop)]
struct Plan<P, Q, D> {
    crew: Crew<P, Q>,
    posts: Posts,
    door: D,
}

/// Runs a site whose ledger is named.
fn run_named<
    R: Net + Threads + Wait + rt::Clock + Sync,
    L: Room + Send + Sync,
    P: Lead + Send + Drop,
    Q: Link + Send + Drop,
    D: Door + Drop,
    G: Gate,
>(
    rt: &R,
    alloc: Global,
    course: &Course<'_, G>,
    unopened: Unopened,
    seats: usize,
    job: Plan<P, Q, D>,
) -> Result<Summary, ClusterFault>
    requires name { unopened.name ≡ L.name }
    requires parts { unopened.parts ≡ L.parts }
    requires table { unopened.table ≡ L.table }
    requires seats { unopened.parts ≡ seats }
{
    let Ok(station) = Station::<L>::new(unopened) else {
        return Err(ClusterFault::Memory);
    };
    let Ok((tally, counts)) = Tally::new(alloc, seats) else {
        return Err(ClusterFault::Memory);
    };
    let left = run_counted::<R, L, Brand, P, Q, D, G>(
        rt, alloc, course, &station, &tally, counts, job,
    )?;
    let Left { seats, counts } = left;
    let sums = sums_of(tally, counts)?;
    let history = station.close(seats).ok();
    Ok(Summary { history, sums })
}

/// Runs a site from its first client until the cluster stops. Where it can't be put together no site begins.
pub(crate) fn run_site<
    R: Net + Threads + Wait + rt::Clock + Sync,
    P: Lead + Send + Drop,
    Q: Link + Send + Drop,
    D: Door + Drop,
    G: Gate,
>(
    rt: &R,
    alloc: Global,
    course: &Course<'_, G>,
    job: Job<P, Q, D>,
) -> Result<Summary, ClusterFault> {
    let seats = seats_of(&job);
    let Job {
        fresh,
        crew,
        posts,
        door,
    } = job;
    let Fresh { kept } = fresh;
    let plan = Plan { crew, posts, door };
    let ended = match Unopened::new(alloc, kept, seats as u64) {
        Ok(unopened) => {
            run_named::<R, Brand, P, Q, D, G>(rt, alloc, course, unopened, seats, plan)
        }
        Err(_) => Err(ClusterFault::Memory),
    };
    if ended.is_err() {
        course.abandon();
    }
    ended
}
