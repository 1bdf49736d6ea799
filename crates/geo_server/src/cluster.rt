//! All sites of a configuration, from their first thread to what is told of them.
ghost use Rattle.std.specs.Prelude.{◌≡◌, ◌≤◌, true, length, IfOk, Some};
ghost use Rattle.geo_audit.specs.Verdicts.{AreInOrder};
ghost use Rattle.geo_config.specs.Lawful.{IsLawful};
ghost use Rattle.geo_history.specs.Stories.{is_logged, most_bytes_in, setup_in};

use crate::accept::Entrance;
use crate::adding::add;
use crate::report::{SKIPPED, report, verdict_word};
use crate::site::{Course, Crew, Fresh, Job, Summary, made_posts, run_site};
use crate::start::Start;
use crate::threads::run_all;
use geo_audit::audit;
use geo_config::{Config, LinkKind, SiteConfig};
use geo_gossip::Peer;
use geo_grammar::Device;
use geo_history::{History, Kept};
use geo_session::Gate;
use geo_site::Setup;
use geo_wires::{ClusterFault, Memory, Tcp, Way, Wires};
use std::alloc::{AllocError, Global};
use std::hash::RandomState;
use std::io::Write;
use std::net::{Net, TcpListener, TcpStream};
use std::random::RandomSource;
use std::rt::Clock;
use std::sync::Wait;
use std::sync::atomic::AtomicU64;
use std::thread::Threads;
use std::time::Duration;

/// Listens at an address.
pub(crate) fn listen<R: Net<Stream = TcpStream, Listener = TcpListener>>(
    rt: &R,
    alloc: Global,
    address: &str,
) -> Result<TcpListener, ClusterFault> {
    match TcpListener::bind(rt, address) {
        Ok(listener) => Ok(listener),
        Err(error) if ClusterFault::of_socket(&error) == ClusterFault::Descriptors => {
            Err(ClusterFault::Descriptors)
        }
        Err(_) => match format!(in alloc; "{address}") {
            Ok(address) => Err(ClusterFault::Listen(address)),
            Err(_) => Err(ClusterFault::Memory),
        },
    }
}

/// A site that knows nothing.
pub(crate) fn opened<R: RandomSource>(
    rt: &R,
    alloc: Global,
    config: &Config,
    site: &SiteConfig,
) -> Result<Fresh, ClusterFault>
    requires { IsLawful config.now }
    ensures site { IfOk result (λ fresh. (setup_in fresh.kept).site ≡ site.now.number) }
    ensures sites { IfOk result (λ fresh. (setup_in fresh.kept).sites ≡ length config.now.sites.items) }
    ensures pages { IfOk result (λ fresh. (setup_in fresh.kept).pages ≡ config.now.pages) }
    ensures records { IfOk result (λ fresh. (setup_in fresh.kept).max_records ≡ config.now.max_records) }
    ensures reaps { IfOk result (λ fresh. (setup_in fresh.kept).reap_after ≡ config.now.reap_after) }
    ensures bound { IfOk result (λ fresh. most_bytes_in fresh.kept ≡ Some config.now.era_bytes) }
    ensures logged { IfOk result (λ fresh. is_logged fresh.kept ≡ config.now.audit) }
{
    let Ok(hasher) = RandomState::new(rt) else {
        return Err(ClusterFault::Socket);
    };
    let setup = Setup {
        site: site.number,
        sites: config.sites.len() as u8,
        pages: config.pages,
        max_records: config.max_records,
        reap_after: config.reap_after,
        hasher,
    };
    match Kept::opened(alloc, setup, config.audit) {
        Ok(kept) => Ok(Fresh {
            kept: kept.bounded(config.era_bytes),
        }),
        Err(_) => Err(ClusterFault::Memory),
    }
}

/// The links of one site.
#[derive(Drop)]
struct Ends<P, Q> {
    peers: Vec<Peer<P>>,
    froms: Vec<Q>,
}

/// A link from each site to each other one, in the order of their numbers, and what each gets from beside these.
fn wired<R, W: Wires<R>>(
    rt: &R,
    alloc: Global,
    sites: usize,
    wires: &W,
) -> Result<Vec<Ends<W::Put, W::Get>>, ClusterFault>
    requires { sites ≤ 16 }
{
    let mut all = Vec::new(alloc);
    for _site in 0..sites {
        let none = Ends {
            peers: Vec::new(alloc),
            froms: Vec::new(alloc),
        };
        add(&mut all, none)?;
    }
    for from in 0..sites {
        for to in 0..sites {
            if from != to {
                let way = Way {
                    from: from as u8 + 1,
                    to: to as u8 + 1,
                };
                let (put, get) = wires.link(rt, alloc, way)?;
                let peer = Peer {
                    site: way.to,
                    link: put,
                };
                if let Some(ends) = all.get_mut(from) {
                    add(&mut ends.peers, peer)?;
                }
                if let Some(ends) = all.get_mut(to) {
                    add(&mut ends.froms, get)?;
                }
            }
        }
    }
    for at in 0..sites {
        let guests = wires.guests(rt, alloc, at)?;
        if let (Some(ends), Some(guests)) = (all.get_mut(at), guests) {
            add(&mut ends.froms, guests)?;
        }
    }
    Ok(all)
}

/// What each site is run with.
fn jobs<R: Net + RandomSource, P: Drop, Q: Drop>(
    rt: &R,
    alloc: Global,
    config: &Config,
    listeners: Vec<TcpListener>,
    ends: Vec<Ends<P, Q>>,
) -> Result<Vec<Job<P, Q, Entrance>>, ClusterFault>
    requires { IsLawful config.now }
{
    let sessions = config.sessions;
    let mut all = Vec::new(alloc);
    for ((site, listener), ends) in config.sites.iter().zip(listeners).zip(ends) {
        let mut peers = Vec::new(alloc);
        add(&mut peers, ends.peers)?;
        let job = Job {
            fresh: opened(rt, alloc, config, site)?,
            crew: Crew {
                workers: site.workers,
                peers,
                froms: ends.froms,
            },
            posts: made_posts(rt, alloc, site.workers)?,
            door: Entrance { listener, sessions },
        };
        add(&mut all, job)?;
    }
    Ok(all)
}

/// How many workers all sites have.
fn workers_of(config: &Config) -> u64 {
    let mut all = 0u64;
    for site in config.sites.iter() {
        all = all.saturating_add(site.workers as u64);
    }
    all
}

/// How many threads all sites have: each those for its workers, gossip and maintenance, for a link from each other site, the one that
/// lets clients in, and at a peer port the one that hears who comes later.
fn threads_of(config: &Config) -> u64 {
    let guests = match config.link {
        LinkKind::Memory => 0u64,
        LinkKind::Tcp => 1,
    };
    let sites = config.sites.len() as u64;
    let others = sites.saturating_add(2).saturating_add(guests);
    let mut all = workers_of(config);
    for _site in config.sites.iter() {
        all = all.saturating_add(others);
    }
    all
}

/// Runs all sites, each by threads of its own, until each has served all its clients.
fn run_sites<
    R: Net<Stream = TcpStream, Listener = TcpListener>
        + Threads
        + Wait
        + Clock
        + RandomSource
        + Sync,
    G: Gate,
    W: Wires<R>,
>(
    rt: &R,
    alloc: Global,
    config: &Config,
    course: &Course<'_, G>,
    listeners: Vec<TcpListener>,
    wires: &W,
) -> Result<Vec<Summary>, ClusterFault>
where
    W::Put: Send,
    W::Get: Send,
    requires { IsLawful config.now }
{
    let ends = wired(rt, alloc, config.sites.len(), wires)?;
    let jobs = jobs(rt, alloc, config, listeners, ends)?;
    let ended = run_all(
        rt,
        alloc,
        &course.start,
        course.stop,
        jobs,
        &|job: Job<W::Put, W::Get, Entrance>| -> Result<Summary, ClusterFault> {
            run_site(rt, alloc, course, job)
        },
        || {},
    )?;
    let mut all = Vec::new(alloc);
    for one in ended {
        add(&mut all, one?)?;
    }
    Ok(all)
}

/// Listens for clients at all sites, and for sites too where they are joined by sockets, and runs the sites.
fn run<
    R: Net<Stream = TcpStream, Listener = TcpListener>
        + Threads
        + Wait
        + Clock
        + RandomSource
        + Eprint
        + Sync,
    G: Gate,
>(rt: &R, alloc: Global, config: &Config, gate: &G) -> Result<Vec<Summary>, ClusterFault>
    requires { IsLawful config.now }
{
    let stop = AtomicU64::new(0);
    let course = Course {
        gate,
        start: Start::new(threads_of(config)),
        working: AtomicU64::new(workers_of(config)),
        stop: &stop,
        closing: AtomicU64::new(0),
        every: Duration::from_millis(config.every),
        era: config.era,
        fills: config.fills,
    };
    let mut clients = Vec::new(alloc);
    let mut ports = Vec::new(alloc);
    for site in config.sites.iter() {
        add(&mut clients, listen(rt, alloc, site.client.as_str())?)?;
        if let Some(peer) = &site.peer {
            add(&mut ports, listen(rt, alloc, peer.as_str())?)?;
        }
    }
    match config.link {
        LinkKind::Memory => run_sites(rt, alloc, config, &course, clients, &Memory),
        LinkKind::Tcp => {
            let wires = Tcp {
                net: rt,
                ports: ports.as_slice(),
                stop: &stop,
                patience: Duration::from_millis(config.patience),
            };
            run_sites(rt, alloc, config, &course, clients, &wires)
        }
    }
}

/// The sums over all sites, in the counters' order.
pub(crate) fn total(ended: &[Summary]) -> [u64; 5] {
    let mut all = [0u64; 5];
    for site in ended {
        for (sum, more) in all.iter_mut().zip(site.sums) {
            *sum = sum.saturating_add(more);
        }
    }
    all
}

/// The histories of all sites, or none where one site's seats tell another story.
fn histories(alloc: Global, ended: Vec<Summary>) -> Result<Option<Vec<History>>, AllocError> {
    let mut all = Vec::new(alloc);
    for site in ended {
        let Some(history) = site.history else {
            return Ok(None);
        };
        all.push(history)?;
    }
    Ok(Some(all))
}

/// Whether they are those of the sites from 1 on, in order.
fn are_in_order(histories: &[History]) -> bool
    ensures { result ≡ true → AreInOrder histories.now }
{
    for at in 0..histories.len() {
        if histories[at].setup.site as usize != at + 1 {
            return false;
        }
    }
    true
}

/// The word for the audit of what was done at all sites, where their histories were logged.
pub(crate) fn audited(
    alloc: Global,
    config: &Config,
    ended: Vec<Summary>,
) -> Result<&'static str, ClusterFault> {
    if !config.audit {
        return Ok(SKIPPED);
    }
    let Some(all) = histories(alloc, ended)? else {
        return Ok(verdict_word(None));
    };
    if !are_in_order(all.as_slice()) {
        return Ok(verdict_word(None));
    }
    let verdict = audit(alloc, all.as_slice())?;
    Ok(verdict_word(Some(&verdict)))
}

/// Runs the sites of a configuration in one process: it listens for clients at each site (memcached's protocol.txt), joins each
/// two sites by links, and has each site tell the others what was written, at every so many milliseconds. It ends once each site
/// has accepted as many connections as the configuration says and all of them have ended; then it writes the sums of what was
/// counted at all sites, and whether the sites' histories are one lawful schedule: `audit sound`, `audit refused`, or `audit
/// skipped` where a history does not begin at the start, or was not logged. All sessions pass the gate.
pub fn run_cluster<
    R: Net<Stream = TcpStream, Listener = TcpListener>
        + Threads
        + Wait
        + Clock
        + RandomSource
        + Eprint
        + Sync,
    G: Gate,
    W: Write,
>(
    rt: &R,
    alloc: Global,
    config: &Config,
    gate: &G,
    writer: &mut Device<W>,
) -> Result<(), ClusterFault>
    requires { IsLawful config.now }
{
    let ended = run(rt, alloc, config, gate)?;
    let sums = total(ended.as_slice());
    let word = audited(alloc, config, ended)?;
    report(alloc, writer, sums, word)
}
