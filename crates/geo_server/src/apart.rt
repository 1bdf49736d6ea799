//! One site of a configuration, in a process of its own.
ghost use Rattle.std.specs.Prelude.{◌≤◌, length};
ghost use Rattle.geo_config.specs.Lawful.{IsLawful};

use crate::adding::add;
use crate::attended::{Attended, Watch};
use crate::cluster::{audited, listen, opened, total};
use crate::operator::Operator;
use crate::report::{SKIPPED, report, verdict_word};
use crate::site::{Course, Crew, Job, Summary, made_posts, run_site};
use crate::start::Start;
use geo_config::{ApartConfig, Config, SiteConfig};
use geo_gossip::Peer;
use geo_grammar::Device;
use geo_session::Gate;
use geo_wires::{Apart, ClusterFault, Getting, Outbound, Porter, Route, Visit, Way, tell};
use std::alloc::Global;
use std::io::{Read, Write};
use std::net::{Net, TcpListener, TcpStream};
use std::random::RandomSource;
use std::rt::Clock;
use std::sync::Wait;
use std::sync::atomic::AtomicU64;
use std::thread::Threads;
use std::time::Duration;

/// How many threads the site has: those for its workers, one for each other site that it tells, and those for maintenance, for whoever
/// comes to its peer port, and for clients and the operator.
fn threads_of(config: &Config, site: &SiteConfig) -> u64 {
    let workers = site.workers as u64;
    let sites = config.sites.len() as u64;
    workers.saturating_add(sites).saturating_add(2)
}

/// A link to each other site, each in a list of its own.
fn outbound<'a, R: Net<Stream = TcpStream, Listener = TcpListener> + Clock + Eprint>(
    rt: &'a R,
    alloc: Global,
    config: &'a Config,
    number: u8,
    stop: &'a AtomicU64,
) -> Result<Vec<Vec<Peer<Outbound<'a, R>>>>, ClusterFault>
    requires { IsLawful config.now }
{
    let mut all = Vec::new(alloc);
    for site in config.sites.iter() {
        if site.number == number {
            continue;
        }
        let Some(address) = &site.peer else {
            return Err(ClusterFault::Socket);
        };
        let route = Route {
            way: Way {
                from: number,
                to: site.number,
            },
            sites: config.sites.len() as u8,
            address: address.as_str(),
            patience: Duration::from_millis(config.patience),
        };
        let mut peers = Vec::new(alloc);
        let peer = Peer {
            site: site.number,
            link: Outbound::new(rt, stop, route),
        };
        add(&mut peers, peer)?;
        add(&mut all, peers)?;
    }
    Ok(all)
}

/// Who hears the other sites at the peer port.
fn inbound<'a, R: Net<Stream = TcpStream, Listener = TcpListener> + Clock + Eprint>(
    rt: &'a R,
    alloc: Global,
    config: &Config,
    number: u8,
    port: &TcpListener,
    stop: &'a AtomicU64,
) -> Result<Vec<Getting<'a, R>>, ClusterFault>
    requires { IsLawful config.now }
{
    let visit = Visit {
        patience: Duration::from_millis(config.patience),
        apart: Some(Apart {
            site: number,
            sites: config.sites.len() as u8,
        }),
    };
    let mut all = Vec::new(alloc);
    add(
        &mut all,
        Getting::Guests(Porter::new(rt, alloc, port, stop, visit)?),
    )?;
    Ok(all)
}

/// The threads of the site beside the one that lets clients in.
fn crew_of<'a, R: Net<Stream = TcpStream, Listener = TcpListener> + Clock + Eprint>(
    rt: &'a R,
    alloc: Global,
    config: &'a Config,
    site: &SiteConfig,
    port: TcpListener,
    stop: &'a AtomicU64,
) -> Result<Crew<Outbound<'a, R>, Getting<'a, R>>, ClusterFault>
    requires { IsLawful config.now }
{
    let peers = outbound(rt, alloc, config, site.number, stop)?;
    // the port is open for as long as somebody hears it
    let froms = inbound(rt, alloc, config, site.number, &port, stop)?;
    Ok(Crew {
        workers: site.workers,
        peers,
        froms,
    })
}

/// The audit's word for a site that ran alone. The histories of all sites are one schedule or are not: one of several says nothing.
fn word_of(
    alloc: Global,
    config: &Config,
    ended: Vec<Summary>,
) -> Result<&'static str, ClusterFault> {
    let told = ended.iter().all(|site| site.history.is_some());
    if config.audit && !told {
        return Ok(verdict_word(None));
    }
    if config.sites.len() > 1 {
        return Ok(SKIPPED);
    }
    audited(alloc, config, ended)
}

/// Both ports of the site.
#[derive(Drop)]
struct Ports {
    clients: TcpListener,
    sites: TcpListener,
}

/// Listens for clients and for other sites, and tells where.
fn ports_of<R: Net<Stream = TcpStream, Listener = TcpListener> + Eprint>(
    rt: &R,
    alloc: Global,
    site: &SiteConfig,
) -> Result<Ports, ClusterFault> {
    let Some(peer) = &site.peer else {
        return Err(ClusterFault::Socket);
    };
    let ports = Ports {
        clients: listen(rt, alloc, site.client.as_str())?,
        sites: listen(rt, alloc, peer.as_str())?,
    };
    let SiteConfig { number, client, .. } = site;
    tell(
        rt,
        format!(in alloc;
            "site {number} listens for clients at {client}, and for sites at {peer}\n"
        ),
    );
    Ok(ports)
}

/// Runs the site until it has stopped.
fn run<
    R: Net<Stream = TcpStream, Listener = TcpListener>
        + Threads
        + Wait
        + Clock
        + RandomSource
        + Eprint
        + Sync,
    G: Gate,
    I: Read + Drop,
    W: Write + Drop,
>(
    rt: &R,
    alloc: Global,
    config: &ApartConfig,
    site: &SiteConfig,
    gate: &G,
    operator: Operator<I>,
    writer: &mut Device<W>,
) -> Result<Summary, ClusterFault>
    requires { IsLawful config.now.config }
{
    let ApartConfig { config, sessions } = config;
    let stop = AtomicU64::new(0);
    let course = Course {
        gate,
        start: Start::new(threads_of(config, site)),
        working: AtomicU64::new(site.workers as u64),
        stop: &stop,
        closing: AtomicU64::new(0),
        every: Duration::from_millis(config.every),
        era: config.era,
        fills: config.fills,
    };
    let Ports { clients, sites } = ports_of(rt, alloc, site)?;
    let watch = Watch {
        site: site.number,
        sessions: *sessions,
        drain: Duration::from_millis(config.drain),
    };
    let crew = crew_of(rt, alloc, config, site, sites, &stop)?;
    let posts = made_posts(rt, alloc, site.workers)?;
    let door = Attended::new(rt, alloc, clients, watch, operator, writer)?;
    let fresh = opened(rt, alloc, config, site)?;
    let job = Job {
        fresh,
        crew,
        posts,
        door,
    };
    run_site(rt, alloc, &course, job)
}

/// Runs one site of a configuration, by its number: it listens for clients and for the other sites, which run elsewhere, and tells each of
/// them by a thread of its own what was written, at every so many milliseconds, for as long as a connection to it stands. One that can't be
/// reached is tried again and again, and holds up no other. Each line of the operator's is heard: `stop` has the site stop, any other is
/// answered by `unknown`, and the end of the lines says nothing. It stops also where it has had as many connections as the configuration
/// says, and all of them have ended.
///
/// A site that is told to stop lets in whoever has come, and nobody else. Requests that came whole are answered. A connection ends once
/// nothing more is there of it, or `drain` is over. Then each other site to which a connection stands is told all that it isn't known to
/// know, and is waited for, for as long as `patience`. At last the sums of what was counted are written, as [`crate::run_cluster`] does;
/// of one site of several, or where no history was logged, the audit is skipped. When it is ready, when a link comes up or goes down, that
/// frames are refused and that it stops is told on standard error. All sessions pass the gate.
pub fn run_apart<
    R: Net<Stream = TcpStream, Listener = TcpListener>
        + Threads
        + Wait
        + Clock
        + RandomSource
        + Eprint
        + Sync,
    G: Gate,
    I: Read + Drop,
    W: Write + Drop,
>(
    rt: &R,
    alloc: Global,
    config: &ApartConfig,
    number: u8,
    gate: &G,
    operator: Operator<I>,
    writer: &mut Device<W>,
) -> Result<(), ClusterFault>
    requires lawful { IsLawful config.now.config }
    requires least { 1 ≤ number }
    requires most { number ≤ length config.now.config.sites.items }
{
    let site = &config.config.sites[number as usize - 1];
    let ended = run(rt, alloc, config, site, gate, operator, writer)?;
    let mut all = Vec::new(alloc);
    add(&mut all, ended)?;
    let sums = total(all.as_slice());
    let word = word_of(alloc, &config.config, all)?;
    report(alloc, writer, sums, word)
}
