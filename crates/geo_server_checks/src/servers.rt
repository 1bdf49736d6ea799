//! What clients of a cluster read, over sockets of the loopback, and what is told at its end.
ghost use Rattle.std.specs.Prelude.{IfSome};
ghost use Rattle.geo_config.specs.Lawful.{IsLawful};

use geo_config::{ApartConfig, config, config_apart};
use geo_grammar::Device;
use geo_server::{ClusterFault, Operator, run_apart, run_cluster};
use geo_session::{Gate, OpenGate};
use std::alloc::Global;
use std::io::{Read, Write};
use std::net::{Net, OpenListener, TcpListener, TcpStream};
use std::random::RandomSource;
use std::rt::Clock;
use std::sync::Wait;
use std::sync::atomic::{AtomicU64, Ordering};
use std::test::Fail;
use std::thread::{self, Threads, join};
use std::time::Duration;

/// A port of the loopback at which nobody listens.
fn free_port<R: Net<Stream = TcpStream, Listener = TcpListener>>(rt: &R) -> Option<u16> {
    let listener = TcpListener::bind(rt, "127.0.0.1:0").ok()?;
    Some(listener.local_addr().ok()?.port())
}

/// A cluster of one site.
fn one_site(alloc: Global, port: u16, workers: usize, sessions: usize) -> Option<String> {
    format!(in alloc;
        "sessions = {sessions}\npages = 15\n[[site]]\nnumber = 1\nworkers = {workers}\nclient = \"127.0.0.1:{port}\"\n"
    ).ok()
}

/// What a cluster tells at its end.
fn run<
    R: Net<Stream = TcpStream, Listener = TcpListener>
        + Threads
        + Wait
        + Clock
        + RandomSource
        + Eprint
        + Sync,
    G: Gate,
>(rt: &R, alloc: Global, text: &str, gate: &G) -> Option<Vec<u8>> {
    let config = config(alloc, text).ok()?;
    let mut writer = Device::new(Vec::new(alloc));
    run_cluster(rt, alloc, &config, gate, &mut writer).ok()?;
    Some(writer.into_inner())
}

/// What a site that runs alone is told, with two ports.
fn alone(alloc: Global, client: u16, peer: u16) -> Option<ApartConfig>
    ensures { IfSome result (λ told. IsLawful told.config) }
{
    let text = format!(in alloc;
        "pages = 15\nlink = \"tcp\"\n[[site]]\nnumber = 1\nclient = \"127.0.0.1:{client}\"\npeer = \"127.0.0.1:{peer}\"\n"
    ).ok()?;
    config_apart(alloc, text.as_str()).ok()
}

/// What it tells where an operator says these lines.
fn told_alone<
    R: Net<Stream = TcpStream, Listener = TcpListener>
        + Threads
        + Wait
        + Clock
        + RandomSource
        + Eprint
        + Sync,
>(rt: &R, alloc: Global, config: &ApartConfig, lines: &[u8]) -> Option<Vec<u8>>
    requires { IsLawful config.now.config }
{
    if config.config.sites.len() < 1 {
        return None;
    }
    let mut writer = Device::new(Vec::new(alloc));
    // a descriptor of which no system tells anything
    let operator = Operator::new(alloc, lines, -1);
    run_apart(rt, alloc, config, 1, &OpenGate, operator, &mut writer).ok()?;
    Some(writer.into_inner())
}

/// What a site that runs alone tells where an operator says these lines.
fn run_alone<
    R: Net<Stream = TcpStream, Listener = TcpListener>
        + Threads
        + Wait
        + Clock
        + RandomSource
        + Eprint
        + Sync,
>(rt: &R, alloc: Global, lines: &[u8]) -> Option<Vec<u8>> {
    let (client, peer) = (free_port(rt)?, free_port(rt)?);
    let config = alone(alloc, client, peer)?;
    told_alone(rt, alloc, &config, lines)
}

/// A connection to a port, once somebody listens there.
fn connected<R: Net<Stream = TcpStream, Listener = TcpListener> + Clock + Wait>(
    rt: &R,
    address: &str,
) -> Option<TcpStream> {
    for _turn in 0..1_000 {
        if let Ok(stream) = TcpStream::connect(rt, address) {
            return Some(stream);
        }
        thread::sleep(rt, Duration::from_millis(10));
    }
    None
}

/// What a client reads to the end of its connection.
fn talk<R: Net<Stream = TcpStream, Listener = TcpListener> + Clock + Wait>(
    rt: &R,
    alloc: Global,
    port: u16,
    input: &[u8],
) -> Option<Vec<u8>> {
    let address = format!(in alloc; "127.0.0.1:{port}").ok()?;
    let mut stream = connected(rt, address.as_str())?;
    stream.write_all(input).ok()?;
    let mut all = Vec::new(alloc);
    let mut piece = [0u8; 256];
    for _read in 0..u64::MAX {
        let count = stream.read(&mut piece).ok()?;
        let came = piece.get(..count)?;
        if came.is_empty() {
            return Some(all);
        }
        all.extend_from_slice(came).ok()?;
    }
    None
}

/// Whether this is what is told at the end, for any number of rounds.
fn tells(told: &[u8], sums: &[u8]) -> bool {
    told.starts_with(sums) && told.ends_with(b"\nframes_refused 0\naudit sound\n")
}

/// What a client reads that sets and gets, and what is told then.
fn one_client<
    R: Net<Stream = TcpStream, Listener = TcpListener>
        + Threads
        + Wait
        + Clock
        + RandomSource
        + Eprint
        + Sync,
>(rt: &R, alloc: Global) -> Option<(Vec<u8>, Vec<u8>)> {
    let port = free_port(rt)?;
    let text = one_site(alloc, port, 4, 1)?;
    let input = b"set a 0 0 2\r\nhi\r\nget a\r\nquit\r\n";
    let (told, read) = join(
        rt,
        || -> Option<Vec<u8>> { run(rt, alloc, text.as_str(), &OpenGate) },
        || -> Option<Vec<u8>> { talk(rt, alloc, port, input) },
    );
    Some((read?, told?))
}

#[test]
fn a_client_is_answered_and_counted(rt: HostRuntime) -> Result<(), Fail> {
    let (read, told) = one_client(&rt, rt.alloc()).ok_or("no end")?;
    assert_eq!(rt;
        read.as_slice(),
        b"STORED\r\nVALUE a 0 2\r\nhi\r\nEND\r\n".as_slice()
    );
    assert!(rt;
        tells(
            told.as_slice(),
            b"sessions 1\nrequests 3\nfaults 0\nrounds "
        )
    );
    Ok(())
}

#[test]
fn a_site_that_runs_alone_ends_by_the_line_that_says_so(rt: HostRuntime) -> Result<(), Fail> {
    let told = run_alone(&rt, rt.alloc(), b"start\n\nstop\nmore\n").ok_or("no end")?;
    assert_eq!(rt;
        told.as_slice(),
        b"unknown\nunknown\nsessions 0\nrequests 0\nfaults 0\nrounds 0\nframes_refused 0\naudit sound\n".as_slice()
    );
    Ok(())
}

/// The first pass waits so many turns, of a millisecond each, until a second has come.
#[derive(Drop)]
struct Meeting {
    turns: u64,
    passes: AtomicU64,
    missed: AtomicU64,
}

fn meeting_of(turns: u64) -> Meeting {
    Meeting {
        turns,
        passes: AtomicU64::new(0),
        missed: AtomicU64::new(0),
    }
}

impl Gate for Meeting {
    fn pass<R: Wait + Clock>(&self, rt: &R, _call: u64) {
        if self.passes.fetch_add(1, Ordering::SeqCst) > 0 {
            return;
        }
        for _turn in 0..self.turns {
            if self.passes.load(Ordering::SeqCst) > 1 {
                return;
            }
            thread::sleep(rt, Duration::from_millis(1));
        }
        self.missed.store(1, Ordering::SeqCst);
    }
}

/// Whether a client that asks for the version reads it.
fn reads_version<R: Net<Stream = TcpStream, Listener = TcpListener> + Clock + Wait>(
    rt: &R,
    alloc: Global,
    port: u16,
) -> bool {
    match talk(rt, alloc, port, b"version\r\nquit\r\n") {
        Some(read) => read.as_slice() == b"VERSION 1.0.0\r\n".as_slice(),
        None => false,
    }
}

/// Whether each of two clients at once does.
fn two_read_version<
    R: Net<Stream = TcpStream, Listener = TcpListener>
        + Threads
        + Wait
        + Clock
        + RandomSource
        + Eprint
        + Sync,
>(rt: &R, alloc: Global, port: u16) -> (bool, bool) {
    join(
        rt,
        || -> bool { reads_version(rt, alloc, port) },
        || -> bool { reads_version(rt, alloc, port) },
    )
}

/// Whether two clients of so many workers are answered, and what is told then.
fn two_clients<
    R: Net<Stream = TcpStream, Listener = TcpListener>
        + Threads
        + Wait
        + Clock
        + RandomSource
        + Eprint
        + Sync,
>(rt: &R, alloc: Global, workers: usize, gate: &Meeting) -> Option<((bool, bool), Vec<u8>)> {
    let port = free_port(rt)?;
    let text = one_site(alloc, port, workers, 2)?;
    let (told, are_answered) = join(
        rt,
        || -> Option<Vec<u8>> { run(rt, alloc, text.as_str(), gate) },
        || -> (bool, bool) { two_read_version(rt, alloc, port) },
    );
    Some((are_answered, told?))
}

const TWO_SESSIONS: &[u8] = b"sessions 2\nrequests 4\nfaults 0\nrounds ";

#[test]
fn two_workers_serve_two_clients_at_once(rt: HostRuntime) -> Result<(), Fail> {
    let gate = meeting_of(10_000);
    let (are_answered, told) = two_clients(&rt, rt.alloc(), 2, &gate).ok_or("no end")?;
    assert_eq!(rt; are_answered, (true, true));
    assert!(rt; tells(told.as_slice(), TWO_SESSIONS));
    assert_eq!(rt; gate.missed.load(Ordering::SeqCst), 0);
    Ok(())
}

// What holds up a worker holds up all of its connections. So a server in which one thread serves both clients is found by the gate.
#[test]
fn one_worker_alone_does_not_serve_two_at_once(rt: HostRuntime) -> Result<(), Fail> {
    let gate = meeting_of(2_000);
    let (are_answered, told) = two_clients(&rt, rt.alloc(), 1, &gate).ok_or("no end")?;
    assert_eq!(rt; are_answered, (true, true));
    assert!(rt; tells(told.as_slice(), TWO_SESSIONS));
    assert_eq!(rt; gate.missed.load(Ordering::SeqCst), 1);
    Ok(())
}

/// Why a cluster does not start at an address that is taken.
fn fault_at_taken<
    R: Net<Stream = TcpStream, Listener = TcpListener>
        + Threads
        + Wait
        + Clock
        + RandomSource
        + Eprint
        + Sync,
>(rt: &R, alloc: Global) -> Option<ClusterFault> {
    let listener = TcpListener::bind(rt, "127.0.0.1:0").ok()?;
    let text = one_site(alloc, listener.local_addr().ok()?.port(), 1, 1)?;
    let config = config(alloc, text.as_str()).ok()?;
    let mut writer = Device::new(Vec::new(alloc));
    run_cluster(rt, alloc, &config, &OpenGate, &mut writer).err()
}

#[test]
fn an_address_that_is_taken_is_told(rt: HostRuntime) -> Result<(), Fail> {
    let fault = fault_at_taken(&rt, rt.alloc());
    assert!(rt; matches!(fault, Some(ClusterFault::Listen(_))));
    Ok(())
}
