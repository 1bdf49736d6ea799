//! The putting end of a link over a socket, which comes back where it was cut.
ghost use Rattle.std.specs.Prelude.{IfOk};
ghost use Rattle.geo_wires.specs.Roads.{HasBegun};

use crate::lead::Lead;
use crate::road::Road;
use geo_frame::Message;
use geo_link::{Connect, LinkError, Returning};
use std::alloc::Global;
use std::io;
use std::net::{Net, SocketAddr, TcpListener, TcpStream};
use std::rt::Clock;
use std::sync::Wait;
use std::sync::atomic::{AtomicU64, Ordering};
use std::time::{Duration, Instant};

/// For how many milliseconds a link that was cut is left alone at first. The pause doubles with each connection that fails.
const FIRST_PAUSE: u64 = 100;

/// For how many milliseconds at most.
const LONGEST_PAUSE: u64 = 5000;

/// From which site to which other a link leads, by their numbers.
#[derive(Clone, Copy)]
pub struct Way {
    pub from: u8,
    pub to: u8,
}

/// Where a link leads, and for how long it is waited for.
#[derive(Clone, Copy)]
pub(crate) struct Target {
    pub(crate) address: SocketAddr,
    pub(crate) patience: Duration,
}

/// The putting end of a link.
pub type Putting<'a, N> = Returning<Road<'a, N>, Caller<'a, N>>;

/// What connects to a peer's port again. Where a write fails, or what is waited for does not come, or the link is closed, the connection is
/// let go, which is told on standard error, and another one is made before a later round. What was put and lost is told again by the next
/// parcel.
#[derive(Drop)]
pub struct Caller<'a, N> {
    net: &'a N,
    stop: &'a AtomicU64,
    way: Way,
    target: Target,
    /// When the link was cut, or connected last.
    tried: Option<Instant>,
    /// In milliseconds.
    pause: u64,
    is_told: bool,
}

/// A link with a connection.
pub(crate) fn putting_link<'a, N: Net<Stream = TcpStream, Listener = TcpListener> + Clock + Eprint>(
    net: &'a N,
    stop: &'a AtomicU64,
    way: Way,
    target: Target,
    road: Road<'a, N>,
) -> Putting<'a, N> {
    let caller = Caller {
        net,
        stop,
        way,
        target,
        tried: None,
        pause: FIRST_PAUSE,
        is_told: false,
    };
    Returning::new(Some(road), caller)
}

impl<'a, N: Net<Stream = TcpStream, Listener = TcpListener> + Clock + Eprint> Caller<'a, N> {
    fn stops(&self) -> bool {
        self.stop.load(Ordering::SeqCst) != 0
    }

    /// Tells that the link is cut, once until it is back.
    fn tell(&mut self) {
        if !self.is_told && !self.stops() {
            let Way { from, to } = self.way;
            let net = self.net;
            let _told = eprintln!(net; "the link from site {from} to site {to} is cut");
            self.is_told = true;
        }
    }

    /// The connection was let go.
    fn is_cut(&mut self) {
        self.tried = Instant::now(self.net).ok();
        self.tell();
    }

    /// Whether a connection is due.
    fn is_due(&self) -> bool {
        let Some(tried) = self.tried else {
            return true;
        };
        match tried.elapsed(self.net) {
            Ok(passed) => passed >= Duration::from_millis(self.pause),
            Err(_) => true,
        }
    }

    fn reach(&self, alloc: Global) -> io::Result<Road<'a, N>>
        ensures { IfOk result (λ road. HasBegun road.link) }
    {
        let Target { address, patience } = self.target;
        let stream = TcpStream::connect_timeout(self.net, &address, patience)?;
        Road::over(self.net, alloc, stream, patience)
    }
}

impl<'a, N: Net<Stream = TcpStream, Listener = TcpListener> + Clock + Eprint> Connect<Road<'a, N>>
    for Caller<'a, N> {
    ghost use Rattle.geo_wires.specs.Roads.{HasBegun};

    ghost fresh = { λ road. HasBegun road.link };

    fn connect<R: Wait>(&mut self, _rt: &R, alloc: Global) -> Option<Road<'a, N>> {
        if self.stops() || !self.is_due() {
            return None;
        }
        let reached = self.reach(alloc);
        self.tried = Instant::now(self.net).ok();
        self.pause = self.pause.saturating_mul(2).min(LONGEST_PAUSE);
        reached.ok()
    }

    fn is_whole(&mut self, _alloc: Global, _connection: &Road<'a, N>) -> bool {
        true
    }

    fn admits(&self, _message: &Message) -> bool {
        true
    }

    fn carried(&mut self) {
        self.pause = FIRST_PAUSE;
        self.is_told = false;
    }

    fn lost(&mut self, _alloc: Global, _error: LinkError) {
        self.is_cut();
    }

    fn let_go(&mut self) {
        self.is_cut();
    }
}

impl<N: Net<Stream = TcpStream, Listener = TcpListener> + Clock + Eprint> Lead for Putting<'_, N> {
    fn is_ready<R: Wait>(&mut self, rt: &R, alloc: Global) -> bool {
        // a round that no connection carries is counted, too
        let _is_up = self.stands(rt, alloc);
        true
    }
}
