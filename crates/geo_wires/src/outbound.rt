//! The putting end of a link to a site in another process, which comes and goes.
ghost use Rattle.std.specs.Prelude.{◌≡◌, IfOk, OnOk};
ghost use Rattle.geo_link.specs.Streams.{PutsFrame};
ghost use Rattle.geo_wires.specs.Roads.{HasBegun, HasGreeted};

use crate::lead::Lead;
use crate::putting::Way;
use crate::road::Road;
use crate::telling::{tell_down, tell_up};
use geo_frame::{Message, fits};
use geo_link::{Connect, Link, LinkError, Returning};
use geo_versions::{Digest, Key};
use std::alloc::{AllocError, Global};
use std::fmt::Display;
use std::io;
use std::net::{Net, TcpListener, TcpStream, ToSocketAddrs};
use std::rt::Clock;
use std::sync::Wait;
use std::sync::atomic::{AtomicU64, Ordering};
use std::time::{Duration, Instant};

/// For how many milliseconds a link that is down is left alone at first. The pause doubles with each connection.
const FIRST_PAUSE: u64 = 50;

/// For how many milliseconds at most. A connection that has lasted for so long has the pause begin anew.
const LONGEST_PAUSE: u64 = 5000;

/// What a site says of itself before its first parcel, which may be long in coming: an offer that nobody asked for, which is passed over.
const GREETING: &[u8] = b"greeting";

/// What an outbound link is told.
#[derive(Clone, Copy)]
pub struct Route<'a> {
    pub way: Way,
    /// How many sites there are.
    pub sites: u8,
    /// Where the other site listens: a name or a number, and a port. A name is looked up for each connection.
    pub address: &'a str,
    /// For how long a connection, room for what is written, and what is asked for are waited for.
    pub patience: Duration,
}

/// What connects to a site in another process. Where the link is down a connection is tried from time to time; where a write fails, or
/// what is waited for does not come, or the other end closes it, it is down again. Either is told on standard error, once each. What was
/// put and lost is told again by the next parcel.
#[derive(Drop)]
pub(crate) struct Outgoing<'a, N> {
    net: &'a N,
    stop: &'a AtomicU64,
    route: Route<'a>,
    /// When a connection was tried last, or was let go.
    tried: Option<Instant>,
    /// When it connected last.
    connected: Option<Instant>,
    /// In milliseconds.
    pause: u64,
    /// Whether it was told that the link is down, and not yet that it is up.
    is_told: bool,
}

/// The first message of a connection.
fn greeting(alloc: Global, route: &Route<'_>) -> Result<Option<Message>, AllocError> {
    let Some(key) = Key::new(alloc, GREETING)? else {
        return Ok(None);
    };
    let Way { from, to } = route.way;
    Ok(Some(Message::Offer {
        from,
        to,
        sites: route.sites,
        key,
        digest: Digest::new([0; 32]),
        bytes: None,
    }))
}

impl<'a, N: Net<Stream = TcpStream, Listener = TcpListener> + Clock + Eprint> Outgoing<'a, N> {
    fn stops(&self) -> bool {
        self.stop.load(Ordering::SeqCst) != 0
    }

    /// The link is down. That is told once until it is up.
    fn is_down<D: Display + Drop>(&mut self, alloc: Global, why: D) {
        self.tried = Instant::now(self.net).ok();
        if !self.is_told {
            let Way { from, to } = self.route.way;
            tell_down(self.net, alloc, from, to, why);
            self.is_told = true;
        }
    }

    /// A connection was let go. Where it lasted for long, the pause begins anew.
    fn was_cut<D: Display + Drop>(&mut self, alloc: Global, why: D) {
        if self.has_passed(self.connected, LONGEST_PAUSE) {
            self.pause = FIRST_PAUSE;
        }
        self.is_down(alloc, why);
    }

    /// The link is up, which is told.
    fn has_come(&mut self, alloc: Global) {
        let Way { from, to } = self.route.way;
        tell_up(self.net, alloc, from, to);
        self.is_told = false;
        self.connected = Instant::now(self.net).ok();
    }

    /// Whether so many milliseconds have passed since then.
    fn has_passed(&self, since: Option<Instant>, milliseconds: u64) -> bool {
        let Some(since) = since else {
            return true;
        };
        match since.elapsed(self.net) {
            Ok(passed) => passed >= Duration::from_millis(milliseconds),
            Err(_) => true,
        }
    }

    /// A connection to the first address of the other site at which somebody listens.
    fn reach(&self, alloc: Global) -> io::Result<Road<'a, N>>
        ensures { IfOk result (λ road. HasBegun road.link) }
    {
        let since = Instant::now(self.net)?;
        let mut fault = io::Error::from(io::ErrorKind::AddrNotAvailable);
        for address in self.route.address.to_socket_addrs(self.net)? {
            let passed = since.elapsed(self.net)?;
            let left = self.route.patience.saturating_sub(passed);
            match TcpStream::connect_timeout(self.net, &address, left) {
                Ok(stream) => return Road::over(self.net, alloc, stream, self.route.patience),
                Err(error) => fault = error,
            }
        }
        Err(fault)
    }

    /// Says over a new connection who it is that comes.
    fn greet<R: Wait>(&self, rt: &R, alloc: Global, road: &mut Road<'a, N>) -> Result<(), LinkError>
        requires { HasBegun road.old.link }
        ensures { OnOk result (HasGreeted road.new.link) }
    {
        let Ok(greeting) = greeting(alloc, &self.route) else {
            return Err(LinkError::Memory);
        };
        let Some(message) = greeting else {
            return Err(LinkError::Closed);
        };
        if !fits(&message) {
            return Err(LinkError::TooLong);
        }
        road.put(rt, alloc, message)
    }
}

impl<'a, N: Net<Stream = TcpStream, Listener = TcpListener> + Clock + Eprint> Connect<Road<'a, N>>
    for Outgoing<'a, N> {
    ghost use Rattle.geo_wires.specs.Roads.{HasGreeted};

    ghost fresh = { λ road. HasGreeted road.link };

    fn connect<R: Wait>(&mut self, rt: &R, alloc: Global) -> Option<Road<'a, N>> {
        if self.stops() || !self.has_passed(self.tried, self.pause) {
            return None;
        }
        self.pause = self.pause.saturating_mul(2).min(LONGEST_PAUSE);
        let mut road = match self.reach(alloc) {
            Ok(road) => road,
            Err(error) => {
                self.is_down(alloc, error);
                return None;
            }
        };
        match self.greet(rt, alloc, &mut road) {
            Ok(()) => {
                self.has_come(alloc);
                Some(road)
            }
            Err(error) => {
                self.is_down(alloc, error);
                None
            }
        }
    }

    fn is_whole(&mut self, alloc: Global, connection: &Road<'a, N>) -> bool {
        // whether the other end has closed it, or said what it wasn't asked for
        match connection.rests() {
            Ok(()) => true,
            Err(why) => {
                self.was_cut(alloc, why);
                false
            }
        }
    }

    fn admits(&self, message: &Message) -> bool {
        // nobody waits for an answer once the site stops
        !self.stops() || matches!(message, Message::Parcel(_))
    }

    fn carried(&mut self) {}

    fn lost(&mut self, alloc: Global, error: LinkError) {
        self.was_cut(alloc, error);
    }

    fn let_go(&mut self) {
        self.tried = Instant::now(self.net).ok();
    }
}

/// The putting end of a link to a site in another process, which is down at first.
#[derive(Drop)]
pub struct Outbound<'a, N> {
    link: Returning<Road<'a, N>, Outgoing<'a, N>>,
}

impl<'a, N: Net<Stream = TcpStream, Listener = TcpListener> + Clock + Eprint> Outbound<'a, N> {
    pub fn new(net: &'a N, stop: &'a AtomicU64, route: Route<'a>) -> Outbound<'a, N> {
        let outgoing = Outgoing {
            net,
            stop,
            route,
            tried: None,
            connected: None,
            pause: FIRST_PAUSE,
            is_told: false,
        };
        Outbound {
            link: Returning::new(None, outgoing),
        }
    }
}

impl<N: Net<Stream = TcpStream, Listener = TcpListener> + Clock + Eprint> Lead for Outbound<'_, N> {
    fn is_ready<R: Wait>(&mut self, rt: &R, alloc: Global) -> bool {
        self.link.stands(rt, alloc)
    }

    fn rest(&self, every: Duration) -> Duration {
        if self.link.is_up() {
            every
        } else {
            Duration::from_millis(self.link.connector().pause)
        }
    }

    fn owes_a_last_round(&self) -> bool {
        self.link.is_up()
    }

    fn finish(&mut self, alloc: Global) {
        let Some(road) = self.link.take() else {
            return;
        };
        if let Err(error) = road.finish() {
            let Outgoing { net, route, .. } = self.link.connector();
            tell_down(*net, alloc, route.way.from, route.way.to, error);
        }
    }
}

impl<N: Net<Stream = TcpStream, Listener = TcpListener> + Clock + Eprint> Link for Outbound<'_, N> {
    ghost use Rattle.std.specs.Prelude.{◌≡◌, None};
    ghost use Rattle.geo_link.specs.Connections.{OnOne, PutFailsOn};
    ghost use Rattle.geo_link.specs.Streams.{PutsFrame, StopsPut};

    // its frame is written on the connection that stands
    ghost puts = { λ old message new. OnOne (λ before after. PutsFrame before.link message after.link) old.link.connection new.link.connection };

    ghost gets = { λ old message new. OnOne (λ before after. after.link ≡ before.link) old.link.connection new.link.connection };

    ghost put_fails = { λ old message error new. PutFailsOn (λ before after. StopsPut before.link message error after.link) error
        old.link.connection new.link.connection };

    ghost get_fails = { λ old error new. new.link.connection ≡ None };

    ghost closes = { λ old new. new.link.connection ≡ None };

    fn put<R: Wait>(&mut self, rt: &R, alloc: Global, message: Message) -> Result<(), LinkError> {
        self.link.put(rt, alloc, message)
    }

    fn get<R: Wait>(&mut self, rt: &R, alloc: Global) -> Result<Message, LinkError> {
        self.link.get(rt, alloc)
    }

    fn close(&mut self) {
        self.link.close();
    }
}
