//! Who connects to a peer port once its links stand.
ghost use Rattle.geo_frame.specs.Payloads.{PayloadInRange, payload_of};

use crate::fault::ClusterFault;
use crate::guest::{Brought, Guest};
use crate::telling::{tell, tell_down, tell_up};
use geo_frame::{EncodeFault, FrameFault, Message, encode};
use geo_link::LinkError;
use geo_socket::Socket;
use mio::net::TcpListener as Listener;
use mio::{Events, Interest, Poll, Token};
use std::alloc::Global;
use std::fmt::Display;
use std::io;
use std::net::{Net, OpenListener, TcpListener};
use std::rt::Clock;
use std::sync::Wait;
use std::sync::atomic::{AtomicU64, Ordering};
use std::time::{Duration, Instant};

/// How many guests that have brought no frame there are at most. Where one more comes, the first of them goes.
const STRANGERS: usize = 8;

/// How many bytes a read brings at most.
const PIECE: usize = 65_536;

/// How many sockets are told of at once.
const EVENTS: usize = 32;

/// For how many milliseconds it is waited for guests, before it is seen whether the cluster stops, and for memory that was refused.
const PAUSE: u64 = 50;

/// Hears who connects to a peer port once its links stand: a site whose link was cut, or a stranger. All are heard side by side, and no
/// link waits for them. Whoever brings a frame within its time stays, one for each site that messages come from. What a guest is answered
/// is written as it takes it, and nobody waits for that either.
#[derive(Drop)]
pub struct Porter<'a, N> {
    net: &'a N,
    stop: &'a AtomicU64,
    listener: Listener,
    poll: Poll,
    events: Events<Global>,
    buffer: Vec<u8>,
    /// In the order in which they came.
    guests: Vec<Guest>,
    /// Whose turn it is.
    turn: usize,
    /// Whether somebody may have more at once.
    is_busy: bool,
    is_closed: bool,
    visit: Visit,
    /// When it was told last that a frame is refused.
    refused: Option<Instant>,
}

/// Who may come to a peer port.
#[derive(Clone, Copy)]
pub struct Visit {
    /// In which time a guest has to bring its first frame, and to take what it is offered.
    pub patience: Duration,
    /// At the port of a site that runs alone the other sites, of whom it is told when they come and go, and nobody else.
    pub apart: Option<Apart>,
}

/// A site that runs alone.
#[derive(Clone, Copy)]
pub struct Apart {
    /// Its number.
    pub site: u8,
    /// How many sites there are.
    pub sites: u8,
}

impl Apart {
    /// Whether a message comes from another site, and to this one.
    fn expects(self, message: &Message) -> bool {
        let from = message.sender();
        let is_one = from >= 1 && from <= self.sites && from != self.site;
        is_one && addressee(message) == self.site
    }
}

/// For how many milliseconds it is not told again that a frame is refused.
const SILENCE: u64 = 1000;

/// A listener that never waits, and what tells that somebody has come.
pub fn watched<N: Net>(net: &N, port: &TcpListener) -> io::Result<(Listener, Poll)> {
    port.set_nonblocking(true)?;
    let mut listener = Listener::from_std(port.try_clone()?);
    let poll = Poll::new(net)?;
    poll.registry()
        .register(&mut listener, Token(0), Interest::READABLE)?;
    Ok((listener, poll))
}

/// The site to which a message goes.
fn addressee(message: &Message) -> u8 {
    match message {
        Message::Parcel(parcel) => parcel.to,
        Message::Ask { to, .. } | Message::Offer { to, .. } => *to,
    }
}

impl<'a, N: Net + Clock + Eprint> Porter<'a, N> {
    pub fn new(
        net: &'a N,
        alloc: Global,
        port: &TcpListener,
        stop: &'a AtomicU64,
        visit: Visit,
    ) -> Result<Porter<'a, N>, ClusterFault> {
        let (listener, poll) = match watched(net, port) {
            Ok(watched) => watched,
            Err(error) => return Err(ClusterFault::of_socket(&error)),
        };
        Ok(Porter {
            net,
            stop,
            listener,
            poll,
            events: Events::with_capacity(alloc, EVENTS)?,
            buffer: vec![in alloc; 0u8; PIECE]?,
            guests: Vec::new(alloc),
            turn: 0,
            is_busy: false,
            is_closed: false,
            visit,
            refused: None,
        })
    }

    fn stops(&self) -> bool {
        self.is_closed || self.stop.load(Ordering::SeqCst) != 0
    }

    /// No guest is heard any more.
    pub(crate) fn close(&mut self) {
        self.is_closed = true;
    }

    /// Lets a guest go. That a site's goes is told.
    fn let_go<D: Display + Drop>(&mut self, alloc: Global, at: usize, why: D) {
        if at >= self.guests.len() {
            return;
        }
        let gone = self.guests.remove(at);
        if let (Some(apart), Some(from)) = (self.visit.apart, gone.from()) {
            if gone.is_told {
                tell_down(self.net, alloc, from, apart.site, why);
            }
        }
    }

    /// Tells that a site has come, unless that was told.
    fn tell_of(&mut self, alloc: Global, at: usize) {
        let (Some(apart), Some(guest)) = (self.visit.apart, self.guests.get_mut(at)) else {
            return;
        };
        if let (false, Some(from)) = (guest.is_told, guest.from()) {
            guest.is_told = true;
            tell_up(self.net, alloc, from, apart.site);
        }
    }

    /// Tells that a frame is refused, unless that was told just now.
    fn tell_refused(&mut self, alloc: Global, at: usize, fault: FrameFault) {
        if self.visit.apart.is_none() || !self.may_tell() {
            return;
        }
        self.refused = Instant::now(self.net).ok();
        let from = match self.guests.get(at) {
            Some(guest) => guest.from(),
            None => None,
        };
        let line = match from {
            Some(site) => format!(in alloc; "a frame from site {site} is refused: {fault}\n"),
            None => format!(in alloc; "a frame from a stranger is refused: {fault}\n"),
        };
        tell(self.net, line);
    }

    /// Whether it may be told that a frame is refused.
    fn may_tell(&self) -> bool {
        let Some(refused) = self.refused else {
            return true;
        };
        match refused.elapsed(self.net) {
            Ok(passed) => passed >= Duration::from_millis(SILENCE),
            Err(_) => false,
        }
    }

    /// How many guests have brought no frame, and the first of them.
    fn strangers(&self) -> (usize, usize) {
        let mut count = 0usize;
        let mut first = 0;
        for at in 0..self.guests.len() {
            if let Some(guest) = self.guests.get(at) {
                if guest.is_stranger() {
                    first = if count == 0 { at } else { first };
                    count = count.saturating_add(1);
                }
            }
        }
        (count, first)
    }

    /// Lets in who has come. Where there are too many strangers the first of them goes.
    fn let_in(&mut self, alloc: Global) {
        for _guest in 0..STRANGERS {
            let Ok((mut stream, _)) = self.listener.accept() else {
                return;
            };
            let told = self.poll.registry().register(
                &mut stream,
                Token(1),
                Interest::READABLE | Interest::WRITABLE,
            );
            if told.is_err() {
                continue;
            }
            let (count, first) = self.strangers();
            if count >= STRANGERS {
                self.let_go(alloc, first, "another stranger came");
            }
            let socket = Socket::new(stream, None);
            let guest = Guest::new(self.net, alloc, socket, self.visit.patience);
            let _ = self.guests.push(guest);
        }
    }

    /// A guest has brought a message of a site: whoever brought messages of that site before it goes.
    fn is_known(&mut self, alloc: Global, at: usize, site: u8) {
        for other in 0..self.guests.len() {
            let Some(guest) = self.guests.get(other) else {
                return;
            };
            if other != at && guest.is_from(site) {
                self.let_go(alloc, other, "a newer connection takes its place");
                return;
            }
        }
    }

    /// What the guest whose turn it is brings. One that is late goes, and so does one that nothing can be written to.
    fn brought(&mut self, alloc: Global) -> Brought {
        let Some(guest) = self.guests.get_mut(self.turn) else {
            return Brought::Later;
        };
        if !guest.writes(alloc) {
            return guest.left();
        }
        let brought = guest.brings(alloc, self.buffer.as_mut_slice());
        let waits = matches!(&brought, Brought::More | Brought::Later | Brought::Memory);
        if waits && guest.is_late(self.net) {
            guest.left()
        } else {
            brought
        }
    }

    /// The message that a guest has brought, unless it comes from nobody who may come.
    fn heard(&mut self, alloc: Global, at: usize, message: Message) -> Result<Message, LinkError> {
        if let Some(apart) = self.visit.apart {
            if !apart.expects(&message) {
                self.tell_refused(alloc, at, FrameFault::Field);
                self.let_go(alloc, at, FrameFault::Field);
                self.turn = at;
                return Err(LinkError::Frame(FrameFault::Field));
            }
        }
        self.tell_of(alloc, at);
        self.is_known(alloc, at, message.sender());
        Ok(message)
    }

    /// Hears the guest whose turn it is, and what it brings, unless it is to be waited for.
    fn hear(&mut self, alloc: Global) -> Option<Result<Message, LinkError>> {
        let at = self.turn;
        let brought = self.brought(alloc);
        self.is_busy = self.is_busy || matches!(&brought, Brought::More);
        if !matches!(&brought, Brought::Refused(_) | Brought::Over) {
            self.turn = at.saturating_add(1);
        }
        match brought {
            Brought::Message(message) => Some(self.heard(alloc, at, message)),
            Brought::More | Brought::Later => None,
            Brought::Memory => Some(Err(LinkError::Memory)),
            Brought::Refused(fault) => {
                self.tell_refused(alloc, at, fault);
                self.let_go(alloc, at, fault);
                Some(Err(LinkError::Frame(fault)))
            }
            Brought::Over => {
                self.let_go(alloc, at, "the other end has closed it");
                None
            }
        }
    }

    /// Hears each guest once, up to one that brings something.
    fn hear_all(&mut self, alloc: Global) -> Option<Result<Message, LinkError>> {
        for _guest in 0..self.guests.len() {
            if self.turn >= self.guests.len() {
                self.turn = 0;
            }
            let heard = self.hear(alloc);
            if heard.is_some() {
                return heard;
            }
        }
        None
    }

    /// The next message, or frame that is refused. Closed once the cluster stops, or it was closed.
    pub(crate) fn get<R: Wait>(&mut self, rt: &R, alloc: Global) -> Result<Message, LinkError> {
        for _ in rt.forever() {
            if self.stops() {
                self.guests.clear();
                return Err(LinkError::Closed);
            }
            self.let_in(alloc);
            self.is_busy = false;
            match self.hear_all(alloc) {
                Some(Err(LinkError::Memory)) => {
                    self.stop.park_timeout(rt, 0, Duration::from_millis(PAUSE));
                    return Err(LinkError::Memory);
                }
                Some(heard) => return heard,
                None => {}
            }
            let most = if self.is_busy { 0 } else { PAUSE };
            // a signal ends the wait, and no more
            let _ = self
                .poll
                .poll(&mut self.events, Some(Duration::from_millis(most)));
        }
        unreachable!()
    }

    /// Answers the guest that brings the messages of the site to which this one goes. A guest that has not taken its last answer goes.
    pub(crate) fn put(&mut self, alloc: Global, message: Message) -> Result<(), LinkError>
        requires { PayloadInRange (payload_of message) }
    {
        let to = addressee(&message);
        let frame = match encode(alloc, &message) {
            Ok(frame) => frame,
            Err(EncodeFault::TooLong) => return Err(LinkError::TooLong),
            Err(EncodeFault::Memory) => return Err(LinkError::Memory),
        };
        let Some(at) = self.place_of(to) else {
            return Err(LinkError::Closed);
        };
        let Some(guest) = self.guests.get_mut(at) else {
            return Err(LinkError::Closed);
        };
        if guest.answer(self.net, alloc, frame) {
            return Ok(());
        }
        self.let_go(alloc, at, "it takes no answer");
        Err(LinkError::Io)
    }

    /// Where the guest stands that brings the messages of a site.
    fn place_of(&self, site: u8) -> Option<usize> {
        for at in 0..self.guests.len() {
            let guest = self.guests.get(at)?;
            if guest.is_from(site) {
                return Some(at);
            }
        }
        None
    }
}
