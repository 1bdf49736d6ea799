//! A thread that carries clients' connections.
use crate::leaving::Leaving;
use crate::mailbox::Mailbox;
use geo_crowd::{Carried, Crowd, Passed, Polling, Ready};
use geo_session::{Backend, Gate};
use geo_socket::Socket;
use mio::{Events, Interest, Poll, Token};
use std::alloc::{AllocError, Global};
use std::net::TcpStream;
use std::rt::Clock;
use std::sync::Wait;
use std::sync::atomic::{AtomicU64, Ordering};
use std::time::Duration;

/// By which a worker knows that clients were handed in.
pub(crate) const HANDED_IN: Token = Token(usize::MAX);

/// How many sockets are told of at once.
const EVENTS: usize = 256;

/// For how many milliseconds a worker waits where nothing is ready, before it looks into its mailbox all the same.
const PATIENCE: u64 = 1000;

/// For how many milliseconds it waits where some connections that are over are still open.
const BRIEFLY: u64 = 20;

/// The sockets of a worker, as the system tells of them.
#[derive(Drop)]
struct Sockets<'a> {
    poll: Poll,
    events: Events<Global>,
    /// Those that were ready when the last wait ended, as many as `events` has room for.
    ready: Vec<Ready>,
    /// Whether clients may have been handed in since.
    is_called: bool,
    /// Whether some connections that are over are still open.
    has_leavers: bool,
    /// How far the site has gone in letting clients go.
    closing: &'a AtomicU64,
    /// One more than the greatest number of a connection.
    numbers: usize,
}

impl Sockets<'_> {
    /// For how many milliseconds to wait.
    fn patience(&self, at_once: bool) -> u64 {
        if at_once {
            0
        } else if self.has_leavers || self.is_closing() {
            BRIEFLY
        } else {
            PATIENCE
        }
    }
}

impl Sockets<'_> {
    /// Whether clients are let go.
    fn is_closing(&self) -> bool {
        self.closing.load(Ordering::SeqCst) > 0
    }

    /// Has each connection looked at, whether the system tells of it or not: of one that rests it tells nothing.
    fn add_all(&mut self) {
        for number in 0..self.numbers {
            let _ = self.ready.push(Ready {
                number,
                readable: true,
                writable: true,
                ending: false,
            });
        }
    }
}

impl Polling for Sockets<'_> {
    ghost told = { λ s. s.ready.items };

    fn wait(&mut self, at_once: bool) {
        let most = self.patience(at_once);
        // a signal ends the wait, and no more
        let _ = self
            .poll
            .poll(&mut self.events, Some(Duration::from_millis(most)));
        self.ready.clear();
        self.is_called = self.events.is_empty() && !at_once;
        for event in self.events.iter() {
            let Token(number) = event.token();
            if event.token() == HANDED_IN {
                self.is_called = true;
                continue;
            }
            let is_over = event.is_read_closed() || event.is_error();
            let _ = self.ready.push(Ready {
                number,
                readable: event.is_readable() || is_over,
                writable: event.is_writable() || is_over,
                ending: is_over,
            });
        }
        if self.is_closing() {
            self.add_all();
        }
    }

    fn ready(&self) -> &[Ready] {
        self.ready.as_slice()
    }
}

/// A thread that carries clients' connections, as many as come.
#[derive(Drop)]
pub(crate) struct Worker<'a> {
    sockets: Sockets<'a>,
    crowd: Crowd<Socket<'a>>,
    leaving: Leaving<'a>,
    mailbox: &'a Mailbox,
    /// Whether no more clients come.
    is_closed: bool,
}

impl<'a> Worker<'a> {
    pub(crate) fn new(
        alloc: Global,
        poll: Poll,
        mailbox: &'a Mailbox,
        closing: &'a AtomicU64,
    ) -> Result<Worker<'a>, AllocError> {
        let sockets = Sockets {
            poll,
            events: Events::with_capacity(alloc, EVENTS)?,
            ready: Vec::with_capacity(alloc, EVENTS)?,
            is_called: false,
            has_leavers: false,
            closing,
            numbers: 0,
        };
        Ok(Worker {
            sockets,
            crowd: Crowd::new(alloc)?,
            leaving: Leaving::new(alloc),
            mailbox,
            is_closed: false,
        })
    }

    /// Takes a client in, and tells whether that could be done.
    fn add(&mut self, alloc: Global, client: TcpStream) -> bool {
        if client.set_nonblocking(true).is_err() {
            return false;
        }
        let mut stream = mio::net::TcpStream::from_std(client);
        let number = self.crowd.next_number();
        let token = Token(number);
        let interests = Interest::READABLE | Interest::WRITABLE;
        if self
            .sockets
            .poll
            .registry()
            .register(&mut stream, token, interests)
            .is_err()
        {
            return false;
        }
        self.sockets.numbers = self.sockets.numbers.max(number.saturating_add(1));
        let socket = Socket::new(stream, Some(self.sockets.closing));
        self.crowd.add(Carried::new(alloc, socket)).is_ok()
    }

    /// Takes in all who were handed in.
    fn take_in<R: Wait>(&mut self, rt: &R, alloc: Global) {
        let (clients, is_closed) = self.mailbox.take(rt, alloc);
        self.is_closed = is_closed;
        for client in clients {
            if !self.add(alloc, client) {
                self.mailbox.have_ended(1);
            }
        }
    }

    /// Lets go of the connections that are over, once their clients have sent all.
    fn let_go<R: Clock>(&mut self, rt: &R) {
        for mut socket in self.crowd.take_left() {
            let _ = socket.leave(self.sockets.poll.registry());
            self.leaving.add(rt, socket);
        }
        self.leaving.go_on(rt);
        self.sockets.has_leavers = !self.leaving.is_empty();
    }

    /// Gives each connection that is ready its turn, and takes in who was handed in meanwhile. What ended is told.
    pub(crate) fn turn<R: Wait + Clock, B: Backend, G: Gate>(
        &mut self,
        rt: &R,
        alloc: Global,
        backend: &mut B,
        gate: &G,
    ) -> Passed {
        let passed = self.crowd.round(rt, &mut self.sockets, backend, gate);
        self.mailbox.have_ended(passed.ended);
        self.let_go(rt);
        if self.sockets.is_called {
            self.take_in(rt, alloc);
        }
        passed
    }

    /// Whether no more clients come and all have ended.
    pub(crate) fn is_done(&self) -> bool {
        self.is_closed && self.crowd.is_empty() && self.leaving.is_empty()
    }
}
