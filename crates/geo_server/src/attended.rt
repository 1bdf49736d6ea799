//! Letting clients in at a site that an operator may stop.
use crate::mailbox::{Mailbox, least};
use crate::operator::{OPERATOR, Operator, Order};
use crate::registrar::Registrar;
use crate::report::write_all;
use crate::site::{Course, Door};
use geo_grammar::Device;
use geo_socket::keep_alive;
use geo_station::Room;
use geo_wires::{ClusterFault, tell, watched};
use mio::net::TcpListener as Listener;
use mio::{Events, Poll};
use std::alloc::Global;
use std::io::{ErrorKind, Read, Write};
use std::net::{Net, OpenListener, OpenStream, TcpListener};
use std::rt::Clock;
use std::sync::Wait;
use std::thread;
use std::time::{Duration, Instant};

/// For how many milliseconds it is waited for clients and for the operator, before it is seen whether the site stops.
const PAUSE: u64 = 100;

/// For how many milliseconds accepting pauses where the system has no descriptor or no memory for a connection.
const SHORT_PAUSE: u64 = 10;

/// How many clients are let in before the operator is heard.
const TURNS: usize = 64;

/// How many are let in at most once the site stops: those that came before.
const LAST_TURNS: usize = 4096;

/// How many sockets are told of at once.
const EVENTS: usize = 8;

/// Where clients come in.
#[derive(Drop)]
struct Gateway {
    port: TcpListener,
    /// The same, for whoever tells that somebody has come.
    watched: Listener,
}

/// What came of letting in.
#[derive(Clone, Copy, PartialEq, Eq)]
enum Came {
    /// Nobody waits any more.
    All,
    /// Others may wait.
    Part,
}

/// Who lets clients in, and hears the operator meanwhile.
#[derive(Drop)]
pub(crate) struct Attended<'a, N, I, W> {
    net: &'a N,
    site: u8,
    /// None once no more clients are let in.
    gateway: Option<Gateway>,
    poll: Poll,
    events: Events<Global>,
    /// How many clients are still let in, if that has an end.
    left: Option<u64>,
    /// How long clients may take what they are owed once the site stops.
    drain: Duration,
    operator: Operator<I>,
    writer: &'a mut Device<W>,
}

/// What somebody who lets clients in is told.
#[derive(Clone, Copy)]
pub(crate) struct Watch {
    pub(crate) site: u8,
    pub(crate) sessions: Option<u64>,
    pub(crate) drain: Duration,
}

impl<'a, N: Net + Clock + Eprint, I: Read + Drop, W: Write + Drop> Attended<'a, N, I, W> {
    pub(crate) fn new(
        net: &'a N,
        alloc: Global,
        port: TcpListener,
        watch: Watch,
        operator: Operator<I>,
        writer: &'a mut Device<W>,
    ) -> Result<Attended<'a, N, I, W>, ClusterFault> {
        let (listener, poll) = match watched(net, &port) {
            Ok(watched) => watched,
            Err(error) => return Err(ClusterFault::of_socket(&error)),
        };
        let Watch {
            site,
            sessions,
            drain,
        } = watch;
        let mut operator = operator;
        operator.watch(poll.registry());
        Ok(Attended {
            net,
            site,
            gateway: Some(Gateway {
                port,
                watched: listener,
            }),
            poll,
            events: Events::with_capacity(alloc, EVENTS)?,
            left: sessions,
            drain,
            operator,
            writer,
        })
    }

    /// Lets no more clients in.
    fn shuts<R: Wait>(&mut self, rt: &R, mailboxes: &[Mailbox]) {
        self.gateway = None;
        for mailbox in mailboxes {
            mailbox.close(rt);
        }
    }

    /// Counts a client. Whether it was the last.
    fn was_last(&mut self) -> bool {
        let Some(left) = self.left else {
            return false;
        };
        let left = left.saturating_sub(1);
        self.left = Some(left);
        left == 0
    }

    /// Lets in some of those who have come.
    fn lets_in<R: Wait + Clock>(&mut self, rt: &R, mailboxes: &[Mailbox], most: usize) -> Came {
        for _client in 0..most {
            let Some(gateway) = &self.gateway else {
                return Came::All;
            };
            match gateway.port.accept() {
                Ok((stream, _)) => {
                    // a small reply is not to wait for a larger one
                    let _ = stream.set_nodelay(true);
                    keep_alive(&stream);
                    if let Some(mailbox) = least(mailboxes) {
                        mailbox.hand_in(rt, stream);
                    }
                    if self.was_last() {
                        self.shuts(rt, mailboxes);
                    }
                }
                Err(error) if error.kind() == ErrorKind::WouldBlock => return Came::All,
                Err(_) => {
                    thread::sleep(rt, Duration::from_millis(SHORT_PAUSE));
                    return Came::Part;
                }
            }
        }
        Came::Part
    }

    /// Waits until somebody has come or the operator has said something, and tells whether the operator has.
    fn waits(&mut self, came: Came) -> bool {
        self.operator.watch_on(self.poll.registry());
        let most = if came == Came::All { PAUSE } else { 0 };
        // a signal ends the wait, and no more
        let _ = self
            .poll
            .poll(&mut self.events, Some(Duration::from_millis(most)));
        self.events.iter().any(|event| event.token() == OPERATOR)
    }

    /// Hears the operator, and does what is ordered but for a stop. Whether the site is to stop.
    fn is_to_stop<R: Wait, L: Room>(
        &mut self,
        rt: &R,
        alloc: Global,
        registrar: &mut Registrar<'_, L>,
        is_told: bool,
    ) -> bool {
        for order in self.operator.orders(alloc, is_told) {
            match order {
                Order::Stop => return true,
                Order::Retire(other) => {
                    let line = registrar.retire(rt, alloc, other).line();
                    let _told = write_all(self.writer, line);
                }
                Order::Unknown => {
                    let _told = write_all(self.writer, b"unknown\n");
                }
            }
        }
        false
    }

    /// Lets those in who came before, and no more, and has the workers let go of all, of whom some may have time for that.
    fn stops<R: Wait + Clock, G>(
        &mut self,
        rt: &R,
        alloc: Global,
        course: &Course<'_, G>,
        mailboxes: &[Mailbox],
    ) {
        let site = self.site;
        tell(self.net, format!(in alloc; "site {site} stops\n"));
        let _came = self.lets_in(rt, mailboxes, LAST_TURNS);
        course.closes();
        self.shuts(rt, mailboxes);
        let since = Instant::now(rt).ok();
        for _look in rt.forever() {
            if course.stops() {
                return;
            }
            if is_over(rt, since, self.drain) {
                course.cuts_off();
            }
            course.waits_for_the_end(rt, Duration::from_millis(PAUSE));
        }
    }
}

/// Whether a time has passed since then.
fn is_over<R: Clock>(rt: &R, since: Option<Instant>, time: Duration) -> bool {
    let Some(since) = since else {
        return true;
    };
    match since.elapsed(rt) {
        Ok(passed) => passed >= time,
        Err(_) => true,
    }
}

impl<N: Net + Clock + Eprint, I: Read + Drop, W: Write + Drop> Door for Attended<'_, N, I, W> {
    fn attend<R: Wait + Clock, L: Room, G>(
        self,
        rt: &R,
        alloc: Global,
        course: &Course<'_, G>,
        registrar: &mut Registrar<'_, L>,
        mailboxes: &[Mailbox],
    ) {
        let mut door = self;
        let site = door.site;
        tell(door.net, format!(in alloc; "site {site} is ready\n"));
        for _turn in rt.forever() {
            let came = door.lets_in(rt, mailboxes, TURNS);
            let is_told = door.waits(came);
            if course.stops() {
                return;
            }
            if door.is_to_stop(rt, alloc, registrar, is_told) {
                door.stops(rt, alloc, course, mailboxes);
                return;
            }
        }
    }
}
