//! Letting clients in.
use crate::mailbox::{Mailbox, least};
use crate::registrar::Registrar;
use crate::site::{Course, Door};
use geo_station::Room;
use std::alloc::Global;
use std::net::{OpenListener, TcpListener, TcpStream};
use std::rt::Clock;
use std::sync::Wait;
use std::thread;
use std::time::Duration;

/// For how many milliseconds accepting pauses where the system has no descriptor or no memory for a connection.
const PAUSE: u64 = 10;

/// The next connection. A client that went away before it was let in is not one.
fn next_connection<R: Wait + Clock>(rt: &R, listener: &TcpListener) -> TcpStream {
    for _ in rt.forever() {
        match listener.accept() {
            Ok((stream, _)) => return stream,
            Err(_) => thread::sleep(rt, Duration::from_millis(PAUSE)),
        }
    }
    unreachable!()
}

/// Where clients come in.
#[derive(Drop)]
pub(crate) struct Entrance {
    pub(crate) listener: TcpListener,
    /// How many are let in.
    pub(crate) sessions: u64,
}

/// Lets so many clients in, and hands each to the worker that has the fewest. Then it listens no more.
fn accept<R: Wait + Clock>(rt: &R, listener: TcpListener, sessions: u64, mailboxes: &[Mailbox]) {
    for _session in 0..sessions {
        let stream = next_connection(rt, &listener);
        // a small reply is not to wait for a larger one
        let _ = stream.set_nodelay(true);
        if let Some(mailbox) = least(mailboxes) {
            mailbox.hand_in(rt, stream);
        }
    }
    for mailbox in mailboxes {
        mailbox.close(rt);
    }
}

impl Door for Entrance {
    fn attend<R: Wait + Clock, L: Room, G>(
        self,
        rt: &R,
        _alloc: Global,
        _course: &Course<'_, G>,
        _registrar: &mut Registrar<'_, L>,
        mailboxes: &[Mailbox],
    ) {
        let Entrance { listener, sessions } = self;
        accept(rt, listener, sessions, mailboxes);
    }
}
