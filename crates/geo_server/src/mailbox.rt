//! Where a worker gets its clients.
use mio::Waker;
use std::alloc::Global;
use std::mem;
use std::net::TcpStream;
use std::sync::atomic::{AtomicU64, Ordering};
use std::sync::{Mutex, Wait};

/// Clients that were let in and that no worker carries yet.
#[derive(Drop)]
struct Waiting {
    clients: Vec<TcpStream>,
    is_closed: bool,
}

/// Where a worker gets its clients.
#[derive(Drop)]
pub(crate) struct Mailbox {
    waiting: Mutex<Waiting>,
    waker: Waker,
    /// How many clients were handed in and have not ended.
    load: AtomicU64,
}

impl Mailbox {
    pub(crate) fn new(alloc: Global, waker: Waker) -> Mailbox {
        Mailbox {
            waiting: Mutex::new(Waiting {
                clients: Vec::new(alloc),
                is_closed: false,
            }),
            waker,
            load: AtomicU64::new(0),
        }
    }

    /// How many clients the worker has.
    pub(crate) fn load(&self) -> u64 {
        self.load.load(Ordering::SeqCst)
    }

    /// So many of them ended.
    pub(crate) fn have_ended(&self, count: usize) {
        self.load.fetch_sub(count as u64, Ordering::SeqCst);
    }

    /// Puts a client. Where memory is refused it is let go.
    fn put<R: Wait>(&self, rt: &R, client: TcpStream) -> bool {
        self.waiting.lock(rt).clients.push(client).is_ok()
    }

    /// Hands a client in, and wakes the worker.
    pub(crate) fn hand_in<R: Wait>(&self, rt: &R, client: TcpStream) {
        self.load.fetch_add(1, Ordering::SeqCst);
        if !self.put(rt, client) {
            self.have_ended(1);
        }
        let _ = self.waker.wake();
    }

    /// No more clients come.
    pub(crate) fn close<R: Wait>(&self, rt: &R) {
        self.waiting.lock(rt).is_closed = true;
        let _ = self.waker.wake();
    }

    /// All clients that wait, and whether more may come.
    pub(crate) fn take<R: Wait>(&self, rt: &R, alloc: Global) -> (Vec<TcpStream>, bool) {
        let mut waiting = self.waiting.lock(rt);
        let clients = mem::replace(&mut waiting.clients, Vec::new(alloc));
        (clients, waiting.is_closed)
    }
}

/// The mailbox of the worker that has the fewest clients, the first of several.
pub(crate) fn least(mailboxes: &[Mailbox]) -> Option<&Mailbox> {
    let mut found: Option<&Mailbox> = None;
    for mailbox in mailboxes {
        match found {
            Some(other) if other.load() <= mailbox.load() => {}
            _ => found = Some(mailbox),
        }
    }
    found
}
