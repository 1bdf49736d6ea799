//! Connections that are over, whose clients may still send.
use geo_socket::{Drained, Socket};
use std::alloc::Global;
use std::rt::Clock;
use std::time::{Duration, Instant};

/// How many bytes of a client are dropped at most before its connection is closed.
const MOST_DROPPED: usize = 1 << 20;

/// For how many milliseconds a connection that is over is kept open, at most.
const PATIENCE: u64 = 1000;

/// A connection that is over.
#[derive(Drop)]
struct Leaver<'a> {
    socket: Socket<'a>,
    /// How many bytes have come since, and were dropped.
    dropped: usize,
    since: Option<Instant>,
}

impl Leaver<'_> {
    /// Drops what has come. Whether more may come and is waited for.
    fn stays<R: Clock>(&mut self, rt: &R) -> bool {
        let Some(since) = self.since else {
            return false;
        };
        let Ok(passed) = since.elapsed(rt) else {
            return false;
        };
        match self.socket.drain() {
            Drained::Over => false,
            Drained::Later(count) => {
                self.dropped = self.dropped.saturating_add(count);
                self.dropped < MOST_DROPPED && passed < Duration::from_millis(PATIENCE)
            }
        }
    }
}

/// Connections that are over, whose clients may still send. A socket that is closed with input that nobody read is reset, and the
/// client may never see what was written to it last. So it is told that no more comes, what it sends is dropped, and it is closed
/// once it has sent all, a mebibyte, or for a second.
#[derive(Drop)]
pub(crate) struct Leaving<'a> {
    all: Vec<Leaver<'a>>,
}

impl<'a> Leaving<'a> {
    /// None.
    pub(crate) fn new(alloc: Global) -> Leaving<'a> {
        Leaving {
            all: Vec::new(alloc),
        }
    }

    pub(crate) fn is_empty(&self) -> bool {
        self.all.is_empty()
    }

    /// One more. Where memory is refused it is closed at once.
    pub(crate) fn add<R: Clock>(&mut self, rt: &R, socket: Socket<'a>) {
        if !socket.says_no_more() {
            return;
        }
        let leaver = Leaver {
            socket,
            dropped: 0,
            since: Instant::now(rt).ok(),
        };
        let _ = self.all.push(leaver);
    }

    /// Drops what has come, and closes those that have no more to wait for.
    pub(crate) fn go_on<R: Clock>(&mut self, rt: &R) {
        let mut kept = 0;
        for _visit in 0..self.all.len() {
            let Some(leaver) = self.all.get_mut(kept) else {
                return;
            };
            if leaver.stays(rt) {
                kept += 1;
            } else {
                let _closed = self.all.swap_remove(kept);
            }
        }
    }
}
