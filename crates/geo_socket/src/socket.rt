//! A client's socket, which never waits.
use crate::stream::{Accepted, Given, Stream};
use mio::Registry;
use mio::net::TcpStream;
use std::io::{self, Error, ErrorKind, Read, Write};
use std::net::Shutdown;
use std::sync::atomic::{AtomicU64, Ordering};

/// A client's socket, which never waits. What a network brings is not known to contracts.
#[derive(Drop)]
pub struct Socket<'a> {
    stream: TcpStream,
    /// How far the site has gone in letting clients go, where it may: 0 not at all, 1 it lets go of whoever rests, 2 of all.
    closing: Option<&'a AtomicU64>,
}

/// What came of dropping input.
pub enum Drained {
    /// So many bytes were dropped, and more may come.
    Later(usize),
    /// The client has sent all, or the connection has failed.
    Over,
}

/// How many bytes are dropped at once.
const DROPPED: usize = 4096;

/// How often that is done before others have their turn.
const TURNS: usize = 16;

impl<'a> Socket<'a> {
    ghost use Rattle.std.specs.Prelude.{None};
    ghost use Rattle.geo_socket.specs.Streams.{Gives};

    pub fn new(stream: TcpStream, closing: Option<&'a AtomicU64>) -> Socket<'a> {
        Socket { stream, closing }
    }

    /// How far the site has gone in letting clients go.
    fn closing(&self) -> u64 {
        match self.closing {
            Some(closing) => closing.load(Ordering::SeqCst),
            None => 0,
        }
    }

    /// Reads once.
    fn receive(&mut self, buffer: &mut [u8]) -> Given
        ensures { Gives None None buffer.new result }
    {
        match self.stream.read(buffer) {
            Ok(0) => Given::End,
            Ok(count) => Given::Bytes(count),
            Err(error) if is_later(&error) => Given::Later,
            Err(_) => Given::Failed,
        }
    }

    /// Nobody tells any more that it is ready.
    pub fn leave(&mut self, registry: &Registry) -> io::Result<()> {
        registry.deregister(&mut self.stream)
    }

    /// Tells the client that no more comes. False where the connection has failed.
    pub fn says_no_more(&self) -> bool {
        self.stream.shutdown(Shutdown::Write).is_ok()
    }

    /// Reads what the client has sent, and drops it.
    pub fn drain(&mut self) -> Drained {
        let mut buffer = [0u8; DROPPED];
        let mut all = 0usize;
        for _turn in 0..TURNS {
            match self.receive(&mut buffer) {
                Given::Bytes(count) => all = all.saturating_add(count),
                Given::Later => return Drained::Later(all),
                Given::End | Given::Failed => return Drained::Over,
            }
        }
        Drained::Later(all)
    }
}

/// Whether the socket has only to be waited for.
fn is_later(error: &Error) -> bool {
    matches!(error.kind(), ErrorKind::WouldBlock)
}

impl Stream for Socket<'_> {
    ghost use Rattle.std.specs.Prelude.{None};

    ghost remaining = { λ _. None };

    ghost contents = { λ _. None };

    fn read(&mut self, buffer: &mut [u8]) -> Given {
        let closing = self.closing();
        if closing > 1 {
            return Given::End;
        }
        match self.receive(buffer) {
            // it rests, and all that came of it is answered
            Given::Later if closing > 0 => Given::End,
            given => given,
        }
    }

    fn write(&mut self, bytes: &[u8]) -> Accepted {
        match self.stream.write(bytes) {
            Ok(0) => Accepted::Failed,
            Ok(count) => Accepted::Bytes(count),
            Err(error) if is_later(&error) && self.closing() < 2 => Accepted::Later,
            Err(_) => Accepted::Failed,
        }
    }
}
