//! The putting end of a connection to a peer port.
ghost use Rattle.std.specs.Prelude.{◌≡◌, IfOk};
ghost use Rattle.geo_wires.specs.Roads.{HasBegun};

use crate::frames::Frames;
use crate::tcp::prepared;
use geo_frame::{FrameFault, Message};
use geo_grammar::Device;
use geo_link::{Link, LinkError, StreamLink};
use std::alloc::{AllocError, Global};
use std::io::{self, Read};
use std::net::{OpenStream, Shutdown, TcpStream};
use std::rt::Clock;
use std::sync::Wait;
use std::time::{Duration, Instant};
use thiserror::Error;

/// How many bytes a read brings at most.
const PIECE: usize = 16_384;

/// How many bytes are read at once of what is dropped.
const SHORT_PIECE: usize = 256;

/// The reader of a link that only puts.
#[derive(Drop)]
struct Nothing;

impl Read for Nothing {
    fn read(&mut self, _buffer: &mut [u8]) -> io::Result<usize> {
        Ok(0)
    }
}

fn new_piece(alloc: Global) -> Result<Vec<u8>, AllocError> {
    vec![in alloc; 0u8; PIECE]
}

/// The putting end of a connection to a peer port. What comes over it is read only where somebody waits for it, and not for long.
#[derive(Drop)]
pub struct Road<'a, N> {
    net: &'a N,
    link: StreamLink<Nothing, TcpStream>,
    socket: TcpStream,
    /// How long it may take to make room for what is written, and to bring what is waited for.
    patience: Duration,
}

/// Why nothing can be put on a connection any more, or why it didn't end well.
#[derive(Clone, Copy, Debug, PartialEq, Eq, Error)]
pub(crate) enum RoadFault {
    #[error("the other end has closed it")]
    Closed,
    #[error("the other end says what it wasn't asked for")]
    Unasked,
    #[error("it has failed")]
    Failed,
    #[error("the other end takes nothing for too long")]
    Late,
}

impl<'a, N: Clock> Road<'a, N> {
    pub(crate) fn over(
        net: &'a N,
        alloc: Global,
        stream: TcpStream,
        patience: Duration,
    ) -> io::Result<Road<'a, N>>
        ensures { IfOk result (λ road. HasBegun road.link) }
    {
        let socket = prepared(stream, patience)?;
        let writer = Device::new(socket.try_clone()?);
        match StreamLink::new(alloc, Device::new(Nothing), writer) {
            Ok(link) => Ok(Road {
                net,
                link,
                socket,
                patience,
            }),
            Err(_) => Err(io::Error::from(io::ErrorKind::OutOfMemory)),
        }
    }

    /// Reads once, unless so much time has passed since then that no more is waited for.
    fn read(&self, since: Instant, frames: &mut Frames, piece: &mut [u8]) -> Result<(), LinkError> {
        let Ok(passed) = since.elapsed(self.net) else {
            return Err(LinkError::Io);
        };
        let left = self.patience.saturating_sub(passed);
        if left < Duration::from_millis(1) || self.socket.set_read_timeout(Some(left)).is_err() {
            return Err(LinkError::Io);
        }
        if frames.waiting.reserve(piece.len()).is_err() {
            return Err(LinkError::Memory);
        }
        let mut socket = &self.socket;
        match socket.read(piece) {
            Ok(0) => Err(LinkError::Closed),
            Ok(count) => {
                let (came, _) = piece.split_at(count);
                frames.waiting.extend_reserved(came);
                Ok(())
            }
            Err(_) => Err(LinkError::Io),
        }
    }

    /// Whether the other end is silent, as it has to be unless something is waited for.
    pub(crate) fn rests(&self) -> Result<(), RoadFault> {
        if self.socket.set_nonblocking(true).is_err() {
            return Err(RoadFault::Failed);
        }
        let mut byte = [0u8; 1];
        let seen = self.socket.peek(&mut byte);
        if self.socket.set_nonblocking(false).is_err() {
            return Err(RoadFault::Failed);
        }
        match seen {
            Ok(0) => Err(RoadFault::Closed),
            Ok(_) => Err(RoadFault::Unasked),
            Err(error) if error.kind() == io::ErrorKind::WouldBlock => Ok(()),
            Err(_) => Err(RoadFault::Failed),
        }
    }

    /// Tells the other end that no more comes, and waits until it has taken all and closes its own.
    pub(crate) fn finish(&self) -> Result<(), RoadFault> {
        let Ok(since) = Instant::now(self.net) else {
            return Err(RoadFault::Failed);
        };
        if self.socket.shutdown(Shutdown::Write).is_err() {
            return Err(RoadFault::Failed);
        }
        let mut bytes = [0u8; SHORT_PIECE];
        for _read in 0..u64::MAX {
            let Ok(passed) = since.elapsed(self.net) else {
                return Err(RoadFault::Failed);
            };
            let left = self.patience.saturating_sub(passed);
            if left < Duration::from_millis(1)
                || self.socket.set_read_timeout(Some(left)).is_err()
            {
                return Err(RoadFault::Late);
            }
            let mut socket = &self.socket;
            match socket.read(&mut bytes) {
                Ok(0) => return Ok(()),
                Ok(_) => {}
                Err(error) if error.kind() == io::ErrorKind::WouldBlock => {
                    return Err(RoadFault::Late);
                }
                Err(_) => return Err(RoadFault::Failed),
            }
        }
        Err(RoadFault::Late)
    }

    /// The message that is waited for. It has as long to come as a write may take, from now to its last byte, and nothing comes behind
    /// it.
    fn next(&self, alloc: Global) -> Result<Message, LinkError> {
        let Ok(since) = Instant::now(self.net) else {
            return Err(LinkError::Io);
        };
        let Ok(mut piece) = new_piece(alloc) else {
            return Err(LinkError::Memory);
        };
        let mut frames = Frames::new(alloc);
        for _read in 0..u64::MAX {
            match frames.next(alloc) {
                Ok(None) => {}
                Ok(Some(message)) => {
                    if frames.is_empty() {
                        return Ok(message);
                    }
                    return Err(LinkError::Io);
                }
                Err(FrameFault::Memory) => return Err(LinkError::Memory),
                Err(fault) => return Err(LinkError::Frame(fault)),
            }
            self.read(since, &mut frames, piece.as_mut_slice())?;
        }
        Err(LinkError::Io)
    }
}

impl<N: Clock> Link for Road<'_, N> {
    ghost use Rattle.std.specs.Prelude.{◌≡◌};
    ghost use Rattle.geo_link.specs.Streams.{PutsFrame, StopsPut, Closes};

    ghost puts = { λ old message new. PutsFrame old.link message new.link };

    // what comes is of the socket alone
    ghost gets = { λ old message new. new.link ≡ old.link };

    ghost put_fails = { λ old message error new. StopsPut old.link message error new.link };

    ghost get_fails = { λ old error new. new.link ≡ old.link };

    ghost closes = { λ old new. Closes old.link new.link };

    fn put<R: Wait>(&mut self, rt: &R, alloc: Global, message: Message) -> Result<(), LinkError> {
        self.link.put(rt, alloc, message)
    }

    fn get<R: Wait>(&mut self, _rt: &R, alloc: Global) -> Result<Message, LinkError> {
        self.next(alloc)
    }

    fn close(&mut self) {
        self.link.close();
    }
}
