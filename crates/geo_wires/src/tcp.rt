//! Links between sites over sockets.
ghost use Rattle.geo_frame.specs.Payloads.{PayloadInRange, payload_of};

use crate::fault::ClusterFault;
use crate::porter::Porter;
use crate::putting::{Putting, Target, Way, putting_link};
use crate::road::Road;
use geo_frame::Message;
use geo_grammar::Device;
use geo_link::{Link, LinkError, StreamLink};
use geo_socket::keep_alive;
use std::alloc::Global;
use std::io;
use std::net::{Net, OpenListener, OpenStream, TcpListener, TcpStream};
use std::rt::Clock;
use std::sync::Wait;
use std::sync::atomic::{AtomicU64, Ordering};
use std::time::Duration;

/// For how many milliseconds a link is left alone where memory was refused for what comes.
const PAUSE: u64 = 50;

/// Messages that come over a socket, and what is answered on it.
pub(crate) type TcpLink = StreamLink<TcpStream, TcpStream>;

/// A socket of which a write to a peer that takes nothing for long fails.
pub(crate) fn prepared(stream: TcpStream, patience: Duration) -> io::Result<TcpStream> {
    // a small message is not to wait for a larger one
    let _ = stream.set_nodelay(true);
    keep_alive(&stream);
    stream.set_write_timeout(Some(patience))?;
    Ok(stream)
}

/// A link over a socket that is let in.
fn link_over(alloc: Global, stream: TcpStream, patience: Duration) -> io::Result<TcpLink> {
    let stream = prepared(stream, patience)?;
    let reader = Device::new(stream.try_clone()?);
    match StreamLink::new(alloc, reader, Device::new(stream)) {
        Ok(link) => Ok(link),
        Err(_) => Err(io::Error::from(io::ErrorKind::OutOfMemory)),
    }
}

/// The two ends of a connection to a peer port: the one that connected, and the one that was let in. Strangers who came first are
/// turned away.
fn connected<R: Net<Stream = TcpStream, Listener = TcpListener>>(
    rt: &R,
    port: &TcpListener,
) -> io::Result<(TcpStream, TcpStream)> {
    let putting = TcpStream::connect(rt, port.local_addr()?)?;
    let own = putting.local_addr()?;
    for _stranger in 0..u64::MAX {
        let (getting, from) = port.accept()?;
        if from == own {
            return Ok((putting, getting));
        }
    }
    Err(io::Error::from(io::ErrorKind::AddrNotAvailable))
}

/// Both ends of a connection to a peer port.
fn joined<'a, R: Net<Stream = TcpStream, Listener = TcpListener> + Clock>(
    rt: &'a R,
    alloc: Global,
    port: &TcpListener,
    patience: Duration,
) -> io::Result<(Road<'a, R>, TcpLink)> {
    let (putting, getting) = connected(rt, port)?;
    Ok((
        Road::over(rt, alloc, putting, patience)?,
        link_over(alloc, getting, patience)?,
    ))
}

/// Both ends of a link that leads to a peer port: for the site that puts, and for the one whose port it is.
pub(crate) fn tcp_link<'a, R: Net<Stream = TcpStream, Listener = TcpListener> + Clock + Eprint>(
    rt: &'a R,
    alloc: Global,
    port: &TcpListener,
    stop: &'a AtomicU64,
    way: Way,
    patience: Duration,
) -> Result<(Putting<'a, R>, Getting<'a, R>), ClusterFault> {
    let Ok(address) = port.local_addr() else {
        return Err(ClusterFault::Socket);
    };
    match joined(rt, alloc, port, patience) {
        Ok((putting, getting)) => {
            let own = Own {
                link: getting,
                stop,
            };
            Ok((
                putting_link(rt, stop, way, Target { address, patience }, putting),
                Getting::Own(own),
            ))
        }
        Err(error) => Err(ClusterFault::of_socket(&error)),
    }
}

/// The getting end of the link with which a site began.
#[derive(Drop)]
pub struct Own<'a> {
    link: TcpLink,
    stop: &'a AtomicU64,
}

impl Own<'_> {
    /// What is told where memory was refused: that, after a pause, for it may be there by then. Once the cluster stops nobody waits
    /// for it.
    fn wants_memory<R: Wait>(&self, rt: &R) -> LinkError {
        if self.stop.load(Ordering::SeqCst) != 0 {
            return LinkError::Closed;
        }
        self.stop.park_timeout(rt, 0, Duration::from_millis(PAUSE));
        LinkError::Memory
    }

    fn get<R: Wait>(&mut self, rt: &R, alloc: Global) -> Result<Message, LinkError> {
        match self.link.get(rt, alloc) {
            Err(LinkError::Memory) => Err(self.wants_memory(rt)),
            answer => answer,
        }
    }
}

/// What a thread of a site gets from: the link with which it began, or whoever comes to the port later.
#[derive(Drop)]
pub enum Getting<'a, N> {
    Own(Own<'a>),
    Guests(Porter<'a, N>),
}

impl<N: Net + Clock + Eprint> Link for Getting<'_, N> {
    // what strangers send is not known
    ghost puts = { λ _ _ _. Unit {0} };

    ghost gets = { λ _ _ _. Unit {0} };

    ghost put_fails = { λ _ _ _ _. Unit {0} };

    ghost get_fails = { λ _ _ _. Unit {0} };

    ghost closes = { λ _ _. Unit {0} };

    fn put<R: Wait>(&mut self, rt: &R, alloc: Global, message: Message) -> Result<(), LinkError> {
        match self {
            Getting::Own(own) => own.link.put(rt, alloc, message),
            Getting::Guests(porter) => porter.put(alloc, message),
        }
    }

    fn get<R: Wait>(&mut self, rt: &R, alloc: Global) -> Result<Message, LinkError> {
        match self {
            Getting::Own(own) => own.get(rt, alloc),
            Getting::Guests(porter) => porter.get(rt, alloc),
        }
    }

    fn close(&mut self) {
        match self {
            Getting::Own(own) => own.link.close(),
            Getting::Guests(porter) => porter.close(),
        }
    }
}
