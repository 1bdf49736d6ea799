//! How sites are joined.
use crate::fault::ClusterFault;
use crate::lead::Lead;
use crate::porter::{Porter, Visit};
use crate::putting::{Putting, Way};
use crate::tcp::{Getting, tcp_link};
use geo_link::{Link, MemoryLink, memory_link};
use std::alloc::Global;
use std::net::{Net, TcpListener, TcpStream};
use std::rt::Clock;
use std::sync::atomic::AtomicU64;
use std::time::Duration;

/// How many messages may wait on a link in memory: a parcel tells all that its site wrote since the one before, so that a few do, and a
/// site that is behind holds no more memory.
const WAITING: usize = 2;

/// How sites are joined.
pub trait Wires<R> {
    /// The kind of link on which a site puts.
    type Put: Lead + Drop;
    /// The kind of link from which a site gets.
    type Get: Link + Drop;

    /// Both ends of a link.
    fn link(&self, rt: &R, alloc: Global, way: Way) -> Result<(Self::Put, Self::Get), ClusterFault>;

    /// What a site gets from beside its links, of which the first site is at index 0.
    fn guests(&self, rt: &R, alloc: Global, at: usize) -> Result<Option<Self::Get>, ClusterFault>;
}

/// Links in memory.
#[derive(Clone, Copy)]
pub struct Memory;

impl<R> Wires<R> for Memory {
    type Put = MemoryLink;

    type Get = MemoryLink;

    fn link(
        &self,
        _rt: &R,
        alloc: Global,
        _way: Way,
    ) -> Result<(MemoryLink, MemoryLink), ClusterFault> {
        match memory_link(alloc, WAITING) {
            Ok(ends) => Ok(ends),
            Err(_) => Err(ClusterFault::Memory),
        }
    }

    fn guests(
        &self,
        _rt: &R,
        _alloc: Global,
        _at: usize,
    ) -> Result<Option<MemoryLink>, ClusterFault> {
        Ok(None)
    }
}

/// Connections to the sites' peer ports.
#[derive(Drop)]
pub struct Tcp<'a, N> {
    pub net: &'a N,
    pub ports: &'a [TcpListener],
    pub stop: &'a AtomicU64,
    pub patience: Duration,
}

impl<'a, R, N: Net<Stream = TcpStream, Listener = TcpListener> + Clock + Eprint> Wires<R>
    for Tcp<'a, N> {
    type Put = Putting<'a, N>;

    type Get = Getting<'a, N>;

    fn link(
        &self,
        _rt: &R,
        alloc: Global,
        way: Way,
    ) -> Result<(Putting<'a, N>, Getting<'a, N>), ClusterFault> {
        match self.ports.get((way.to as usize).saturating_sub(1)) {
            Some(port) => tcp_link(self.net, alloc, port, self.stop, way, self.patience),
            None => Err(ClusterFault::Socket),
        }
    }

    fn guests(
        &self,
        _rt: &R,
        alloc: Global,
        at: usize,
    ) -> Result<Option<Getting<'a, N>>, ClusterFault> {
        match self.ports.get(at) {
            Some(port) => {
                let visit = Visit {
                    patience: self.patience,
                    apart: None,
                };
                let porter = Porter::new(self.net, alloc, port, self.stop, visit)?;
                Ok(Some(Getting::Guests(porter)))
            }
            None => Err(ClusterFault::Socket),
        }
    }
}
