//! What no clause says: that sessions run where there is memory, what clients read, worked out by hand, and what gates see.
ghost use Rattle.std.specs.Prelude.{◌≤◌, IfOk};

mod devices;
mod shared;
mod talks;

use geo_grammar::Device;
use geo_requests::{Reply, Request};
use geo_session::{Backend, Bare, Gate, SessionEnd, SessionFault, serve};
use geo_site::{Setup, Site};
use std::alloc::Global;
use std::hash::RandomState;
use std::io::{Error, ErrorKind, Read, Result as IoResult, Write};
use std::rt::Clock;
use std::sync::Wait;
use std::sync::atomic::{AtomicU64, Ordering};
use std::test::Fail;

/// How many bytes a device moves a call, and how many calls it answers before it fails.
#[derive(Clone, Copy)]
struct Limits {
    size: usize,
    calls: u64,
}

/// Devices that move so many bytes a call, and never fail.
fn each(size: usize) -> Limits {
    Limits {
        size,
        calls: u64::MAX,
    }
}

impl Limits {
    /// How many of so many bytes the next call moves.
    fn call(&mut self, count: usize) -> IoResult<usize>
        ensures { IfOk result (λ n. n ≤ count) }
    {
        if self.calls == 0 {
            return Err(Error::from(ErrorKind::Other));
        }
        self.calls -= 1;
        Ok(count.min(self.size))
    }
}

#[derive(Drop)]
struct Source<'a> {
    left: &'a [u8],
    limits: Limits,
}

impl Read for Source<'_> {
    fn read(&mut self, buf: &mut [u8]) -> IoResult<usize> {
        let count = self.limits.call(self.left.len())?.min(buf.len());
        let (piece, left) = self.left.split_at(count);
        let (front, _) = buf.split_at_mut(count);
        front.copy_from_slice(piece);
        self.left = left;
        Ok(count)
    }
}

#[derive(Drop)]
struct Sink {
    taken: Vec<u8>,
    limits: Limits,
}

impl Write for Sink {
    fn write(&mut self, buf: &[u8]) -> IoResult<usize> {
        let (front, _) = buf.split_at(self.limits.call(buf.len())?);
        self.taken.extend_from_slice(front)?;
        Ok(front.len())
    }

    fn flush(&mut self) -> IoResult<()> {
        Ok(())
    }
}

/// A gate that writes down the numbers that it gets, a decimal digit each.
#[derive(Drop)]
struct Recorder {
    numbers: AtomicU64,
}

impl Gate for Recorder {
    fn pass<R: Wait + Clock>(&self, _rt: &R, call: u64) {
        let before = self.numbers.load(Ordering::SeqCst);
        self.numbers.store(before.wrapping_mul(10).wrapping_add(call), Ordering::SeqCst);
    }
}

/// A backend that does nothing, and may do it so many times.
#[derive(Drop)]
struct Idle {
    left: u64,
}

impl Backend for Idle {
    ghost answers = { λ old request reply new. Unit {0} };

    ghost refuses = { λ old request new. Unit {0} };

    fn act<R: Wait + Clock>(
        &mut self,
        _rt: &R,
        _alloc: Global,
        _request: Request,
    ) -> Option<Reply> {
        if self.left == 0 {
            return None;
        }
        self.left -= 1;
        Some(Reply::Done)
    }
}

/// A site at moment 100.
fn bare(alloc: Global, hasher: RandomState) -> Result<Bare, Fail> {
    let setup = Setup {
        site: 1,
        sites: 1,
        pages: 15,
        max_records: 1000,
        reap_after: 60,
        hasher,
    };
    let site = Site::new(alloc, setup).ok().ok_or("no site")?;
    Ok(Bare::new(site, 100))
}

type Outcome = Result<SessionEnd, SessionFault>;

/// What a session wrote, how it ended, and whether its reader and its writer failed.
#[derive(Drop)]
struct Ran {
    written: Vec<u8>,
    outcome: Outcome,
    failed: (bool, bool),
}

impl Ran {
    /// Whether this was written to the end.
    fn ends(&self, written: &[u8], outcome: Outcome) -> bool {
        self.outcome == outcome && self.written.as_slice() == written
    }
}

/// Serves what a reader gives by such devices.
fn run_by<R: Wait + Clock, B: Backend, G: Gate>(
    rt: &R,
    alloc: Global,
    input: &[u8],
    reads: Limits,
    writes: Limits,
    backend: &mut B,
    gate: &G,
) -> Ran {
    let mut reader = Device::new(Source {
        left: input,
        limits: reads,
    });
    let mut writer = Device::new(Sink {
        taken: Vec::new(alloc),
        limits: writes,
    });
    let outcome = serve(rt, alloc, &mut reader, &mut writer, backend, gate);
    let failed = (reader.failed(), writer.failed());
    Ran {
        written: writer.into_inner().taken,
        outcome,
        failed,
    }
}
