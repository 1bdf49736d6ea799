//! Readers and writers that fail.
ghost use Rattle.std.specs.Prelude.{◌≡◌, IfOk, false};

use geo_grammar::Device;
use std::alloc::{AllocError, Global};
use std::io::{Error, ErrorKind, Read, Result as IoResult, Write};

/// A reader of bytes, or a writer behind which bytes are kept, that moves 20 bytes a call, passes so many calls and fails the next.
#[derive(Drop)]
pub struct Fused {
    bytes: Vec<u8>,
    /// How many bytes were read.
    read: usize,
    calls: usize,
}

const PIECE: usize = 20;

impl Fused {
    /// A reader of these bytes that passes so many calls.
    pub fn reader(alloc: Global, bytes: &[u8], calls: usize) -> Result<Device<Fused>, AllocError>
        ensures { IfOk result (λ device. device.failed ≡ false) }
    {
        Ok(Device::new(Fused {
            bytes: Vec::from_slice(alloc, bytes)?,
            read: 0,
            calls,
        }))
    }

    /// A writer with room for so many bytes, which takes no memory for these, that passes so many calls.
    pub fn writer(alloc: Global, room: usize, calls: usize) -> Result<Device<Fused>, AllocError>
        ensures { IfOk result (λ device. device.failed ≡ false) }
    {
        Ok(Device::new(Fused {
            bytes: Vec::with_capacity(alloc, room)?,
            read: 0,
            calls,
        }))
    }

    /// What was written, or is there to be read.
    pub fn bytes(&self) -> &[u8] {
        self.bytes.as_slice()
    }

    /// How many of so many bytes the next call moves.
    fn call(&mut self, count: usize) -> IoResult<usize> {
        if self.calls == 0 {
            return Err(Error::from(ErrorKind::Other));
        }
        self.calls = self.calls.saturating_sub(1);
        Ok(count.min(PIECE))
    }
}

impl Read for Fused {
    fn read(&mut self, buf: &mut [u8]) -> IoResult<usize> {
        let most = self.call(buf.len())?.min(buf.len());
        let (_, left) = self.bytes.split_at(self.read.min(self.bytes.len()));
        let count = most.min(left.len());
        let (piece, _) = left.split_at(count);
        let (front, _) = buf.split_at_mut(count);
        front.copy_from_slice(piece);
        self.read = self.read.saturating_add(count);
        Ok(count)
    }
}

impl Write for Fused {
    fn write(&mut self, buf: &[u8]) -> IoResult<usize> {
        let count = self.call(buf.len())?.min(buf.len());
        let (piece, _) = buf.split_at(count);
        self.bytes.extend_from_slice(piece)?;
        Ok(count)
    }

    fn flush(&mut self) -> IoResult<()> {
        Ok(())
    }
}
