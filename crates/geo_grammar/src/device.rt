//! Readers and writers that remember their first error.
ghost use Rattle.std.specs.Prelude.{◌≡◌, ◌↔◌, ◌<◌, length, IsTrue, IsErr, IfOk, false};
ghost use Rattle.std.specs.Io.{ReadsAtMost, WritesAtMost};
ghost use Rattle.std.specs.Io.KnownBytes.{ReadConsumes, WriteAppends};

use std::io::{Error, ErrorKind, Read, Result, Write};

/// A std reader or writer that remembers whether it failed. Bytes pass on unchanged. From the first error on each call
/// answers an error and leaves the reader or writer alone.
#[derive(Drop)]
pub struct Device<T> {
    inner: T,
    failed: bool,
}

impl<T> Device<T> {
    /// A device that has not failed.
    pub fn new(inner: T) -> Device<T>
        ensures inner { result.inner ≡ inner }
        ensures failed { result.failed ≡ false }
    {
        Device {
            inner,
            failed: false,
        }
    }

    /// Whether a call has failed.
    pub fn failed(&self) -> bool
        ensures { result ≡ self.now.failed }
    {
        self.failed
    }

    /// The reader or writer.
    pub fn into_inner(self) -> T
        ensures { result ≡ self.inner }
    {
        let Device { inner, .. } = self;
        inner
    }
}

impl<R: Read> Device<R> {
    /// Reads into `buf`, and says how many bytes it read. 0 is the end, or a `buf` without room.
    pub fn read(&mut self, buf: &mut [u8]) -> Result<usize>
        ensures failed { IsErr result ↔ IsTrue self.new.failed }
        ensures bound { ReadsAtMost result buf.new }
        ensures bytes { ReadConsumes (R.remaining self.old.inner) (R.remaining self.new.inner) result buf.new }
        ensures spent { IsTrue self.old.failed → self.new ≡ self.old }
    {
        if self.failed {
            return Err(spent());
        }
        let result = self.inner.read(buf);
        self.failed = result.is_err();
        result
    }
}

impl<W: Write> Device<W> {
    /// Writes some bytes of `buf`, and says how many. Where it takes none of some, that is an error.
    pub fn write(&mut self, buf: &[u8]) -> Result<usize>
        ensures failed { IsErr result ↔ IsTrue self.new.failed }
        ensures bound { WritesAtMost result buf.now }
        ensures some { IfOk result (λ n. 0 < length buf.now → 0 < n) }
        ensures bytes { WriteAppends (W.contents self.old.inner) (W.contents self.new.inner) result buf.now }
        ensures spent { IsTrue self.old.failed → self.new ≡ self.old }
    {
        if self.failed {
            return Err(spent());
        }
        let result = match self.inner.write(buf) {
            Ok(0) if !buf.is_empty() => Err(Error::new(
                ErrorKind::WriteZero,
                "nothing was written",
            )),
            result => result,
        };
        self.failed = result.is_err();
        result
    }
}

/// The error of a call on a device that has failed.
fn spent() -> Error {
    Error::new(ErrorKind::BrokenPipe, "the device has failed")
}
