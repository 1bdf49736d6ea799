//! Readers and writers that fail in midst.
ghost use Rattle.std.specs.Prelude.{◌≤◌, IfOk};

use super::show::push_number;
use geo_grammar::Device;
use std::alloc::{AllocError, Global};
use std::io;
use std::test::Fail;

/// What a device is told to answer to each call: so many bytes, or an error.
#[derive(Drop)]
struct Calls<'a> {
    left: &'a [Option<usize>],
}

impl Calls<'_> {
    fn next(&mut self, room: usize) -> io::Result<usize>
        ensures { IfOk result (λ n. n ≤ room) }
    {
        let [call, left @ ..] = self.left else {
            return Ok(0);
        };
        self.left = left;
        match call {
            Some(count) => Ok(room.min(*count)),
            None => Err(io::Error::other("told to fail")),
        }
    }
}

#[derive(Drop)]
struct Source<'a> {
    calls: Calls<'a>,
}

impl io::Read for Source<'_> {
    fn read(&mut self, buf: &mut [u8]) -> io::Result<usize> {
        self.calls.next(buf.len())
    }
}

#[derive(Drop)]
struct Sink<'a> {
    calls: Calls<'a>,
}

impl io::Write for Sink<'_> {
    fn write(&mut self, buf: &[u8]) -> io::Result<usize> {
        self.calls.next(buf.len())
    }

    fn flush(&mut self) -> io::Result<()> {
        Ok(())
    }
}

/// How many bytes a call took, or that it failed; and behind a bar whether the device says that it has failed.
fn push_call(out: &mut Vec<u8>, count: Option<usize>, failed: bool) -> Result<(), AllocError> {
    match count {
        Some(count) => push_number(out, count as u64)?,
        None => out.extend_from_slice(b"error")?,
    }
    out.extend_from_slice(if failed { b"|failed " } else { b"| " })
}

fn push_reads(out: &mut Vec<u8>) -> Result<(), AllocError> {
    let calls = Calls {
        left: &[Some(1), Some(0), None, Some(1)],
    };
    let mut reader = Device::new(Source { calls });
    let mut buf = [0; 4];
    for _ in 0..4 {
        let count = reader.read(&mut buf).ok();
        push_call(out, count, reader.failed())?;
    }
    Ok(())
}

/// Three writes, and how many calls are left.
fn push_writes(out: &mut Vec<u8>, left: &[Option<usize>]) -> Result<(), AllocError> {
    let calls = Calls { left };
    let mut writer = Device::new(Sink { calls });
    for _ in 0..3 {
        let count = writer.write(b"hi").ok();
        push_call(out, count, writer.failed())?;
    }
    push_number(out, writer.into_inner().calls.left.len() as u64)
}

#[test]
fn a_device_fails_for_good(rt: HostRuntime) -> Result<(), Fail> {
    let mut out = Vec::new(rt.alloc());
    push_reads(&mut out)?;
    out.extend_from_slice(b"; ")?;
    push_writes(&mut out, &[Some(1), None, Some(1)])?;
    out.extend_from_slice(b"; ")?;
    push_writes(&mut out, &[Some(1), Some(0), Some(1)])?;
    let told =
        b"1| 0| error|failed error|failed ; 1| error|failed error|failed 1; 1| error|failed error|failed 1";
    assert_eq!(rt; out.as_slice(), told.as_slice());
    Ok(())
}

/// What is read of a text by calls for so many bytes, up to four.
fn push_texts(out: &mut Vec<u8>, text: &[u8], calls: &[usize]) -> Result<(), AllocError> {
    let mut reader = Device::new(text);
    for call in calls {
        let mut buf = [b'.'; 4];
        let (room, _) = buf.split_at_mut(4.min(*call));
        let count = reader.read(room).ok();
        out.extend_from_slice(room)?;
        push_call(out, count, reader.failed())?;
    }
    Ok(())
}

/// What two writes of a text and of nothing answer, and what is written.
fn push_written(out: &mut Vec<u8>, alloc: Global) -> Result<(), AllocError> {
    let mut writer = Device::new(Vec::new(alloc));
    for text in [b"hi".as_slice(), b""] {
        let count = writer.write(text).ok();
        push_call(out, count, writer.failed())?;
    }
    out.extend_from_slice(writer.into_inner().as_slice())
}

#[test]
fn a_device_passes_bytes_on(rt: HostRuntime) -> Result<(), Fail> {
    let mut out = Vec::new(rt.alloc());
    push_texts(&mut out, b"get a", &[3, 3, 0, 3])?;
    push_written(&mut out, rt.alloc())?;
    assert_eq!(rt; out.as_slice(), b"get3|  a.2| 0| ...0| 2| 0| hi".as_slice());
    Ok(())
}
