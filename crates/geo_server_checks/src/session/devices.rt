//! Readers and writers that fail, and when is written.
use super::{Idle, Limits, Ran, Recorder, Source, bare, each, run_by};
use geo_grammar::Device;
use geo_session::{OpenGate, SessionEnd, SessionFault, serve};
use std::alloc::Global;
use std::hash::RandomState;
use std::io::{Error, ErrorKind, Read, Result as IoResult, Write};
use std::rt::Clock;
use std::sync::Wait;
use std::sync::atomic::{AtomicU64, Ordering};
use std::test::Fail;

const INPUT: &[u8] = b"set a 0 0 2\r\nhi\r\nget a\r\nnonsense\r\n";

const WRITTEN: &[u8] = b"STORED\r\nVALUE a 0 2\r\nhi\r\nEND\r\nERROR\r\n";

/// What a site answers to the input by such devices, and how many records it has then.
fn answered<R: Wait + Clock>(
    rt: &R,
    alloc: Global,
    hasher: RandomState,
    reads: Limits,
    writes: Limits,
) -> Result<(Ran, usize), Fail> {
    let mut backend = bare(alloc, hasher)?;
    let told = run_by(rt, alloc, INPUT, reads, writes, &mut backend, &OpenGate);
    Ok((told, backend.site().records()))
}

/// Whether a session is right whose reader, of one byte a call, fails behind so many calls: all are answered where the reader
/// comes to the end of the input, which takes 35 of them, and else a beginning is.
fn is_right_by_a_reader(told: &Ran, reads: u64) -> bool {
    if reads >= 35 {
        return told.ends(WRITTEN, Ok(SessionEnd::EndOfInput)) && told.failed == (false, false);
    }
    let is_begun = WRITTEN.starts_with(told.written.as_slice());
    is_begun && told.outcome == Err(SessionFault::Read) && told.failed == (true, false)
}

#[test]
fn writes_a_beginning_where_the_reader_fails(rt: HostRuntime) -> Result<(), Fail> {
    for calls in 0..51 {
        let hasher = RandomState::new(&rt)?;
        let reads = Limits { size: 1, calls };
        let (told, _records) = answered(&rt, rt.alloc(), hasher, reads, each(5))?;
        assert!(rt; is_right_by_a_reader(&told, calls), "{calls} reads");
    }
    Ok(())
}

/// Whether a session is right whose writer, of one byte a call, fails behind so many calls: it has written so many bytes, up to
/// all 37.
fn is_right_by_a_writer(told: &Ran, writes: u64) -> bool {
    if writes >= 37 {
        return told.ends(WRITTEN, Ok(SessionEnd::EndOfInput)) && told.failed == (false, false);
    }
    let is_begun = WRITTEN.starts_with(told.written.as_slice())
        && told.written.len() as u64 == writes;
    is_begun && told.outcome == Err(SessionFault::Write) && told.failed == (false, true)
}

#[test]
fn writes_a_beginning_where_the_writer_fails(rt: HostRuntime) -> Result<(), Fail> {
    for calls in 0..51 {
        let hasher = RandomState::new(&rt)?;
        let writes = Limits { size: 1, calls };
        let (told, records) = answered(&rt, rt.alloc(), hasher, each(100), writes)?;
        assert!(rt;
            records == 1 && is_right_by_a_writer(&told, calls),
            "{calls} writes"
        );
    }
    Ok(())
}

#[test]
fn writes_the_answers_to_one_read_at_once(rt: HostRuntime) -> Result<(), Fail> {
    let once = Limits {
        size: 1000,
        calls: 1,
    };
    let hasher = RandomState::new(&rt)?;
    let (told, _records) = answered(&rt, rt.alloc(), hasher, each(100), once)?;
    assert!(rt; told.ends(WRITTEN, Ok(SessionEnd::EndOfInput)));
    Ok(())
}

/// A client that asks for the version, and asks again only once it has read so many answers as it has asked.
#[derive(Drop)]
struct PatientSource<'a> {
    asked: u64,
    read: &'a AtomicU64,
}

impl Read for PatientSource<'_> {
    fn read(&mut self, buf: &mut [u8]) -> IoResult<usize> {
        // An answer has four bytes.
        if self.read.load(Ordering::SeqCst) != self.asked.wrapping_mul(4) {
            return Err(Error::from(ErrorKind::Other));
        }
        let line = b"version\r\n".as_slice();
        if self.asked == 3 || buf.len() < line.len() {
            return Ok(0);
        }
        self.asked = self.asked.wrapping_add(1);
        let (front, _) = buf.split_at_mut(line.len());
        front.copy_from_slice(line);
        Ok(line.len())
    }
}

/// What such a client reads; and which answers had passed a gate when it was first asked to write.
#[derive(Drop)]
struct ListeningSink<'a> {
    read: &'a AtomicU64,
    passed: &'a AtomicU64,
    seen: u64,
}

impl Write for ListeningSink<'_> {
    fn write(&mut self, buf: &[u8]) -> IoResult<usize> {
        if self.seen == 0 {
            self.seen = self.passed.load(Ordering::SeqCst);
        }
        self.read.fetch_add(buf.len() as u64, Ordering::SeqCst);
        Ok(buf.len())
    }

    fn flush(&mut self) -> IoResult<()> {
        Ok(())
    }
}

/// The answers that had passed the gate when the first byte was written to a client, and how many more calls the backend has.
fn heard<R: Wait + Clock, I: Read + Drop>(
    rt: &R,
    alloc: Global,
    reader: I,
    read: &AtomicU64,
) -> Option<(u64, u64)> {
    let gate = Recorder {
        numbers: AtomicU64::new(0),
    };
    let mut reader = Device::new(reader);
    let mut writer = Device::new(ListeningSink {
        read,
        passed: &gate.numbers,
        seen: 0,
    });
    let mut backend = Idle { left: 9 };
    let outcome = serve(rt, alloc, &mut reader, &mut writer, &mut backend, &gate);
    if outcome != Ok(SessionEnd::EndOfInput) {
        return None;
    }
    Some((writer.into_inner().seen, backend.left))
}

#[test]
fn answers_before_it_reads_on(rt: HostRuntime) {
    let read = AtomicU64::new(0);
    let patient = PatientSource {
        asked: 0,
        read: &read,
    };
    assert_eq!(rt; heard(&rt, rt.alloc(), patient, &read), Some((1, 6)));
}

#[test]
fn passes_the_gate_before_it_writes(rt: HostRuntime) {
    let read = AtomicU64::new(0);
    let source = Source {
        left: INPUT,
        limits: each(100),
    };
    assert_eq!(rt; heard(&rt, rt.alloc(), source, &read), Some((12, 7)));
}
