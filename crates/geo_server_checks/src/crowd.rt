//! What no clause says: that turns succeed where there is memory, how a connection stands after them, and that each gets its own.
use geo_crowd::{Accepted, Carried, Crowd, Given, Passed, Polling, Ready, Standing, Stream};
use geo_requests::{Reply, Request};
use geo_session::{Backend, OpenGate, SessionEnd, SessionFault};
use std::alloc::{AllocError, Global};
use std::rt::Clock;
use std::sync::Wait;
use std::test::Fail;

/// A connection that gives so many bytes a read and takes so many a write, and is not ready at every second call of either.
#[derive(Drop)]
struct Fake {
    input: &'static [u8],
    size: usize,
    written: Vec<u8>,
    // How many more bytes are taken before a write fails.
    room: usize,
    reads: bool,
    writes: bool,
}

fn stream_of(alloc: Global, input: &'static [u8], size: usize, room: usize) -> Fake {
    Fake {
        input,
        size,
        written: Vec::new(alloc),
        room,
        reads: true,
        writes: true,
    }
}

impl Stream for Fake {
    ghost use Rattle.std.specs.Prelude.{Some};

    ghost remaining = { λ s. Some s.input.now };

    ghost contents = { λ s. Some s.written.items };

    fn read(&mut self, buffer: &mut [u8]) -> Given {
        self.reads = !self.reads;
        if self.reads {
            return Given::Later;
        }
        if self.input.is_empty() {
            return Given::End;
        }
        let count = self.size.min(self.input.len()).min(buffer.len());
        if count == 0 {
            return Given::Later;
        }
        let (piece, rest) = self.input.split_at(count);
        let (front, _) = buffer.split_at_mut(count);
        front.copy_from_slice(piece);
        self.input = rest;
        Given::Bytes(count)
    }

    fn write(&mut self, bytes: &[u8]) -> Accepted {
        self.writes = !self.writes;
        if self.writes {
            return Accepted::Later;
        }
        let count = self.size.min(bytes.len()).min(self.room);
        if count == 0 {
            return Accepted::Failed;
        }
        let (piece, _) = bytes.split_at(count);
        if self.written.extend_from_slice(piece).is_err() {
            return Accepted::Failed;
        }
        self.room -= count;
        Accepted::Bytes(count)
    }
}

/// A backend that answers each request so.
#[derive(Drop)]
struct Idle;

impl Backend for Idle {
    ghost answers = { λ old request reply new. Unit {0} };

    ghost refuses = { λ old request new. Unit {0} };

    fn act<R: Wait + Clock>(
        &mut self,
        _rt: &R,
        _alloc: Global,
        _request: Request,
    ) -> Option<Reply> {
        Some(Reply::Stored)
    }
}

fn ready(number: usize, ending: bool) -> Ready {
    Ready {
        number,
        readable: true,
        writable: true,
        ending,
    }
}

/// Passes until none can go on, with all ready again after each: how many ended, and how many by a fault.
fn ended<R: Wait + Clock>(rt: &R, crowd: &mut Crowd<Fake>, numbers: &[usize]) -> (usize, usize) {
    let mut all = (0usize, 0usize);
    for _pass in 0..1_000 {
        let Passed { ended, faults, .. } = crowd.pass(rt, &mut Idle, &OpenGate);
        all = (all.0.saturating_add(ended), all.1.saturating_add(faults));
        for number in numbers.iter() {
            crowd.is_ready(ready(*number, false));
        }
    }
    all
}

const INPUT: &[u8] = b"set a 0 0 2\r\nhi\r\nnonsense\r\nget a\r\n";

#[test]
fn connections_that_are_ready_by_fits_and_starts_end(rt: HostRuntime) -> Result<(), Fail> {
    let alloc = rt.alloc();
    let mut crowd = Crowd::new(alloc)?;
    let mut numbers = Vec::new(alloc);
    for size in 1..8 {
        let stream = stream_of(alloc, INPUT, size, 1_000);
        numbers.push(crowd.add(Carried::new(alloc, stream))?)?;
    }
    assert_eq!(rt; ended(&rt, &mut crowd, numbers.as_slice()), (7, 0));
    assert!(rt; crowd.is_empty());
    Ok(())
}

#[test]
fn a_connection_that_fails_ends_alone(rt: HostRuntime) -> Result<(), Fail> {
    let alloc = rt.alloc();
    let mut crowd = Crowd::new(alloc)?;
    let failing = crowd.add(Carried::new(alloc, stream_of(alloc, INPUT, 3, 5)))?;
    let other = crowd.add(Carried::new(alloc, stream_of(alloc, INPUT, 3, 1_000)))?;
    assert_eq!(rt; ended(&rt, &mut crowd, &[failing, other]), (2, 1));
    Ok(())
}

/// What is written to one client, and how its connection ends, whose turns come until it is over.
fn carried<R: Wait + Clock>(
    rt: &R,
    alloc: Global,
    stream: Fake,
    buffer: &mut [u8],
) -> Option<(Vec<u8>, Result<SessionEnd, SessionFault>)> {
    let mut carried = Carried::new(alloc, stream);
    for _turn in 0..1_000 {
        let standing = carried.turn(rt, &mut Idle, &OpenGate, buffer);
        if let Standing::Over(outcome) = standing {
            let Fake { written, .. } = carried.into_stream();
            return Some((written, outcome));
        }
        carried.is_ready(true, true, false);
    }
    None
}

const OUTPUT: &[u8] = b"STORED\r\nERROR\r\nSTORED\r\n";

#[test]
fn what_is_written_is_the_same_in_any_pieces(rt: HostRuntime) -> Result<(), Fail> {
    let alloc = rt.alloc();
    let mut buffer = vec![in alloc; 0u8; 5]?;
    for size in 1..8 {
        let stream = stream_of(alloc, INPUT, size, 1_000);
        let (written, outcome) = carried(&rt, alloc, stream, buffer.as_mut_slice()).ok_or(
            "no end",
        )?;
        assert_eq!(rt; written.as_slice(), OUTPUT);
        assert_eq!(rt; outcome, Ok(SessionEnd::EndOfInput));
    }
    Ok(())
}

#[test]
fn a_write_that_fails_leaves_a_beginning(rt: HostRuntime) -> Result<(), Fail> {
    let alloc = rt.alloc();
    let mut buffer = vec![in alloc; 0u8; 64]?;
    for room in 0..OUTPUT.len() {
        let stream = stream_of(alloc, INPUT, 4, room);
        let (written, outcome) = carried(&rt, alloc, stream, buffer.as_mut_slice()).ok_or(
            "no end",
        )?;
        assert_eq!(rt; Some(written.as_slice()), OUTPUT.get(..room));
        assert_eq!(rt; outcome, Err(SessionFault::Write));
    }
    Ok(())
}

#[test]
fn a_quit_is_the_end(rt: HostRuntime) -> Result<(), Fail> {
    let alloc = rt.alloc();
    let mut buffer = vec![in alloc; 0u8; 64]?;
    let stream = stream_of(alloc, b"version\r\nquit\r\nversion\r\n", 64, 1_000);
    let (written, outcome) = carried(&rt, alloc, stream, buffer.as_mut_slice()).ok_or("no end")?;
    assert_eq!(rt; written.as_slice(), b"STORED\r\nSTORED\r\n".as_slice());
    assert_eq!(rt; outcome, Ok(SessionEnd::Quit));
    Ok(())
}

/// A connection that gives all at once and then its end, and takes nothing.
#[derive(Drop)]
struct Brief {
    input: &'static [u8],
}

impl Stream for Brief {
    ghost use Rattle.std.specs.Prelude.{Some, None};

    ghost remaining = { λ s. Some s.input.now };

    ghost contents = { λ _. None };

    fn read(&mut self, buffer: &mut [u8]) -> Given {
        if self.input.is_empty() {
            return Given::End;
        }
        let count = self.input.len().min(buffer.len());
        if count == 0 {
            return Given::Later;
        }
        let (piece, rest) = self.input.split_at(count);
        let (front, _) = buffer.split_at_mut(count);
        front.copy_from_slice(piece);
        self.input = rest;
        Given::Bytes(count)
    }

    fn write(&mut self, _bytes: &[u8]) -> Accepted {
        Accepted::Later
    }
}

#[test]
fn an_end_that_is_told_with_the_last_bytes_is_read(rt: HostRuntime) -> Result<(), Fail> {
    let alloc = rt.alloc();
    let mut crowd = Crowd::new(alloc)?;
    let half = crowd.add(Carried::new(
        alloc,
        Brief {
            input: b"set a 0 0 2\r\nh",
        },
    ))?;
    crowd.is_ready(ready(half, true));
    let Passed { ended: early, .. } = crowd.pass(&rt, &mut Idle, &OpenGate);
    let Passed { ended, .. } = crowd.pass(&rt, &mut Idle, &OpenGate);
    assert_eq!(rt; (early, ended), (0, 1));
    Ok(())
}

/// A connection that gives as much as a read has room for, after so many reads that give none, and takes all.
#[derive(Drop)]
struct Lines<'a> {
    input: &'a [u8],
    late: usize,
}

impl Stream for Lines<'_> {
    ghost use Rattle.std.specs.Prelude.{Some, None};

    ghost remaining = { λ s. Some s.input.now };

    ghost contents = { λ _. None };

    fn read(&mut self, buffer: &mut [u8]) -> Given {
        if self.late > 0 {
            self.late -= 1;
            return Given::Later;
        }
        let count = self.input.len().min(buffer.len());
        if count == 0 {
            return Given::Later;
        }
        let (piece, rest) = self.input.split_at(count);
        let (front, _) = buffer.split_at_mut(count);
        front.copy_from_slice(piece);
        self.input = rest;
        Given::Bytes(count)
    }

    fn write(&mut self, bytes: &[u8]) -> Accepted {
        if bytes.is_empty() {
            return Accepted::Later;
        }
        Accepted::Bytes(bytes.len())
    }
}

/// A backend that answers each request so, and notes the keys that gets ask for.
#[derive(Drop)]
struct Noting {
    asked: Vec<u8>,
}

impl Backend for Noting {
    ghost answers = { λ old request reply new. Unit {0} };

    ghost refuses = { λ old request new. Unit {0} };

    fn act<R: Wait + Clock>(&mut self, _rt: &R, _alloc: Global, request: Request) -> Option<Reply> {
        if let Request::Fetch { keys, .. } = &request {
            for key in keys.as_slice().iter() {
                if self.asked.extend_from_slice(key.bytes()).is_err() {
                    return None;
                }
            }
        }
        Some(Reply::Stored)
    }
}

/// What tells of the same connections each time.
#[derive(Drop)]
struct Told {
    ready: Vec<Ready>,
}

impl Polling for Told {
    ghost told = { λ t. t.ready.items };

    fn wait(&mut self, _at_once: bool) {}

    fn ready(&self) -> &[Ready] {
        self.ready.as_slice()
    }
}

/// More lines than one read brings.
const MANY: usize = 4000;

/// The byte at a place, 0 where there is none.
fn byte_at(bytes: &[u8], place: usize) -> u8 {
    match bytes.get(place) {
        Some(byte) => *byte,
        None => 0,
    }
}

/// So many lines that ask for a key of one letter.
fn lines_of(alloc: Global, line: &[u8]) -> Result<Vec<u8>, AllocError> {
    let mut text = Vec::new(alloc);
    for _line in 0..MANY {
        text.extend_from_slice(line)?;
    }
    Ok(text)
}

#[test]
fn of_those_that_go_on_one_has_a_turn_in_a_round(rt: HostRuntime) -> Result<(), Fail> {
    let alloc = rt.alloc();
    let (one, two) = (
        lines_of(alloc, b"get a\r\n")?,
        lines_of(alloc, b"get b\r\n")?,
    );
    let mut crowd = Crowd::new(alloc)?;
    for text in [one.as_slice(), two.as_slice()] {
        let lines = Lines {
            input: text,
            late: 0,
        };
        let _goes_on = crowd.add(Carried::new(alloc, lines))?;
    }
    let mut backend = Noting {
        asked: Vec::new(alloc),
    };
    let mut told = Told {
        ready: Vec::new(alloc),
    };
    let mut runs = Vec::new(alloc);
    // each has its bytes in two reads
    for round in 0..4 {
        let before = backend.asked.len();
        let passed = crowd.round(&rt, &mut told, &mut backend, &OpenGate);
        assert_eq!(rt; passed.goes_on, round < 3);
        let noted = backend.asked.as_slice();
        let (_, asked) = noted.split_at(before.min(noted.len()));
        let first = byte_at(asked, 0);
        assert!(rt; asked.iter().all(|key| *key == first));
        runs.push(first)?;
    }
    assert_eq!(rt; runs.as_slice(), b"abab".as_slice());
    Ok(())
}

#[test]
fn who_asks_anew_comes_before_those_that_go_on(rt: HostRuntime) -> Result<(), Fail> {
    let alloc = rt.alloc();
    let text = lines_of(alloc, b"get a\r\n")?;
    let mut crowd = Crowd::new(alloc)?;
    let long = Lines {
        input: text.as_slice(),
        late: 0,
    };
    let _goes_on = crowd.add(Carried::new(alloc, long))?;
    let short = Lines {
        input: b"get b\r\n",
        late: 1,
    };
    let anew = crowd.add(Carried::new(alloc, short))?;
    let mut backend = Noting {
        asked: Vec::new(alloc),
    };
    let mut told = Told {
        ready: Vec::new(alloc),
    };
    // each of the two waits for its first turn
    let _first = crowd.round(&rt, &mut told, &mut backend, &OpenGate);
    let _second = crowd.round(&rt, &mut told, &mut backend, &OpenGate);
    let before = backend.asked.len();
    assert!(rt; 0 < before && before < MANY);
    told.ready.push(ready(anew, false))?;
    let _third = crowd.round(&rt, &mut told, &mut backend, &OpenGate);
    let asked = backend.asked.as_slice();
    let last = byte_at(asked, before.saturating_sub(1));
    let next = byte_at(asked, before);
    let then = byte_at(asked, before.saturating_add(1));
    assert_eq!(rt; (last, next, then), (b'a', b'b', b'a'));
    Ok(())
}
