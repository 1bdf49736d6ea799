//! Clients that ask for much: what they are owed at most, and that all of it comes in the end, in its order.
use geo_crowd::{Accepted, Carried, Crowd, Given, Passed, Ready, Standing, Stream};
use geo_requests::{Found, Reply, Request, Shared, Shown};
use geo_session::{Backend, OpenGate, Session, SessionEnd, SessionFault};
use geo_versions::Key;
use std::alloc::{AllocError, Global};
use std::rt::Clock;
use std::sync::Wait;
use std::test::Fail;

/// How many bytes each value has.
const LENGTH: usize = 700_000;

/// A line, and how often it is said.
const LINE: &[u8] = b"get a b c\r\n";

const LINES: usize = 50;

/// Where more is owed no more is rendered.
const RENDERED: usize = 65_536;

/// What is rendered at once of a value: so many bytes, or less and the end of the line behind them.
const PIECE: usize = 65_536 + 2;

/// The values that are found, whatever is fetched: a name, and what all bytes are.
const FOUND: [(&[u8], u8); 3] = [(b"a", b'1'), (b"b", b'2'), (b"c", b'3')];

/// One of them.
fn found(alloc: Global, name: &[u8], fill: u8) -> Result<Option<Found>, AllocError> {
    let Some(key) = Key::new(alloc, name)? else {
        return Ok(None);
    };
    Ok(Some(Found {
        key,
        flags: 0,
        unique: None,
        bytes: Shown::of(vec![in alloc; fill; LENGTH]?),
    }))
}

/// All of them.
fn all_found(alloc: Global) -> Result<Reply, AllocError> {
    let mut all = Vec::new(alloc);
    for (name, fill) in &FOUND {
        if let Some(value) = found(alloc, name, *fill)? {
            all.push(value)?;
        }
    }
    Ok(Reply::Values(Shared::of(alloc, all)?))
}

/// A backend that finds them.
#[derive(Drop)]
struct Large;

impl Backend for Large {
    ghost answers = { λ old request reply new. Unit {0} };

    ghost refuses = { λ old request new. Unit {0} };

    fn act<R: Wait + Clock>(&mut self, _rt: &R, alloc: Global, request: Request) -> Option<Reply> {
        match request {
            Request::Fetch { .. } => all_found(alloc).ok(),
            _ => Some(Reply::Closed),
        }
    }
}

/// What a line is answered.
fn answer(alloc: Global) -> Result<Vec<u8>, AllocError> {
    let mut text = Vec::new(alloc);
    for (name, fill) in &FOUND {
        text.extend_from_slice(b"VALUE ")?;
        text.extend_from_slice(name)?;
        text.extend_from_slice(b" 0 700000\r\n")?;
        text.extend_from_slice(vec![in alloc; *fill; LENGTH]?.as_slice())?;
        text.extend_from_slice(b"\r\n")?;
    }
    text.extend_from_slice(b"END\r\n")?;
    Ok(text)
}

/// What is said: the lines, and this behind them.
fn lines_and(alloc: Global, end: &[u8]) -> Result<Vec<u8>, AllocError> {
    let mut text = Vec::new(alloc);
    for _line in 0..LINES {
        text.extend_from_slice(LINE)?;
    }
    text.extend_from_slice(end)?;
    Ok(text)
}

/// What came, beside the answer to one line, which is to come again and again.
#[derive(Drop)]
struct Came<'a> {
    answer: &'a [u8],
    /// So often it came whole, and so many bytes came since.
    whole: usize,
    at: usize,
    is_right: bool,
    /// The most bytes that were owed.
    most: usize,
}

impl<'a> Came<'a> {
    fn nothing(answer: &'a [u8]) -> Came<'a> {
        Came {
            answer,
            whole: 0,
            at: 0,
            is_right: true,
            most: 0,
        }
    }

    /// So many bytes are owed.
    fn is_owed(&mut self, count: usize) {
        self.most = self.most.max(count);
    }

    /// These come, which are fewer than an answer has.
    fn add(&mut self, piece: &[u8]) {
        let mut rest = piece;
        for _part in 0..2 {
            let left = match self.answer.get(self.at..) {
                Some(left) => left,
                None => b"",
            };
            let count = rest.len().min(left.len());
            let (front, behind) = rest.split_at(count);
            let (expected, _) = left.split_at(count);
            self.is_right = self.is_right && front == expected;
            self.at = self.at.wrapping_add(count);
            if self.at == self.answer.len() {
                self.at = 0;
                self.whole = self.whole.wrapping_add(1);
            }
            rest = behind;
        }
        self.is_right = self.is_right && rest.is_empty();
    }

    /// Whether each line was answered, and nothing else came; and what was owed was more than 64 KiB, by one piece at most.
    fn is_all(&self) -> bool {
        let is_whole = self.whole == LINES && self.at == 0;
        self.is_right && is_whole && RENDERED < self.most && self.most <= RENDERED + PIECE
    }
}

/// A client that says all at once, has no room at its first so many writes and at each third from then on, and takes so many bytes
/// else.
#[derive(Drop)]
struct Slow<'a> {
    said: &'a [u8],
    came: Came<'a>,
    full: usize,
    takes: usize,
    writes: usize,
}

impl<'a> Slow<'a> {
    /// A client that says this, and has no room at its first so many writes.
    fn new(said: &'a [u8], answer: &'a [u8], full: usize) -> Slow<'a> {
        Slow {
            said,
            came: Came::nothing(answer),
            full,
            takes: 300_000,
            writes: 0,
        }
    }
}

impl Stream for Slow<'_> {
    ghost use Rattle.std.specs.Prelude.{None};

    ghost remaining = { λ _. None };

    ghost contents = { λ _. None };

    fn read(&mut self, buffer: &mut [u8]) -> Given {
        let count = self.said.len().min(buffer.len());
        if count == 0 {
            return Given::End;
        }
        let (piece, rest) = self.said.split_at(count);
        let (front, _) = buffer.split_at_mut(count);
        front.copy_from_slice(piece);
        self.said = rest;
        Given::Bytes(count)
    }

    fn write(&mut self, bytes: &[u8]) -> Accepted {
        self.came.is_owed(bytes.len());
        self.writes = self.writes.wrapping_add(1);
        if self.writes <= self.full || self.writes % 3 == 0 {
            return Accepted::Later;
        }
        let count = self.takes.min(bytes.len());
        if count == 0 {
            return Accepted::Failed;
        }
        let (piece, _) = bytes.split_at(count);
        self.came.add(piece);
        Accepted::Bytes(count)
    }
}

/// What came to such a client until its connection was over, and how that ended.
fn carried<'a, R: Wait + Clock>(
    rt: &R,
    alloc: Global,
    said: &'a [u8],
    answer: &'a [u8],
    buffer: &mut [u8],
) -> Option<(Came<'a>, Result<SessionEnd, SessionFault>)> {
    let mut carried = Carried::new(alloc, Slow::new(said, answer, 20));
    for _turn in 0..10_000 {
        let standing = carried.turn(rt, &mut Large, &OpenGate, buffer);
        if let Standing::Over(outcome) = standing {
            let Slow { came, .. } = carried.into_stream();
            return Some((came, outcome));
        }
        // one that can go on at once needs no word
        if standing == Standing::Waits {
            carried.is_ready(true, true, false);
        }
    }
    None
}

/// What is said behind the lines, and how the connection ends.
const ENDS: [(&[u8], SessionEnd); 2] = [
    (b"", SessionEnd::EndOfInput),
    (b"quit\r\nget a\r\n", SessionEnd::Quit),
];

#[test]
fn whoever_asks_for_much_is_owed_little_and_gets_it_all(rt: HostRuntime) -> Result<(), Fail> {
    let alloc = rt.alloc();
    let answer = answer(alloc)?;
    let mut buffer = vec![in alloc; 0u8; 16_384]?;
    for (end, outcome) in &ENDS {
        let said = lines_and(alloc, end)?;
        let (came, told) = carried(
            &rt,
            alloc,
            said.as_slice(),
            answer.as_slice(),
            buffer.as_mut_slice(),
        )
        .ok_or("no end")?;
        assert_eq!(rt; told, Ok(*outcome));
        assert!(rt; came.is_all());
    }
    Ok(())
}

/// What came of a piece, to a client that takes all that it is owed each time.
fn handed<'a, R: Wait + Clock>(
    rt: &R,
    session: &mut Session,
    said: &[u8],
    answer: &'a [u8],
) -> Option<Came<'a>> {
    if !session.goes_on() || !session.is_settled() {
        return None;
    }
    session.come(said).ok()?;
    let mut came = Came::nothing(answer);
    for _time in 0..10_000 {
        if session.is_settled() {
            return Some(came);
        }
        session.go_on(rt, &mut Large, &OpenGate).ok()?;
        let count = session.owed().len();
        came.is_owed(count);
        came.add(session.owed());
        session.sent(count);
    }
    None
}

#[test]
fn a_session_renders_little_at_once(rt: HostRuntime) -> Result<(), Fail> {
    let answer = answer(rt.alloc())?;
    let said = lines_and(rt.alloc(), b"")?;
    let mut session = Session::new(rt.alloc());
    let came = handed(&rt, &mut session, said.as_slice(), answer.as_slice()).ok_or("no end")?;
    assert!(rt; came.is_all());
    Ok(())
}

#[test]
fn who_takes_nothing_waits_and_holds_up_nobody(rt: HostRuntime) -> Result<(), Fail> {
    let alloc = rt.alloc();
    let answer = answer(alloc)?;
    let said = lines_and(alloc, b"")?;
    let mut crowd = Crowd::new(alloc)?;
    let full = Slow::new(said.as_slice(), answer.as_slice(), usize::MAX);
    let number = crowd.add(Carried::new(alloc, full))?;
    let other = Slow::new(b"quit\r\n", answer.as_slice(), 0);
    crowd.add(Carried::new(alloc, other))?;
    let Passed { ended, goes_on, .. } = crowd.pass(&rt, &mut Large, &OpenGate);
    assert_eq!(rt; (ended, goes_on, crowd.len()), (1, false, 1));
    // nothing is read of it before it is written
    crowd.is_ready(Ready {
        number,
        readable: true,
        writable: false,
        ending: false,
    });
    let Passed { ended, goes_on, .. } = crowd.pass(&rt, &mut Large, &OpenGate);
    assert_eq!(rt; (ended, goes_on, crowd.len()), (0, false, 1));
    Ok(())
}
