//! Sessions, and what stands of requests whose answers were lost.
use geo_fixtures::setup_of;
use geo_requests::{Reply, Request};
use geo_scenes::shown::push_state;
use geo_scenes::{Fused, Scene, Stop};
use geo_session::{Backend, Bare, OpenGate, Session, SessionEnd, SessionFault, serve};
use geo_site::Site;
use std::alloc::{AllocError, Global};
use std::random::RandomSource;
use std::rt::Clock;
use std::sync::Wait;

/// A request, and what it is owed.
type Ask = (&'static [u8], &'static [u8]);

/// Requests that are sent at once. None hangs on another of them, so that each can be made again by itself.
type Piece = &'static [Ask];

/// How many there are at most.
const MOST: usize = 6;

/// What a request is told that memory was wanted for.
pub const REFUSED: &[u8] = b"SERVER_ERROR out of memory\r\n";

/// What a line is told that is no request, of which no site hears.
const UNKNOWN: &[u8] = b"ERROR\r\n";

/// So many bytes are asked or answered at most.
const ROOM: usize = 4096;

/// What clients ask, one piece after the other. The answers to a piece are longer than those before.
const PIECES: &[Piece] = &[
    &[(b"version\r\n", b"VERSION 1.0.0\r\n")],
    &[(b"set a 3 0 2\r\nhi\r\n", b"STORED\r\n")],
    &[
        (b"get a\r\n", b"VALUE a 3 2\r\nhi\r\nEND\r\n"),
        (b"get b\r\n", b"END\r\n"),
        (b"nonsense\r\n", UNKNOWN),
        (
            b"set b_whose_name_is_too_long_to_stand_in_place 0 0 26\r\nabcdefghijklmnopqrstuvwxyz\r\n",
            b"STORED\r\n",
        ),
    ],
    &[(b"append a 0 0 1\r\n!\r\n", b"STORED\r\n")],
    &[(
        b"incr a 1\r\n",
        b"CLIENT_ERROR cannot increment or decrement non-numeric value\r\n",
    )],
    &[
        (
            b"gets a b_whose_name_is_too_long_to_stand_in_place\r\n",
            b"VALUE a 3 3 769\r\nhi!\r\nVALUE b_whose_name_is_too_long_to_stand_in_place 0 26 513\r\nabcdefghijklmnopqrstuvwxyz\r\nEND\r\n",
        ),
        (b"get a\r\n", b"VALUE a 3 3\r\nhi!\r\nEND\r\n"),
        (
            b"get b_whose_name_is_too_long_to_stand_in_place a\r\n",
            b"VALUE b_whose_name_is_too_long_to_stand_in_place 0 26\r\nabcdefghijklmnopqrstuvwxyz\r\nVALUE a 3 3\r\nhi!\r\nEND\r\n",
        ),
        (b"delete c\r\n", b"NOT_FOUND\r\n"),
    ],
    &[(b"delete a\r\n", b"DELETED\r\n")],
];

/// A site that counts the requests that it carried out.
#[derive(Drop)]
pub struct Counting {
    pub bare: Bare,
    pub made: u64,
}

impl Counting {
    /// A site that knows nothing, at the moment 100.
    pub fn new<R: RandomSource>(rt: &R, alloc: Global) -> Result<Counting, Stop> {
        let Some(setup) = setup_of(rt, 1, 1) else {
            return Err(Stop::Wrong("no setup"));
        };
        let Ok(site) = Site::new(alloc, setup) else {
            return Err(Stop::Wrong("no site"));
        };
        Ok(Counting {
            bare: Bare::new(site, 100),
            made: 0,
        })
    }
}

impl Backend for Counting {
    ghost answers = { λ old request reply new. Unit {0} };

    ghost refuses = { λ old request new. Unit {0} };

    fn act<R: Wait + Clock>(&mut self, rt: &R, alloc: Global, request: Request) -> Option<Reply> {
        let reply = self.bare.act(rt, alloc, request)?;
        if !matches!(reply, Reply::OutOfMemory) {
            self.made = self.made.wrapping_add(1);
        }
        Some(reply)
    }
}

/// How clients come to their site.
#[derive(Clone, Copy)]
pub enum Way {
    /// Their bytes are handed to a session that goes on until a fault.
    Handed,
    /// A session for each piece reads and writes.
    Served,
}

/// A site and its clients: one after the other, where a fault ends a session.
#[derive(Drop)]
pub struct Clients {
    backend: Counting,
    session: Session,
    way: Way,
    /// What is asked, and what came. They have room for both.
    asked: Vec<u8>,
    came: Vec<u8>,
    /// Which requests of the piece were carried out.
    done: [bool; MOST],
}

/// How a session came through a piece.
#[derive(Clone, Copy, PartialEq, Eq)]
enum Course {
    Through,
    /// Memory was wanted, and the session is over.
    Broken,
}

/// How many requests to the site were answered, and the first whose answer did not come whole.
#[derive(Clone, Copy)]
struct Answered {
    count: u64,
    cut: Option<usize>,
}

/// Whether a request of the piece was carried out.
fn is_done(done: &[bool; MOST], at: usize) -> bool {
    done.get(at).copied().unwrap_or(true)
}

fn is_done_now(done: &mut [bool; MOST], at: usize) {
    if let Some(cell) = done.get_mut(at) {
        *cell = true;
    }
}

/// Writes the requests that were not carried out.
fn push_asks(piece: Piece, done: &[bool; MOST], out: &mut Vec<u8>) -> Result<(), AllocError> {
    for (at, ask) in piece.iter().enumerate() {
        if !is_done(done, at) {
            out.extend_from_slice(ask.0)?;
        }
    }
    Ok(())
}

/// Marks the requests that were answered. Each is told what it is owed or that memory was wanted, up to one that is told a beginning.
fn mark(piece: Piece, came: &[u8], done: &mut [bool; MOST]) -> Result<Answered, Stop> {
    let mut rest = came;
    let mut count = 0u64;
    for (at, ask) in piece.iter().enumerate() {
        if is_done(done, at) {
            continue;
        }
        if let Some(left) = rest.strip_prefix(ask.1) {
            is_done_now(done, at);
            count = count.wrapping_add((ask.1 != UNKNOWN) as u64);
            rest = left;
        } else if let Some(left) = rest.strip_prefix(REFUSED) {
            rest = left;
        } else if ask.1.starts_with(rest) || REFUSED.starts_with(rest) {
            return Ok(Answered {
                count,
                cut: Some(at),
            });
        } else {
            return Err(Stop::Wrong("another answer came"));
        }
    }
    if !rest.is_empty() {
        return Err(Stop::Wrong("more came than is owed"));
    }
    Ok(Answered { count, cut: None })
}

/// What a site carried out was answered, but for the last request where a fault ended the session. That one is marked too.
fn settle(
    course: Course,
    answered: Answered,
    made: u64,
    done: &mut [bool; MOST],
) -> Result<(), Stop> {
    let lost = made.wrapping_sub(answered.count);
    match (course, answered.cut, lost) {
        (Course::Through, None, 0) | (Course::Broken, _, 0) => Ok(()),
        (Course::Broken, Some(at), 1) => {
            is_done_now(done, at);
            Ok(())
        }
        (Course::Through, ..) => Err(Stop::Wrong("an answer was lost")),
        _ => Err(Stop::Wrong("a session went on behind an answer that was lost")),
    }
}

impl Clients {
    /// Clients of a site that knows nothing, who come so.
    pub fn new<R: RandomSource>(rt: &R, alloc: Global, way: Way) -> Result<Clients, Stop> {
        Ok(Clients {
            backend: Counting::new(rt, alloc)?,
            session: Session::new(alloc),
            way,
            asked: Vec::with_capacity(alloc, ROOM)?,
            came: Vec::with_capacity(alloc, ROOM)?,
            done: [false; MOST],
        })
    }

    /// Has what is asked come to the session and answered.
    fn answer<R: Wait + Clock>(&mut self, rt: &R) -> Result<Option<SessionEnd>, SessionFault> {
        if !self.session.goes_on() || !self.session.is_settled() {
            return Err(SessionFault::Spent);
        }
        let end = self.session.come(self.asked.as_slice())?;
        self.session.go_on(rt, &mut self.backend, &OpenGate)?;
        Ok(end)
    }

    /// Hands the session what is asked, and takes what it owes.
    fn hand<R: Wait + Clock>(&mut self, rt: &R, alloc: Global) -> Result<Course, Stop> {
        let answered = self.answer(rt);
        self.came.extend_from_slice(self.session.owed())?;
        match answered {
            _ if !self.session.is_settled() => Err(Stop::Wrong("something waits still")),
            Ok(None) => {
                let count = self.session.owed().len();
                self.session.sent(count);
                Ok(Course::Through)
            }
            Err(SessionFault::Memory) if self.session.goes_on() => {
                Err(Stop::Wrong("a session goes on behind a fault"))
            }
            Err(SessionFault::Memory) => {
                self.session = Session::new(alloc);
                Ok(Course::Broken)
            }
            _ => Err(Stop::Wrong("another end")),
        }
    }

    /// Has a session read what is asked, and write what comes.
    fn serve<R: Wait + Clock>(&mut self, rt: &R, alloc: Global) -> Result<Course, Stop> {
        let mut reader = Fused::reader(alloc, self.asked.as_slice(), ROOM)?;
        let mut writer = Fused::writer(alloc, ROOM, ROOM)?;
        let served = serve(
            rt,
            alloc,
            &mut reader,
            &mut writer,
            &mut self.backend,
            &OpenGate,
        );
        self.came.extend_from_slice(writer.into_inner().bytes())?;
        match served {
            Ok(SessionEnd::EndOfInput) => Ok(Course::Through),
            Err(SessionFault::Memory) => Ok(Course::Broken),
            _ => Err(Stop::Wrong("another end")),
        }
    }

    /// Asks what was not carried out yet, and marks what was.
    fn ask<R: Wait + Clock>(&mut self, rt: &R, alloc: Global, piece: Piece) -> Result<(), Stop> {
        self.asked.clear();
        self.came.clear();
        push_asks(piece, &self.done, &mut self.asked)?;
        let before = self.backend.made;
        let course = match self.way {
            Way::Handed => self.hand(rt, alloc)?,
            Way::Served => self.serve(rt, alloc)?,
        };
        let made = self.backend.made.wrapping_sub(before);
        let answered = mark(piece, self.came.as_slice(), &mut self.done)?;
        settle(course, answered, made, &mut self.done)
    }

    /// How many requests of a piece were carried out.
    fn count_done(&self, piece: Piece) -> usize {
        let mut count = 0usize;
        for (at, _ask) in piece.iter().enumerate() {
            count = count.wrapping_add(is_done(&self.done, at) as usize);
        }
        count
    }

    /// Whether all of a piece was carried out. Else memory was wanted, for all or for a part.
    fn is_through(&mut self, piece: Piece) -> Result<(), Stop> {
        let count = self.count_done(piece);
        if count == piece.len() {
            self.done = [false; MOST];
            return Ok(());
        }
        Err(if count == 0 { Stop::Memory } else { Stop::Part })
    }
}

impl Scene for Clients {
    fn count(&self) -> usize {
        PIECES.len()
    }

    fn begin(&mut self, _place: usize) -> Result<(), Stop> {
        Ok(())
    }

    fn call<R: Wait + Clock>(
        &mut self,
        rt: &R,
        alloc: Global,
        place: usize,
        out: &mut Vec<u8>,
    ) -> Result<(), Stop> {
        let Some(piece) = PIECES.get(place).copied() else {
            return Err(Stop::Wrong("no such call"));
        };
        match self.ask(rt, alloc, piece) {
            Ok(()) | Err(Stop::Memory) => self.is_through(piece)?,
            stopped => return stopped,
        }
        for ask in piece {
            out.extend_from_slice(ask.1)?;
        }
        Ok(())
    }

    fn show<R: Wait>(
        &mut self,
        _rt: &R,
        alloc: Global,
        out: &mut Vec<u8>,
    ) -> Result<(), AllocError> {
        push_state(out, &self.backend.bare.site().state(alloc)?)
    }

    fn glance(&self) -> u64 {
        self.backend.made
    }
}
