//! A connection at a peer port that is not the port's own link.
use crate::frames::Frames;
use geo_frame::{FrameFault, Message};
use geo_socket::{Accepted, Given, Socket, Stream};
use std::alloc::Global;
use std::rt::Clock;
use std::time::{Duration, Instant};

/// How often a guest is read before others have their turn.
const TURNS: usize = 16;

/// What a look at a guest brings.
#[derive(Drop)]
pub(crate) enum Brought {
    /// A message, and there may be more.
    Message(Message),
    /// No whole frame yet, and more may be there at once.
    More,
    /// No whole frame yet.
    Later,
    /// Memory was refused; the guest is as before.
    Memory,
    /// Its next bytes are no frame, or end within one: it goes.
    Refused(FrameFault),
    /// It brings no more: it goes.
    Over,
}

/// A connection at a peer port: a site whose link was cut and that comes again, or a stranger. It has a time in which to bring one whole
/// frame; whoever has brought one may stay. One answer at a time is written to it, as it takes it.
#[derive(Drop)]
pub(crate) struct Guest {
    socket: Socket<'static>,
    frames: Frames,
    /// When it came, or was answered last.
    since: Option<Instant>,
    /// The frame that is written to it.
    answer: Vec<u8>,
    /// How many bytes of that it has taken.
    taken: usize,
    /// The site whose messages it brings, once it has brought one.
    from: Option<u8>,
    /// In which time it has to bring its first frame, from its connection to the last byte, and to take what it is offered.
    patience: Duration,
    /// Whether it was told that it is here.
    pub(crate) is_told: bool,
}

impl Guest {
    pub(crate) fn new<R: Clock>(
        rt: &R,
        alloc: Global,
        socket: Socket<'static>,
        patience: Duration,
    ) -> Guest {
        Guest {
            socket,
            frames: Frames::new(alloc),
            since: Instant::now(rt).ok(),
            answer: Vec::new(alloc),
            taken: 0,
            from: None,
            patience,
            is_told: false,
        }
    }

    /// Whether it has brought no frame yet.
    pub(crate) fn is_stranger(&self) -> bool {
        self.from.is_none()
    }

    /// The site whose messages it brings.
    pub(crate) fn from(&self) -> Option<u8> {
        self.from
    }

    /// Whether it brings the messages of this site.
    pub(crate) fn is_from(&self, site: u8) -> bool {
        self.from == Some(site)
    }

    /// Whether something is waited for: its first frame, or that it takes an answer.
    fn owes(&self) -> bool {
        self.is_stranger() || !self.answer.is_empty()
    }

    /// Whether it has had its time, and in it neither brought a frame nor taken its answer.
    pub(crate) fn is_late<R: Clock>(&self, rt: &R) -> bool {
        let Some(since) = self.since else {
            return self.owes();
        };
        match since.elapsed(rt) {
            Ok(passed) => self.owes() && passed >= self.patience,
            Err(_) => self.owes(),
        }
    }

    /// What a guest leaves that goes: a frame that is cut off, if some of one came.
    pub(crate) fn left(&self) -> Brought {
        if self.frames.is_empty() {
            Brought::Over
        } else {
            Brought::Refused(FrameFault::Short)
        }
    }

    /// Writes of its answer what it takes. False where the connection has failed.
    pub(crate) fn writes(&mut self, alloc: Global) -> bool {
        for _turn in 0..TURNS {
            if self.taken >= self.answer.len() {
                break;
            }
            let (_, rest) = self.answer.as_slice().split_at(self.taken);
            match self.socket.write(rest) {
                Accepted::Bytes(count) => self.taken = self.taken.saturating_add(count),
                Accepted::Later => return true,
                Accepted::Failed => return false,
            }
        }
        if !self.answer.is_empty() && self.taken >= self.answer.len() {
            self.answer = Vec::new(alloc);
            self.taken = 0;
        }
        true
    }

    /// Answers it by a frame. False where it has not taken the one before, or the connection has failed.
    pub(crate) fn answer<R: Clock>(&mut self, rt: &R, alloc: Global, frame: Vec<u8>) -> bool {
        if !self.answer.is_empty() {
            return false;
        }
        self.answer = frame;
        self.taken = 0;
        self.since = Instant::now(rt).ok();
        self.writes(alloc)
    }

    /// The message of the next frame, if all of it has come.
    fn next(&mut self, alloc: Global) -> Result<Option<Message>, FrameFault> {
        let next = self.frames.next(alloc)?;
        if let Some(message) = &next {
            self.from = Some(message.sender());
        }
        Ok(next)
    }

    /// Reads once. None where bytes came.
    fn read(&mut self, buffer: &mut [u8]) -> Option<Brought> {
        if self.frames.waiting.reserve(buffer.len()).is_err() {
            return Some(Brought::Memory);
        }
        match self.socket.read(buffer) {
            Given::Bytes(count) => {
                let (came, _) = buffer.split_at(count);
                self.frames.waiting.extend_reserved(came);
                None
            }
            Given::Later => Some(Brought::Later),
            Given::End | Given::Failed => Some(self.left()),
        }
    }

    /// Reads what is there, and gives the next message.
    pub(crate) fn brings(&mut self, alloc: Global, buffer: &mut [u8]) -> Brought {
        for _turn in 0..TURNS {
            match self.next(alloc) {
                Ok(Some(message)) => return Brought::Message(message),
                Ok(None) => {}
                Err(FrameFault::Memory) => return Brought::Memory,
                Err(fault) => return Brought::Refused(fault),
            }
            if let Some(brought) = self.read(buffer) {
                return brought;
            }
        }
        Brought::More
    }
}
