//! A connection with its session.
ghost use Rattle.std.specs.Prelude.{◌≡◌, ◌≢◌, true, MatchBool};
ghost use Rattle.geo_dialogue.specs.Connections.{IsSettled};
ghost use Rattle.geo_dialogue.specs.Sessions.{Sends};
ghost use Rattle.geo_crowd.specs.Carrying.{Reads, SendEnds, outcome_by, outcome_after, outcome_gone};

use crate::standing::Standing;
use geo_dialogue::{Backend, Gate, Session, SessionEnd, SessionFault};
use geo_socket::{Accepted, Given, Stream};
use std::alloc::Global;
use std::marker::Model;
use std::rt::Clock;
use std::sync::Wait;

/// A client that is owed more bytes than that is read no further.
const MOST_OWED: usize = 1_048_576;

/// What came of a read.
#[derive(Clone, Copy, Debug, PartialEq, Eq)]
pub enum Came {
    /// Bytes, whose requests wait for their answers, the end that they bring, and whether more may be there: they filled the buffer.
    Bytes(Option<SessionEnd>, bool),
    /// Bytes that could not be taken.
    Broken(SessionFault),
    /// Nothing yet.
    Later,
    /// The end of all.
    End,
    /// The connection has failed.
    Failed,
}

impl Came {
    /// The outcome that it brings, if it brings one.
    fn outcome(self) -> Option<Result<SessionEnd, SessionFault>>
        ensures { result ≡ outcome_by self }
    {
        match self {
            Came::Bytes(None, _) | Came::Later => None,
            Came::Bytes(Some(end), _) => Some(Ok(end)),
            Came::Broken(fault) => Some(Err(fault)),
            Came::End => Some(Ok(SessionEnd::EndOfInput)),
            Came::Failed => Some(Err(SessionFault::Read)),
        }
    }

    /// Whether more may be there.
    fn has_more(self, is_ending: bool) -> bool {
        // a socket that gave less than there was room for has no more, and tells when it has, but for its end, if that is known
        matches!(self, Came::Bytes(None, is_full) if is_full | is_ending)
    }
}

/// What came of writing.
#[derive(Clone, Copy, Debug, PartialEq, Eq)]
enum Sent {
    /// All that was owed is written.
    All,
    /// There is no room for the rest yet.
    Part,
    /// The connection has failed.
    Failed,
}

impl Sent {
    /// The outcome behind it, with this one before.
    fn outcome(
        self,
        before: Option<Result<SessionEnd, SessionFault>>,
    ) -> Option<Result<SessionEnd, SessionFault>>
        ensures { result ≡ outcome_after self before }
    {
        match self {
            Sent::All | Sent::Part => before,
            Sent::Failed => Some(Err(SessionFault::Write)),
        }
    }
}

/// The outcome behind answers that were gone on with, with this one before.
fn outcome_behind(
    gone: Result<(), SessionFault>,
    before: Option<Result<SessionEnd, SessionFault>>,
) -> Option<Result<SessionEnd, SessionFault>>
    ensures { result ≡ outcome_gone gone before }
{
    match gone {
        Ok(()) => before,
        Err(fault) => Some(Err(fault)),
    }
}

/// Whether a connection with such an outcome can be written no more.
fn is_cut(outcome: Option<Result<SessionEnd, SessionFault>>) -> bool
    ensures { MatchBool result (outcome ≡ Some (Err SessionFault.Write)) (outcome ≢ Some (Err SessionFault.Write)) }
{
    matches!(outcome, Some(Err(SessionFault::Write)))
}

/// Writes what a session owes, as far as there is room.
fn send<S: Stream>(stream: &mut S, session: &mut Session) -> Sent
    ensures sends { Sends session.old session.new (S.contents stream.old) (S.contents stream.new) }
    ensures ends { SendEnds result session.new.owed (S.last_accepted stream.new) }
    ensures stays { S.remaining stream.new ≡ S.remaining stream.old }
    ensures given { S.last_given stream.new ≡ S.last_given stream.old }
{
    while !session.owed().is_empty() {
        match stream.write(session.owed()) {
            Accepted::Bytes(count) => session.sent(count),
            Accepted::Later => return Sent::Part,
            Accepted::Failed => return Sent::Failed,
        }
    }
    Sent::All
}

/// Reads once, and has the session take what comes.
fn take<S: Stream>(stream: &mut S, session: &mut Session, buffer: &mut [u8]) -> Came
    requires goes_on { session.old.goes_on ≡ true }
    requires settled { IsSettled session.old }
    ensures reads { Reads result (S.remaining stream.old) (S.remaining stream.new) (S.last_given stream.new) session.old session.new }
    ensures stays { S.contents stream.new ≡ S.contents stream.old }
    ensures accepted { S.last_accepted stream.new ≡ S.last_accepted stream.old }
{
    match stream.read(buffer) {
        Given::Bytes(count) => {
            let is_full = count == buffer.len();
            let (piece, _) = buffer.split_at(count);
            match session.come(piece) {
                Ok(end) => Came::Bytes(end, is_full),
                Err(fault) => Came::Broken(fault),
            }
        }
        Given::Later => Came::Later,
        Given::End => Came::End,
        Given::Failed => Came::Failed,
    }
}

/// One client's connection, which a thread carries beside others. What is written to the client, and what it is owed, is the text of
/// the answers to what came from it, or to a beginning of that. Behind want of memory the end of that text may be missing.
///
/// A client that asks for much is owed 64 KiB and one piece of a value more at most: what else it asked for waits until that is written.
#[derive(Drop)]
pub struct Carried<S: Stream> {
    stream: S,
    session: Session,
    // It may be read, as far as is known.
    is_readable: bool,
    is_writable: bool,
    // The client sends no more: what is left is read up to the end, of which nobody tells again.
    is_ending: bool,
    outcome: Option<Result<SessionEnd, SessionFault>>,
}

impl<S: Stream> Model for Carried<S> {
    ghost use Rattle.geo_crowd.specs.Carrying.{Carriage, IsCarried};

    ghost Value = { Carriage };

    ghost view = { λ s. record {
      left = S.remaining s.stream;
      written = S.contents s.stream;
      given = S.last_given s.stream;
      accepted = S.last_accepted s.stream;
      session = s.session;
      outcome = s.outcome;
    } };

    ghost invariant = { λ s. IsCarried (S.contents s.stream) s.session s.outcome };
}

impl<S: Stream> Carried<S> {
    ghost use Rattle.std.specs.Prelude.{◌≡◌};
    ghost use Rattle.geo_crowd.specs.Carrying.{Begins, CanGoOn, IsCarried, IsDone, IsStill, MayGoOn, MayHear, MayRead, MayWrite};
    ghost use Rattle.geo_crowd.specs.Carrying.{Stands, Turns, new_carriage};

    /// A connection on which nothing came and nothing was written, and of which it is not known whether it is ready.
    pub fn new(alloc: Global, stream: S) -> Carried<S>
        ensures { result ≡ new_carriage (S.remaining stream) (S.contents stream) (S.last_given stream) (S.last_accepted stream) }
    {
        Carried {
            stream,
            session: Session::new(alloc),
            is_readable: true,
            is_writable: true,
            is_ending: false,
            outcome: None,
        }
    }

    /// It can be read, or written, or both, from now on, and whether its client has sent all.
    pub fn is_ready(&mut self, readable: bool, writable: bool, ending: bool)
        ensures { self.new ≡ self.old }
    {
        self.is_ending = self.is_ending || ending;
        self.is_readable = self.is_readable || readable;
        self.is_writable = self.is_writable || writable;
    }

    /// Whether it is to be read.
    fn may_read(&self) -> bool
        ensures { result ≡ true → MayRead self.now }
    {
        self.outcome.is_none()
            && self.is_readable
            && self.session.goes_on()
            && self.session.is_settled()
            && self.session.owed().len() <= MOST_OWED
    }

    /// Whether something waits for an answer that can still be written.
    fn may_go_on(&self) -> bool
        ensures { MatchBool result (CanGoOn self.now) (IsStill self.now) }
    {
        !is_cut(self.outcome) && !self.session.is_settled()
    }

    /// Whether all that came is answered, and all answers are written.
    fn is_done(&self) -> bool
        ensures { MatchBool result (IsDone self.now.session) (IsDone self.now.session → ⊥) }
    {
        self.session.is_settled() && self.session.owed().is_empty()
    }

    /// Whether a turn can write, or has nothing to write and something to answer.
    fn can_move(&self) -> bool {
        if self.session.owed().is_empty() {
            !self.session.is_settled()
        } else {
            self.is_writable
        }
    }

    /// Writes what is owed, as far as there is room.
    fn write(&mut self)
        ensures { MayWrite self.old self.new }
    {
        if !self.is_writable {
            return;
        }
        let sent = send(&mut self.stream, &mut self.session);
        self.is_writable = sent == Sent::All;
        self.outcome = sent.outcome(self.outcome);
    }

    /// Reads once where it may.
    fn read(&mut self, buffer: &mut [u8])
        ensures { MayHear self.old self.new }
    {
        if !self.may_read() {
            return;
        }
        let came = take(&mut self.stream, &mut self.session, buffer);
        self.is_readable = came.has_more(self.is_ending);
        self.outcome = came.outcome();
    }

    /// Begins a turn: writes what is owed, and reads once where nothing waits and not too much is owed.
    pub(crate) fn begin(&mut self, buffer: &mut [u8])
        ensures { Begins self.old self.new }
    {
        self.write();
        self.read(buffer);
    }

    /// Has what waits answered, until much is owed. The backend may keep to itself what it asks.
    pub(crate) fn go_on<R: Wait + Clock, B: Backend, G: Gate>(
        &mut self,
        rt: &R,
        backend: &mut B,
        gate: &G,
    )
        ensures { MayGoOn B.answers B.refuses self.old self.new backend.old backend.new }
    {
        if !self.may_go_on() {
            return;
        }
        let gone = self.session.go_along(rt, backend, gate);
        self.outcome = outcome_behind(gone, self.outcome);
    }

    /// The stream. What was not written is lost.
    pub fn into_stream(self) -> S
        ensures left { S.remaining result ≡ self.left }
        ensures written { S.contents result ≡ self.written }
    {
        let Carried { stream, .. } = self;
        stream
    }

    /// How it stands.
    fn standing(&self) -> Standing
        ensures carries { IsCarried self.now.written self.now.session self.now.outcome }
        ensures stands { Stands result self.now }
    {
        match self.outcome {
            Some(outcome) if self.is_done() => Standing::Over(outcome),
            Some(outcome) if is_cut(self.outcome) => Standing::Over(outcome),
            Some(_) if self.can_move() => Standing::Again,
            Some(_) => Standing::Waits,
            None if self.can_move() || self.may_read() => Standing::Again,
            None => Standing::Waits,
        }
    }

    /// Ends a turn: writes what is owed then.
    pub(crate) fn end(&mut self) -> Standing
        ensures last { MayWrite self.old self.new }
        ensures carries { IsCarried self.new.written self.new.session self.new.outcome }
        ensures stands { Stands result self.new }
    {
        self.write();
        self.standing()
    }

    /// One turn: writes what is owed, reads once where nothing waits and not too much is owed, has what waits answered until it is
    /// owed much, and writes again.
    pub fn turn<R: Wait + Clock, B: Backend, G: Gate>(
        &mut self,
        rt: &R,
        backend: &mut B,
        gate: &G,
        buffer: &mut [u8],
    ) -> Standing
        ensures turns { Turns B.answers B.refuses self.old self.new backend.old backend.new }
        ensures carries { IsCarried self.new.written self.new.session self.new.outcome }
        ensures stands { Stands result self.new }
    {
        self.begin(buffer);
        self.go_on(rt, backend, gate);
        backend.rest();
        self.end()
    }
}
