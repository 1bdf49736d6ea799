//! A connection between two reads.
ghost use Rattle.std.specs.Prelude.{◌≡◌, ◌≤◌, ◌++◌, [], true, false, cond, length, drop, is_none, IfErr, IfOk, OnOk, MatchBool, None, Some};
ghost use Rattle.geo_grammar.specs.Protocol.{items_of};
ghost use Rattle.geo_grammar.specs.Quitting.{has_quit};
ghost use Rattle.geo_dialogue.specs.Closings.{StaysOpen};
ghost use Rattle.geo_dialogue.specs.Connections.{new_connection, IsEnd, IsSettled};
ghost use Rattle.geo_dialogue.specs.Batches.{AnsweredBy, BrokenBy};
ghost use Rattle.geo_dialogue.specs.declared.fault.SessionFault.TheVariants.{Memory};

use crate::answers::{Answers, Course};
use crate::backend::Backend;
use crate::end::SessionEnd;
use crate::fault::SessionFault;
use crate::gate::Gate;
use crate::pending::Pending;
use geo_grammar::{Item, Reader, items_of_longer};
use std::alloc::Global;
use std::collections::VecDeque;
use std::marker::Model;
use std::rt::Clock;
use std::sync::Wait;

/// Where more bytes of answers than that stand rendered no more are rendered.
const MOST_RENDERED: usize = 65_536;

/// A connection between two reads. It takes the bytes of a read, and leaves those that are owed to the client; it reads and writes
/// nothing itself. So a thread can carry many.
///
/// What comes can be answered bit by bit, so that a client that asks for much is owed 64 KiB and one piece more at most: the requests
/// wait, and of a reply what is not rendered yet. Contracts see all that it took, what waits, what it owes and what of
/// that isn't rendered, how often its backend answered, and whether it takes more.
#[derive(Drop)]
pub struct Session {
    alloc: Global,
    requests: Reader,
    pending: Pending,
    // So many bytes of the answers are written.
    sent: usize,
    goes_on: bool,
}

impl Model for Session {
    ghost use Rattle.std.specs.Prelude.{drop};
    ghost use Rattle.geo_grammar.specs.Quitting.{until_quit};
    ghost use Rattle.geo_dialogue.specs.Connections.{Connection, IsSession};
    ghost use Rattle.geo_dialogue.specs.Pendings.{untold_in};

    ghost Value = { Connection };

    ghost view = { λ s. record {
      read = s.requests;
      waiting = until_quit s.pending.waiting.items;
      owed = drop s.sent s.pending.answers.text.items;
      untold = untold_in s.pending;
      answered = s.pending.answers.calls;
      goes_on =
          s.goes_on;
    } };

    ghost invariant = { λ s. IsSession s.requests s.sent s.pending.answers.text.items s.goes_on };
}

/// Whether one of these items asks for the end.
fn brings_quit(items: &[Item]) -> bool
    ensures { result ≡ has_quit items.now }
{
    items.iter().any(|item| item.is_quit())
}

/// Has the SHA-256 of the value that it brings computed, if it brings one.
fn know_digest(alloc: Global, item: &mut Item)
    ensures { item.new ≡ item.old }
{
    if let Item::Request(request) = item {
        request.know_digest(alloc);
    }
}

/// Has the SHA-256 of the values that they bring computed, while nobody waits for it.
fn know_digests(alloc: Global, items: &mut [Item])
    ensures { items.new ≡ items.old }
{
    for at in 0..items.len() {
        know_digest(alloc, &mut items[at]);
    }
}

/// The end that a piece brings, by whether it brings a `quit`, and whether nothing more is read behind it.
fn end_by(quits: bool, ended: bool) -> Option<SessionEnd>
    ensures { result ≡ cond quits (Some SessionEnd.Quit) (cond ended (Some SessionEnd.LineTooLong) None) }
{
    if quits {
        return Some(SessionEnd::Quit);
    }
    if ended {
        return Some(SessionEnd::LineTooLong);
    }
    None
}

/// Answers what a piece brings.
fn answer_piece<R: Wait + Clock, B: Backend, G: Gate>(
    rt: &R,
    alloc: Global,
    backend: &mut B,
    gate: &G,
    requests: &mut Reader,
    answers: &mut Answers,
    piece: &[u8],
) -> Result<Option<SessionEnd>, SessionFault>
    requires { StaysOpen (items_of requests.old) }
    ensures ok { IfOk result (λ _. AnsweredBy B.answers piece.now requests.old requests.new answers.old answers.new backend.old
        backend.new) }
    ensures end { IfOk result (λ end. IsEnd (items_of requests.new) end) }
    ensures err { IfErr result (λ fault. BrokenBy B.answers B.refuses fault piece.now requests.old answers.old answers.new backend.old
        backend.new) }
{
    items_of_longer();
    let items = requests.feed(piece)?;
    let course = answers.answer_items(rt, alloc, backend, gate, items)?;
    match course {
        Course::Spent => Err(SessionFault::Spent),
        Course::Quits => Ok(Some(SessionEnd::Quit)),
        Course::Open if requests.ended() => Ok(Some(SessionEnd::LineTooLong)),
        Course::Open => Ok(None),
    }
}

impl Session {
    ghost use Rattle.geo_dialogue.specs.Connections.{Answered, Broken, Comes, GoesOn, BreaksOff, GoesFar};

    /// A connection on which nothing came. It takes no memory.
    pub fn new(alloc: Global) -> Session
        ensures { result ≡ new_connection }
    {
        Session {
            alloc,
            requests: Reader::new(alloc),
            pending: Pending::none(alloc),
            sent: 0,
            goes_on: true,
        }
    }

    /// Whether it takes more.
    pub fn goes_on(&self) -> bool
        ensures { result ≡ self.now.goes_on }
    {
        self.goes_on
    }

    /// Whether nothing waits: all that came is answered, and the text of the answers is rendered.
    pub fn is_settled(&self) -> bool
        ensures { MatchBool result (IsSettled self.now) (IsSettled self.now → ⊥) }
    {
        self.pending.is_done()
    }

    /// What is owed to the client, as far as it is rendered.
    pub fn owed(&self) -> &[u8]
        ensures { result.now ≡ self.now.owed }
    {
        let (_, owed) = self.pending.answers.text.as_slice().split_at(self.sent);
        owed
    }

    /// So many bytes of what is owed were written.
    pub fn sent(&mut self, count: usize)
        requires { count ≤ length self.old.owed }
        ensures { self.new ≡ record self.old { owed = drop count self.old.owed } }
    {
        self.sent += count;
        if self.sent == self.pending.answers.text.len() {
            self.pending.answers.restart(self.alloc);
            self.sent = 0;
        }
    }

    /// Takes what a read brought: has each request answered, up to a `quit`, and renders the answers behind what is owed. It tells
    /// the end that this brings; None where the session goes on. Each answer of the backend passes the gate first. Behind an end
    /// or a fault it takes no more, and what it owes can still be written.
    pub fn take<R: Wait + Clock, B: Backend, G: Gate>(
        &mut self,
        rt: &R,
        alloc: Global,
        backend: &mut B,
        gate: &G,
        piece: &[u8],
    ) -> Result<Option<SessionEnd>, SessionFault>
        requires goes_on { self.old.goes_on ≡ true }
        requires settled { IsSettled self.old }
        ensures ok { IfOk result (λ _. Answered B.answers piece.now self.old self.new backend.old backend.new) }
        ensures end { IfOk result (λ end. IsEnd (items_of self.new.read) end) }
        ensures goes_on { IfOk result (λ end. self.new.goes_on ≡ is_none end) }
        ensures err { IfErr result (λ fault. Broken B.answers B.refuses fault piece.now self.old self.new backend.old backend.new) }
    {
        self.goes_on = false;
        let end = answer_piece(
            rt,
            alloc,
            backend,
            gate,
            &mut self.requests,
            &mut self.pending.answers,
            piece,
        )?;
        self.goes_on = end.is_none();
        Ok(end)
    }

    /// Takes what a read brought: the requests in it, up to a `quit`, wait to be answered. It tells the end that this brings; None where
    /// the session goes on. Behind an end, or want of memory, it takes no more, and what waits can still be answered.
    pub fn come(&mut self, piece: &[u8]) -> Result<Option<SessionEnd>, SessionFault>
        requires goes_on { self.old.goes_on ≡ true }
        requires settled { IsSettled self.old }
        ensures ok { OnOk result (Comes piece.now self.old self.new) }
        ensures end { IfOk result (λ end. IsEnd (items_of self.new.read) end) }
        ensures goes_on { IfOk result (λ end. self.new.goes_on ≡ is_none end) }
        ensures err { IfErr result (λ fault. (fault ≡ Memory) × (self.new ≡ record self.old { goes_on = false })) }
    {
        items_of_longer();
        self.goes_on = false;
        let mut items = self.requests.feed(piece)?;
        know_digests(self.alloc, items.as_mut_slice());
        let brought = end_by(brings_quit(items.as_slice()), self.requests.ended());
        self.pending.waiting = VecDeque::from_vec(items);
        self.goes_on = brought.is_none();
        Ok(brought)
    }

    /// Lets go of what was written, once it is 64 KiB, for a client that never takes all that it is owed.
    fn forget_sent(&mut self)
        ensures { self.new ≡ self.old }
    {
        if self.sent < MOST_RENDERED {
            return;
        }
        let left = self.pending.answers.text.len() - self.sent;
        self.pending.answers.text.rotate_left(self.sent);
        self.pending.answers.text.truncate(left);
        self.sent = 0;
    }

    /// Answers what waits, and renders the answers behind what is owed, until nothing waits or more than 64 KiB are owed. Each answer
    /// of the backend passes the gate first. After a fault nothing waits any more: what was not answered is dropped, and a reply
    /// for whose rest there is no memory is cut off.
    pub fn go_on<R: Wait + Clock, B: Backend, G: Gate>(
        &mut self,
        rt: &R,
        backend: &mut B,
        gate: &G,
    ) -> Result<(), SessionFault>
        ensures ok { OnOk result (GoesOn B.answers self.old self.new backend.old backend.new) }
        ensures far { OnOk result (GoesFar self.new) }
        ensures err { IfErr result (λ fault. BreaksOff B.answers B.refuses fault self.old self.new backend.old backend.new) }
    {
        let gone = self.go_along(rt, backend, gate);
        backend.rest();
        gone
    }

    /// Goes on as [`Session::go_on`] does, for one of several sessions that one backend answers: what the backend keeps to itself then
    /// stays its own until [`Backend::rest`].
    pub fn go_along<R: Wait + Clock, B: Backend, G: Gate>(
        &mut self,
        rt: &R,
        backend: &mut B,
        gate: &G,
    ) -> Result<(), SessionFault>
        ensures ok { OnOk result (GoesOn B.answers self.old self.new backend.old backend.new) }
        ensures far { OnOk result (GoesFar self.new) }
        ensures err { IfErr result (λ fault. BreaksOff B.answers B.refuses fault self.old self.new backend.old backend.new) }
    {
        self.forget_sent();
        let most = self.sent.saturating_add(MOST_RENDERED);
        match self.pending.go_on(rt, self.alloc, backend, gate, most) {
            Ok(()) => Ok(()),
            Err(fault) => {
                self.goes_on = false;
                self.pending.let_go(self.alloc);
                Err(fault)
            }
        }
    }
}
