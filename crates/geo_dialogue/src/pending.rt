//! What is still to be done for a client.
ghost use Rattle.std.specs.Prelude.{◌≡◌, ◌≢◌, ◌<◌, ◌≤◌, ◌⊎◌, [], cond, length, None, Some, MatchBool, IfErr, OnOk, OnErr};
ghost use Rattle.std.specs.Option.{ForSome};
ghost use Rattle.std.specs.VecDeque.{deque_len};
ghost use Rattle.geo_grammar.specs.Quitting.{until_quit};

use crate::answers::{Answers, Begun};
use crate::backend::Backend;
use crate::fault::SessionFault;
use crate::gate::Gate;
use geo_grammar::{Item, Telling};
use std::alloc::{AllocError, Global};
use std::collections::VecDeque;
use std::rt::Clock;
use std::sync::Wait;

/// What is still to be done for a client: items that wait for an answer, answers that wait to be written, and behind them what is
/// left to be rendered of a reply.
#[derive(Drop)]
pub struct Pending {
    pub waiting: VecDeque<Item>,
    pub answers: Answers,
    pub telling: Option<Telling>,
    ghost some: { ForSome telling (λ left. left ≢ []) },
}

impl Pending {
    ghost use Rattle.geo_dialogue.specs.Connections.{IsSettled, GoesOn, Fails};
    ghost use Rattle.geo_dialogue.specs.Pendings.{debt_of, with_item, Breaks, Tells};

    /// Nothing. It takes no memory.
    pub fn none(alloc: Global) -> Pending
        ensures waiting { result.waiting.items ≡ [] }
        ensures text { result.answers.text.items ≡ [] }
        ensures calls { result.answers.calls ≡ 0 }
        ensures telling { result.telling ≡ None }
    {
        Pending {
            waiting: VecDeque::new(alloc),
            answers: Answers::new(alloc),
            telling: None,
        }
    }

    /// Whether nothing waits, and nothing is left to be rendered.
    pub fn is_done(&self) -> bool
        ensures { MatchBool result (IsSettled (debt_of self.now)) (IsSettled (debt_of self.now) → ⊥) }
    {
        if self.telling.is_some() {
            return false;
        }
        match self.waiting.front() {
            Some(_) => false,
            None => true,
        }
    }

    /// Renders more of a reply that is begun, until it is rendered whole or more than so many bytes stand there.
    fn tell_on(&mut self, most: usize) -> Result<(), AllocError>
        ensures tells { Tells self.old self.new }
        ensures far { OnOk result ((most < length self.new.answers.text.items) ⊎ (self.new.telling ≡ None)) }
        ensures asks { OnErr result (IsSettled (debt_of self.new) → ⊥) }
    {
        while self.answers.text.len() <= most {
            let Some(telling) = &mut self.telling else {
                return Ok(());
            };
            if !telling.tell(&mut self.answers.text)? {
                self.telling = None;
            }
        }
        Ok(())
    }

    /// Nothing waits any more, where the client has asked for the end.
    fn end_waiting(&mut self, alloc: Global, quits: bool)
        ensures waiting { until_quit self.new.waiting.items ≡ cond quits [] (until_quit self.old.waiting.items) }
        ensures answers { self.new.answers ≡ self.old.answers }
        ensures telling { self.new.telling ≡ self.old.telling }
        ensures fewer { deque_len self.new.waiting ≤ deque_len self.old.waiting }
    {
        if quits {
            self.waiting = VecDeque::new(alloc);
        }
    }

    /// Drops what waits, and what is left to be rendered.
    pub fn let_go(&mut self, alloc: Global)
        ensures waiting { self.new.waiting.items ≡ [] }
        ensures telling { self.new.telling ≡ None }
        ensures answers { self.new.answers ≡ self.old.answers }
    {
        self.waiting = VecDeque::new(alloc);
        self.telling = None;
    }

    /// A reply is to be told.
    fn begin_telling(&mut self, telling: Telling)
        requires { telling ≢ [] }
        ensures telling { self.new.telling ≡ Some telling }
        ensures waiting { self.new.waiting ≡ self.old.waiting }
        ensures answers { self.new.answers ≡ self.old.answers }
    {
        self.telling = Some(telling);
    }

    /// Has the next item answered, and begins the answer. Behind a `quit` nothing waits.
    fn answer<R: Wait + Clock, B: Backend, G: Gate>(
        &mut self,
        rt: &R,
        alloc: Global,
        backend: &mut B,
        gate: &G,
        item: Item,
    ) -> Result<(), SessionFault>
        requires { self.old.telling ≡ None }
        ensures ok { OnOk result (GoesOn B.answers (with_item item self.old) (debt_of self.new) backend.old backend.new) }
        ensures grows { length self.old.answers.text.items ≤ length self.new.answers.text.items }
        ensures fewer { deque_len self.new.waiting ≤ deque_len self.old.waiting }
        ensures err { IfErr result (λ fault. Fails B.answers B.refuses fault (with_item item self.old) (debt_of self.new) backend.old backend.new) }
    {
        let quits = item.is_quit();
        let begun = self.answers.begin_item(rt, alloc, backend, gate, item)?;
        self.end_waiting(alloc, quits);
        match begun {
            Begun::Refused => Err(SessionFault::Spent),
            Begun::Part(telling) => {
                // nobody waits while it is rendered
                backend.rest();
                self.begin_telling(telling);
                Ok(())
            }
            Begun::Whole => Ok(()),
        }
    }

    /// Answers what waits and renders the answers, until nothing is left of either or more than so many bytes stand there.
    pub fn go_on<R: Wait + Clock, B: Backend, G: Gate>(
        &mut self,
        rt: &R,
        alloc: Global,
        backend: &mut B,
        gate: &G,
        most: usize,
    ) -> Result<(), SessionFault>
        ensures ok { OnOk result (GoesOn B.answers (debt_of self.old) (debt_of self.new) backend.old backend.new) }
        ensures far { OnOk result ((most < length self.new.answers.text.items) ⊎ IsSettled (debt_of self.new)) }
        ensures err { IfErr result (λ fault. Breaks B.answers B.refuses fault (debt_of self.old) (debt_of self.new) backend.old backend.new) }
        ensures grows { length self.old.answers.text.items ≤ length self.new.answers.text.items }
    {
        self.tell_on(most)?;
        while self.telling.is_none() && self.answers.text.len() <= most {
            let Some(item) = self.waiting.pop_front() else {
                // gives its memory back
                self.waiting = VecDeque::new(alloc);
                return Ok(());
            };
            self.answer(rt, alloc, backend, gate, item)?;
            self.tell_on(most)?;
        }
        Ok(())
    }
}
